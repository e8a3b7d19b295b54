// A line is answered by what its first word names. What is no call stands here: the fresh node, many ticks, the tally.
ghost use Rattle.std.specs.Prelude.{◌≡◌, IfNone};

use crate::calls;
use module::Module;
use node::Node;
use text::input::Line;
use text::output::Printer;
use text::part;
use text::words::Words;

// The most ticks of one line.
const TICKS: u64 = 65536;

// Answers a line. None, with nothing done, where it can't be read.
pub(crate) fn answer(module: &mut Module, line: Line<'_>, out: &mut Printer) -> Option<()>
    ensures unread { IfNone result (module.new ≡ module.old) }
{
    let mut words = Words::of(line.ok()?);
    match words.word() {
        b"tick" => calls::tick(module, &mut words, out),
        b"hear" => calls::hear(module, &mut words, out),
        b"next" => calls::next(module, &mut words, out),
        b"request" => calls::request(module, &mut words, out),
        b"ticks" => ticks(module, &mut words, out),
        b"setup" => calls::setup(module, &mut words, out),
        b"tally" => tally(module, &mut words, out),
        b"node" => fresh(module, &mut words, out),
        _ => None,
    }
}

// node
fn fresh(module: &mut Module, words: &mut Words<'_>, out: &mut Printer) -> Option<()>
    ensures unread { IfNone result (module.new ≡ module.old) }
{
    words.end()?;
    *module = Module::fresh();
    out.put(b"node");
    Some(())
}

// ticks N: the counter, behind `K RECORDS ` of each tick that wrote some
fn ticks(module: &mut Module, words: &mut Words<'_>, out: &mut Printer) -> Option<()>
    ensures unread { IfNone result (module.new ≡ module.old) }
{
    let n = words.number(TICKS)?;
    words.end()?;
    for k in 1..=n {
        let mut records = [0; Node::TICK_ROOM];
        if let Ok(ticked) = module.tick(&mut records)
            && ticked.written > 0
        {
            out.put_parted(k, b' ');
            out.put_hex(part(&records, 0, ticked.written));
            out.put_byte(b' ');
        }
    }
    out.put_decimal(u64::from(module.node.counter));
    Some(())
}

// tally: the counts, with a space between them
fn tally(module: &mut Module, words: &mut Words<'_>, out: &mut Printer) -> Option<()>
    ensures unread { IfNone result (module.new ≡ module.old) }
{
    words.end()?;
    for (i, count) in module.tally.counts.iter().enumerate() {
        if i > 0 {
            out.put_byte(b' ');
        }
        out.put_decimal(u64::from(*count));
    }
    Some(())
}
