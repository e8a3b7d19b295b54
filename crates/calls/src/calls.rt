// A line each for the five calls: the readers answer None where a line can't be read, and then nothing is printed or done.
ghost use Rattle.std.specs.Prelude.{◌≡◌, IfNone};

use crate::lent;
use module::Module;
use module::tally::reply_of;
use module::values::{given_in, heard_in, ticked_in};
use text::output::Printer;
use text::part;
use text::words::Words;
use wire::ids::{BusId, Stream};
use wire::reply::Reply;

// The most bytes of a payload that can be read. Its length stands beside its bytes: there is no heap here.
const PAYLOAD: usize = 64;

// setup STREAM ROLE CLASS RD DC RA DD
pub(crate) fn setup(module: &mut Module, words: &mut Words<'_>, out: &mut Printer) -> Option<()>
    ensures unread { IfNone result (module.new ≡ module.old) }
{
    let (stream, settings) = words.settings()?;
    words.end()?;
    let answer = module.set_up(stream, settings);
    out.put_decimal(number_of(&answer));
    Some(())
}

// request STREAM PAYLOAD
pub(crate) fn request(module: &mut Module, words: &mut Words<'_>, out: &mut Printer) -> Option<()>
    ensures unread { IfNone result (module.new ≡ module.old) }
{
    let mut payload = [0; PAYLOAD];
    let stream = words.number(u32::MAX)?;
    let len = words.payload(&mut payload)?;
    words.end()?;
    let answer = module.request(Stream(stream), &payload[..len]);
    out.put_decimal(number_of(&answer));
    Some(())
}

// hear IDENT DLC PAYLOAD OUT: REPLY WRITTEN OUTPUT TOLD
pub(crate) fn hear(module: &mut Module, words: &mut Words<'_>, out: &mut Printer) -> Option<()>
    ensures unread { IfNone result (module.new ≡ module.old) }
{
    let mut payload = [0; PAYLOAD];
    let id = words.number(u32::MAX)?;
    let dlc = words.number(u8::MAX)?;
    let len = words.payload(&mut payload)?;
    let size = words.number(lent::MOST)?;
    words.end()?;
    let mut output = lent::FILLED;
    let answer = module.hear(BusId(id), dlc, &payload[..len], &mut output[..size]);
    let heard = heard_in(answer);
    out.put_parted(number_of(&answer), b' ');
    out.put_parted(heard.written as u64, b' ');
    out.put_hex(&output[..size]);
    out.put_byte(b' ');
    out.put_told(heard.told.number());
    Some(())
}

// tick OUT: REPLY WRITTEN RECORDS clean|dirty DROPPED DELIVERED
pub(crate) fn tick(module: &mut Module, words: &mut Words<'_>, out: &mut Printer) -> Option<()>
    ensures unread { IfNone result (module.new ≡ module.old) }
{
    let size = words.number(lent::MOST)?;
    words.end()?;
    let mut output = lent::FILLED;
    let answer = module.tick(&mut output[..size]);
    let ticked = ticked_in(answer);
    out.put_parted(number_of(&answer), b' ');
    out.put_parted(ticked.written as u64, b' ');
    out.put_hex(part(&output, 0, ticked.written));
    out.put(if lent::is_clean(&output, ticked.written) {
        b" clean "
    } else {
        b" dirty "
    });
    out.put_parted(u64::from(ticked.dropped), b' ');
    out.put_decimal(u64::from(ticked.delivered));
    Some(())
}

// next OUT: REPLY IDENT LENGTH OUTPUT
pub(crate) fn next(module: &mut Module, words: &mut Words<'_>, out: &mut Printer) -> Option<()>
    ensures unread { IfNone result (module.new ≡ module.old) }
{
    let size = words.number(lent::MOST)?;
    words.end()?;
    let mut output = lent::FILLED;
    let answer = module.next_frame(&mut output[..size]);
    let given = given_in(answer);
    out.put_parted(number_of(&answer), b' ');
    out.put_parted(u64::from(given.id.0), b' ');
    out.put_parted(given.len as u64, b' ');
    out.put_hex(&output[..size]);
    Some(())
}

// The number of an answer's reply.
fn number_of<T>(answer: &Result<T, Reply>) -> u64 {
    u64::from(reply_of(answer).number())
}
