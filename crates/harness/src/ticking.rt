// Common ticks, and what they dropped and delivered.
ghost use Rattle.std.specs.Prelude.{◌≡◌, IfNone};

use crate::records;
use crate::records::Place;
use crate::state::State;
use bench_in_code::stations::Ticking;
use bench_in_code::{Bench, Outputs};
use text::output::Printer;
use text::part;
use text::words::Words;

// The most ticks of one line.
const TICKS: u64 = 1000000;

// tick
pub(crate) fn tick(state: &mut State, words: &mut Words<'_>, out: &mut Printer) -> Option<()>
    ensures unread { IfNone result (state.new ≡ state.old) }
{
    words.end()?;
    run(state, 1, false, out)
}

// ticks N
pub(crate) fn ticks(state: &mut State, words: &mut Words<'_>, out: &mut Printer) -> Option<()>
    ensures unread { IfNone result (state.new ≡ state.old) }
{
    let n = words.number(TICKS)?;
    words.end()?;
    run(state, n, true, out)
}

// So many ticks, with what each dropped and delivered. There are none before there is a bench.
fn run(state: &mut State, n: u64, dated: bool, out: &mut Printer) -> Option<()>
    ensures unread { IfNone result (state.new ≡ state.old) }
{
    if state.modules == 0 {
        return None;
    }
    let before = state.ticks;
    // The count does not come round in any time that a program runs.
    state.ticks = before.wrapping_add(n);
    out.put_decimal(state.ticks);
    for k in 1..=n {
        let tick = before.wrapping_add(k);
        let said = state.bench.tick(&mut state.outs);
        put_told(out, said, &state.outs, dated.then_some(tick));
    }
    Some(())
}

fn put_told(out: &mut Printer, said: [Ticking; Bench::PLACES], outs: &Outputs, tick: Option<u64>) {
    for (module, ticking) in said.iter().enumerate() {
        let Some(Ok(ticked)) = *ticking else { continue };
        let place = Place { module, tick };
        records::put_dropped(out, place, ticked.dropped);
        records::put_all(out, place, part(&outs[module], 0, ticked.written));
    }
}
