// Runs a bench history by lines of text, one answer line for each line that is not skipped.
#![tactic(auto)]

use crate::state::State;
use text::comments::has_no_answer;
use text::input::Lines;
use text::output::Printer;

mod answers;
mod asking;
mod giving;
mod lines;
mod names;
mod records;
mod sending;
mod state;
mod ticking;

fn main(rt: HostRuntime) {
    let mut out = Printer::new(rt.stdout());
    let mut lines = Lines::new(rt.stdin());
    let mut state = State::of(0);
    for _ in 0..u64::MAX {
        let Some(line) = lines.next(&mut out) else {
            return;
        };
        if has_no_answer(line) {
            continue;
        }
        if lines::answer(&mut state, line, &mut out).is_none() {
            out.put_byte(b'?');
        }
        out.put_byte(b'\n');
    }
}
