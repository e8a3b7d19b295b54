// Answers lines of text that ask for the response-time sheet of a list of streams.
#![tactic(auto)]

use text::comments::has_no_answer;
use text::input::Lines;
use text::output::Printer;

mod lines;
mod lists;

fn main(rt: HostRuntime) {
    let mut out = Printer::new(rt.stdout());
    let mut lines = Lines::new(rt.stdin());
    for _ in 0..u64::MAX {
        let Some(line) = lines.next(&mut out) else {
            return;
        };
        if has_no_answer(line) {
            continue;
        }
        if lines::answer(line, &mut out).is_none() {
            out.put(b"?\n");
        }
    }
}
