// Replays recordings under a list of settings and writes heard records, by lines of text, one answer line for each line that is
// not skipped.
#![tactic(auto)]

use crate::settings::List;
use text::comments::has_no_answer;
use text::input::Lines;
use text::output::Printer;

mod lines;
mod replays;
mod settings;
mod writing;

fn main(rt: HostRuntime) {
    let mut out = Printer::new(rt.stdout());
    let mut lines = Lines::new(rt.stdin());
    let mut list = List::EMPTY;
    for _ in 0..u64::MAX {
        let Some(line) = lines.next(&mut out) else {
            return;
        };
        if has_no_answer(line) {
            continue;
        }
        if lines::answer(&mut list, line, &mut out).is_none() {
            out.put_byte(b'?');
        }
        out.put_byte(b'\n');
    }
}
