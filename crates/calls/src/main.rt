// Drives one node and its tally by lines of text, one answer line for each line.
#![tactic(auto)]

use module::Module;
use text::input::Lines;
use text::output::Printer;

mod calls;
mod lent;
mod lines;

fn main(rt: HostRuntime) {
    let mut out = Printer::new(rt.stdout());
    let mut lines = Lines::new(rt.stdin());
    let mut module = Module::fresh();
    for _ in 0..u64::MAX {
        let Some(line) = lines.next(&mut out) else {
            return;
        };
        if lines::answer(&mut module, line, &mut out).is_none() {
            out.put_byte(b'?');
        }
        out.put_byte(b'\n');
    }
}
