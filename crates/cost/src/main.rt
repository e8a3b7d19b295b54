// Runs workloads of calls on the node, one for each line `WORKLOAD ROUNDS CALLS`, and answers each line
// with its checksum.
#![tactic(auto)]

use crate::work::Work;
use text::input::{Line, Lines};
use text::output::Printer;
use text::words::Words;

mod asking;
mod checksum;
mod starting;
mod work;

// The most rounds of a line.
const MOST: u64 = 1000000000;

fn main(rt: HostRuntime) {
    let mut out = Printer::new(rt.stdout());
    let mut lines = Lines::new(rt.stdin());
    for _ in 0..u64::MAX {
        let Some(line) = lines.next(&mut out) else {
            return;
        };
        match sum_of(line) {
            Some(sum) => out.put_decimal(u64::from(sum)),
            None => out.put_byte(b'?'),
        }
        out.put_byte(b'\n');
    }
}

// The checksum of the line's workload; None where the line can't be read.
fn sum_of(line: Line<'_>) -> Option<u32> {
    let mut words = Words::of(line.ok()?);
    let name = words.word();
    let rounds = words.number(MOST)?;
    let calls = words.number(MOST)?;
    words.end()?;
    Some(work::run(Work::named(name)?, rounds, calls))
}
