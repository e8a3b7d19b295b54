// A line is answered by the sheet that it asks for.
use crate::lists;
use crate::lists::List;
use response::lent::solve_array;
use response::refusal::{number_of, position_of};
use response::streams::Errors;
use text::input::Line;
use text::output::Printer;
use text::words::Words;

// The most numbers that are lent.
const MOST: usize = 256;

// What stands in them before.
const FILL: u32 = u32::MAX;

// None, with nothing printed, where the line can't be read.
pub(crate) fn answer(line: Line<'_>, out: &mut Printer) -> Option<()> {
    let mut words = Words::of(line.ok()?);
    match words.word() {
        b"solve" => solve(&mut words, out),
        _ => None,
    }
}

// solve OUT N PERIOD INACC [PRIORITY C T D]..
fn solve(words: &mut Words<'_>, out: &mut Printer) -> Option<()> {
    let room = words.number(MOST)?;
    let errors = lists::read_errors(words)?;
    let list = lists::read_list(words)?;
    let mut lent = [FILL; MOST];
    put_sheet(list, errors, &mut lent[..room], out);
    Some(())
}

// REPLY POSITION ENTRIES
fn put_sheet(list: List, errors: Errors, lent: &mut [u32], out: &mut Printer) {
    let answer = solve_array(list.streams, list.len, errors, lent);
    out.put_parted(u64::from(number_of(&answer)), b' ');
    out.put_parted(position_of(&answer) as u64, b' ');
    put_entries(lent, out);
    out.put_byte(b'\n');
}

// The numbers that are lent, with a space between them; `-` where there are none.
fn put_entries(lent: &[u32], out: &mut Printer) {
    let [first, rest @ ..] = lent else {
        out.put_byte(b'-');
        return;
    };
    out.put_decimal(u64::from(*first));
    for n in rest {
        out.put_byte(b' ');
        out.put_decimal(u64::from(*n));
    }
}
