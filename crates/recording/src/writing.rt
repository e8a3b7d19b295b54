// Writing a heard record into an output that is lent, and was `ee` before.
use heard::reply::number_of;
use heard::writing::{write_heard, written_in};
use text::output::Printer;
use text::words::Words;
use wire::ids::BusId;

// The most bytes of a payload that can be read.
const PAYLOAD: usize = 64;

// The most bytes that are lent.
const MOST: usize = 1024;

const FILL: u8 = 238;

// write COUNTER IDENT DLC PAYLOAD OUT, answered by REPLY WRITTEN and the output
pub(crate) fn write(words: &mut Words<'_>, out: &mut Printer) -> Option<()> {
    let mut bytes = [0; PAYLOAD];
    let counter = words.number(u16::MAX)?;
    let id = BusId(words.number(u32::MAX)?);
    let dlc = words.number(u8::MAX)?;
    let len = words.payload(&mut bytes)?;
    let size = words.number(MOST)?;
    words.end()?;
    let mut lent = [FILL; MOST];
    let answer = write_heard(&mut lent[..size], counter, id, dlc, &bytes[..len]);
    out.put_parted(u64::from(number_of(&answer)), b' ');
    out.put_parted(written_in(answer) as u64, b' ');
    out.put_hex(&lent[..size]);
    Some(())
}
