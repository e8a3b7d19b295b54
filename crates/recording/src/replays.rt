// Replaying a recording that stands in a line.
use crate::settings::List;
use playback::Playback;
use playback::step::{Fault, Stepped, number_of, offset_of};
use text::output::Printer;
use text::part;
use text::words::Words;
use wire::delivered::{RecordAt, record_at};
use wire::reply::Reply;

// More bytes than a line can say.
const MOST: usize = 32768;

// replay BYTES
pub(crate) fn replay(list: &List, words: &mut Words<'_>, out: &mut Printer) -> Option<()> {
    let mut bytes = [0; MOST];
    let len = words.payload(&mut bytes)?;
    words.end()?;
    put_replay(list, &bytes[..len], out);
    Some(())
}

// REPLY OFFSET[ TICK:STREAM:PAYLOAD].., or REPLY 0 where a setting is refused. The reply stands before the deliveries, so the
// recording is played twice, and told the second time.
fn put_replay(list: &List, recording: &[u8], out: &mut Printer) {
    let ready = match prepare(list) {
        Ok(ready) => ready,
        Err(reply) => return put_end(out, reply.number(), 0),
    };
    let end = play(ready, recording, |_, _| {});
    put_end(out, number_of(&end), offset_of(&end));
    let _ = play(
        ready,
        recording,
        |tick, records| put_all(out, tick, records),
    );
}

// The settings, up to the first that is refused.
fn prepare(list: &List) -> Result<Playback, Reply> {
    let mut playback = Playback::fresh();
    for entry in list.entries.iter().take(list.len) {
        playback.set_up(entry.stream, entry.settings)?;
    }
    Ok(playback)
}

// Tells what each step delivers, and at which tick.
fn play<F: FnMut(u64, &[u8])>(
    mut playback: Playback,
    recording: &[u8],
    mut tell: F,
) -> Result<(), Fault>
    requires { F.IsAlwaysCallable tell }
{
    let mut rest = recording;
    for _ in 0..u64::MAX {
        let mut lent = [0; Playback::ROOM];
        match playback.step(rest, true, &mut lent) {
            Stepped::On { took, written } => {
                tell(playback.ticks, part(&lent, 0, written));
                rest = part(rest, took, rest.len());
            }
            Stepped::Over(end) => return end,
            // A step that is lent all there is asks for nothing more.
            Stepped::MoreBytes | Stepped::MoreRoom => return Ok(()),
        }
    }
    Ok(())
}

// ` TICK:STREAM:PAYLOAD` for each delivered record.
#[tactic(auto, using(wire::proofs::Reading::answered_within))]
fn put_all(out: &mut Printer, tick: u64, records: &[u8]) {
    let mut at = 0;
    while let Ok(record) = record_at(records, at) {
        put_delivery(out, tick, records, record);
        at = record.next;
    }
}

fn put_delivery(out: &mut Printer, tick: u64, records: &[u8], record: RecordAt) {
    out.put_byte(b' ');
    out.put_parted(tick, b':');
    out.put_parted(u64::from(record.stream.0), b':');
    out.put_hex(part(records, record.payload, record.next));
}

// REPLY OFFSET
fn put_end(out: &mut Printer, reply: u32, offset: u64) {
    out.put_parted(u64::from(reply), b' ');
    out.put_decimal(offset);
}
