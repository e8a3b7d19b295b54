// Writing a heard record to the front of a lent output.
ghost use Rattle.std.specs.Prelude.{◌≡◌, ◌+◌, ◌≤◌, length};
ghost use Rattle.std.proofs.lemmas.List.Edits.{sets};
ghost use Rattle.wire.specs.Frames.{max_payload};
ghost use Rattle.wire.specs.Delivered.{little_endian, over};
ghost use Rattle.heard.specs.Kinds.{count_bytes, kind_number};
ghost use Rattle.heard.specs.Records.{at_counter, record_of, heard_of};
ghost use Rattle.heard.specs.Writing.{writing};
ghost use Rattle.heard.specs.Answers.{as_written, written_in};

use crate::kind::Kind;
use crate::record::Heard;
use crate::reply::Reply;
use wire::frame::MAX_PAYLOAD;
use wire::ids::BusId;

// Writes the record of a frame that was heard when the counter stood at this, and answers how many bytes of the output it is.
pub fn write_heard(
    out: &mut [u8],
    counter: u16,
    id: BusId,
    dlc: u8,
    payload: &[u8],
) -> Result<usize, Reply>
    ensures answer { result ≡ as_written (writing (at_counter counter id dlc) payload.now out.old) }
    ensures output { out.new
        ≡ over (writing (at_counter counter id dlc) payload.now out.old).bytes out.old }
{
    let heard = Heard {
        kind: Kind::Counter,
        count: u32::from(counter),
        id,
        dlc,
    };
    write(out, heard, payload)
}

// How many bytes an answer says were written: none with a refusal.
pub fn written_in(answer: Result<usize, Reply>) -> usize
    ensures { result ≡ written_in answer }
{
    answer.unwrap_or(0)
}

// Of any kind.
#[tactic(auto, using(crate::proofs::Storing::record_length_law, crate::proofs::Ways::above_eight, crate::proofs::Ways::no_room, crate::proofs::Ways::writes))]
fn write(out: &mut [u8], heard: Heard, payload: &[u8]) -> Result<usize, Reply>
    ensures { (result ≡ as_written (writing (heard_of heard) payload.now out.old))
        × (out.new ≡ over (writing (heard_of heard) payload.now out.old).bytes out.old) }
{
    let n = payload.len();
    if n > MAX_PAYLOAD {
        return Err(Reply::BadRecordLength);
    }
    let whole = 2 + Heard::FIXED_LENGTH + heard.kind.count_bytes() + n;
    if out.len() < whole {
        return Err(Reply::ShortOutput);
    }
    put_record(out, heard, payload);
    Ok(whole)
}

fn put_record(out: &mut [u8], heard: Heard, payload: &[u8])
    requires { (length payload.now ≤ max_payload)
        × (9 + count_bytes (kind_number heard.kind) + length payload.now ≤ length out.old) }
    ensures { out.new ≡ over (record_of (heard_of heard) payload.now) out.old }
{
    let width = heard.kind.count_bytes();
    let follow = Heard::FIXED_LENGTH + width + payload.len();
    put_number(out, 0, 2, follow as u32);
    put_number(out, 2, 2, u32::from(heard.kind.number()));
    put_number(out, 4, width, heard.count);
    let id = 4 + width;
    put_number(out, id, 4, heard.id.0);
    out[4 + id] = heard.dlc;
    let start = 5 + id;
    out[start..start + payload.len()].copy_from_slice(payload);
}

// So many bytes of the number from a place on, the lowest first.
fn put_number(out: &mut [u8], at: usize, width: usize, n: u32)
    requires { (width ≤ 4) × (at + width ≤ length out.old) }
    ensures { (out.new ≡ sets out.old at (little_endian width n))
        × (length out.new ≡ length out.old) }
{
    out[at..at + width].copy_from_slice(&n.to_le_bytes()[..width]);
}
