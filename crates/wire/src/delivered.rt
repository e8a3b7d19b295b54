// The delivered record: its length, the writer, and the reader.
ghost use Rattle.std.specs.Prelude.{◌≡◌, cond, ◌&&◌, ◌+◌, ◌≤◌, length, take, leb};
ghost use Rattle.std.proofs.Math.Seq.{paste};
ghost use Rattle.wire.specs.Frames.{max_payload};
ghost use Rattle.wire.specs.Answers.{answered};
ghost use Rattle.wire.specs.Delivered.{record_length, fitting, record_of, over, number_at, record_at, as_read};

use crate::copying::copy;
use crate::frame::{MAX_PAYLOAD, at_most_payload};
use crate::ids::Stream;
use crate::reply::Reply;

// The length of the whole record of a payload of this length.
#[tactic(auto, unfolding(crate::specs::Delivered::record_length))]
pub fn record_length(payload: u32) -> Result<u32, Reply>
    ensures { result ≡ answered (record_length payload).reply (record_length payload).length }
{
    if payload <= MAX_PAYLOAD as u32 {
        return Ok(RecordAt::HEAD as u32 + payload);
    }
    Err(Reply::BadLength)
}

// Writes the record of a payload, of which it takes the first eight bytes, to the front of `out`, and nothing
// where it does not fit. Answers how many bytes were written: 0 where none were, as `fitting` has it, and no refusal, for
// the calls lend it no part that is too short (docs/DECISIONS.md, 18).
#[tactic(auto, using(crate::proofs::Records::cut_length))]
pub fn write_record(out: &mut [u8], stream: Stream, payload: &[u8]) -> usize
    ensures answer { result ≡ length (fitting (record_of stream (take max_payload payload.now)) out.old) }
    ensures output { out.new
        ≡ over (fitting (record_of stream (take max_payload payload.now)) out.old) out.old }
{
    let n = at_most_payload(payload.len());
    if out.len() < RecordAt::HEAD + n {
        return 0;
    }
    put_record(out, stream, &payload[..n]);
    RecordAt::HEAD + n
}

fn put_record(out: &mut [u8], stream: Stream, payload: &[u8])
    requires { (length payload.now ≤ max_payload) × (8 + length payload.now ≤ length out.old) }
    ensures { out.new ≡ over (record_of stream payload.now) out.old }
{
    let n = payload.len();
    let [s0, s1, s2, s3] = stream.0.to_le_bytes();
    let length = (RecordAt::LEAST_LENGTH + n) as u8;
    let head = [length, 0, RecordAt::KIND as u8, 0, s0, s1, s2, s3];
    copy(&mut out[..RecordAt::HEAD], &head);
    // A full payload is the most frequent one: all of it is read before any is written, so that it is one load and one store.
    if n == MAX_PAYLOAD {
        copy(
            &mut out[RecordAt::HEAD..RecordAt::HEAD + MAX_PAYLOAD],
            &first_eight(payload),
        );
    } else {
        copy(&mut out[RecordAt::HEAD..RecordAt::HEAD + n], payload);
    }
}

// Copies the first eight bytes of a payload to a place of the output, where both have so many.
pub fn copy_eight(out: &mut [u8], at: usize, payload: &[u8])
    ensures { out.new
        ≡ cond (leb (at + max_payload) (length out.old) && leb max_payload (length payload.now))
        (paste out.old at payload.now max_payload) out.old }
{
    let room = out.len();
    if payload.len() < MAX_PAYLOAD || room < MAX_PAYLOAD || room - MAX_PAYLOAD < at {
        return;
    }
    copy(&mut out[at..at + MAX_PAYLOAD], &first_eight(payload));
}

fn first_eight(payload: &[u8]) -> [u8; 8]
    requires { 8 ≤ length payload.now }
    ensures { result ≡ take 8 payload.now }
{
    let mut row = [0; MAX_PAYLOAD];
    copy(&mut row, &payload[..MAX_PAYLOAD]);
    row
}

// A record that stands at a place of some bytes.
#[derive(Clone, Copy, Debug, PartialEq, Eq)]
pub struct RecordAt {
    pub stream: Stream,
    // Where the payload starts, and how long it is.
    pub payload: usize,
    pub length: usize,
    // Where the record ends, and the next may start.
    pub next: usize,
}

// Why there is none.
#[derive(Clone, Copy, Debug, PartialEq, Eq)]
pub enum Fault {
    // Fewer than four bytes are left, or fewer than the length says.
    Cut,
    OtherKind,
    OtherLength,
}

impl RecordAt {
    // Length, kind and stream, which stand before the payload.
    pub const HEAD: usize = 8;

    pub const KIND: usize = 1;

    // Kind and stream, which the length counts beside the payload.
    pub const LEAST_LENGTH: usize = 6;

    pub const MOST_LENGTH: usize = 14;
}

// The record that starts at this place, or why there is none.
#[tactic(auto, unfolding(crate::specs::Delivered::record_at))]
pub fn record_at(bytes: &[u8], at: usize) -> Result<RecordAt, Fault>
    ensures { result ≡ as_read (record_at bytes.now at) }
{
    let left = bytes.len().saturating_sub(at);
    if left < 4 {
        return Err(Fault::Cut);
    }
    let follow = two_at(bytes, at);
    if left < 2 + follow {
        return Err(Fault::Cut);
    }
    if two_at(bytes, 2 + at) != RecordAt::KIND {
        return Err(Fault::OtherKind);
    }
    if follow < RecordAt::LEAST_LENGTH || follow > RecordAt::MOST_LENGTH {
        return Err(Fault::OtherLength);
    }
    let payload = RecordAt::HEAD + at;
    let length = follow - RecordAt::LEAST_LENGTH;
    Ok(RecordAt {
        stream: stream_at(bytes, 4 + at),
        payload,
        length,
        next: payload + length,
    })
}

// The numbers of two bytes and of four: two functions, since `from_le_bytes` is one for each width.
fn two_at(bytes: &[u8], at: usize) -> usize
    requires { 2 + at ≤ length bytes.now }
    ensures { (result ≡ number_at 2 bytes.now at) × (result ≤ 65535) }
{
    usize::from(u16::from_le_bytes([bytes[at], bytes[1 + at]]))
}

fn stream_at(bytes: &[u8], at: usize) -> Stream
    requires { 4 + at ≤ length bytes.now }
    ensures { result ≡ record { 0 = number_at 4 bytes.now at } }
{
    Stream(u32::from_le_bytes([bytes[at], bytes[1 + at], bytes[2 + at], bytes[3 + at]]))
}
