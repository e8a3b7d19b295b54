// Reading the heard record at a place of some bytes.
ghost use Rattle.std.specs.Prelude.{◌≡◌, ◌+◌, ◌^◌, ◌≤◌, ◌<◌, length};
ghost use Rattle.wire.specs.Delivered.{number_at};
ghost use Rattle.heard.specs.Reading.{heard_at};
ghost use Rattle.heard.specs.Answers.{was_told};

use crate::kind::Kind;
use crate::record::Heard;
use crate::reply::Reply;
use wire::frame::MAX_PAYLOAD;
use wire::ids::BusId;

#[derive(Clone, Copy, Debug, PartialEq, Eq)]
pub struct HeardAt {
    pub heard: Heard,
    // Where the payload starts, and how long it is.
    pub payload: usize,
    pub length: usize,
    // Where the record ends and the next may start.
    pub next: usize,
}

// The record, or why there is none.
pub fn heard_at(bytes: &[u8], at: usize) -> Result<HeardAt, Reply>
    ensures { was_told at result ≡ heard_at bytes.now at }
{
    let left = bytes.len().saturating_sub(at);
    if left < 4 {
        return Err(Reply::CutRecord);
    }
    let follow = number_at(bytes, at, 2) as usize;
    if left < 2 + follow {
        return Err(Reply::CutRecord);
    }
    let number = number_at(bytes, 2 + at, 2) as u16;
    let kind = Kind::try_from(number)?;
    let width = kind.count_bytes();
    let head = Heard::FIXED_LENGTH + width;
    if follow < head {
        return Err(Reply::BadRecordLength);
    }
    if follow > head + MAX_PAYLOAD {
        return Err(Reply::BadRecordLength);
    }
    let id = 4 + width + at;
    let payload = 5 + id;
    let length = follow - head;
    Ok(HeardAt {
        heard: Heard {
            kind,
            count: number_at(bytes, 4 + at, width),
            id: BusId(number_at(bytes, id, 4)),
            dlc: bytes[4 + id],
        },
        payload,
        length,
        next: payload + length,
    })
}

// The number that so many bytes hold from a place on, the lowest first. Kept beside the readers of wire: a record's kind says its count's width.
fn number_at(bytes: &[u8], at: usize, width: usize) -> u32
    requires { (width ≤ 4) × (at + width ≤ length bytes.now) }
    ensures { (result ≡ number_at width bytes.now at) × (result < 256 ^ width) }
{
    let mut four = [0; 4];
    four[..width].copy_from_slice(&bytes[at..at + width]);
    u32::from_le_bytes(four)
}
