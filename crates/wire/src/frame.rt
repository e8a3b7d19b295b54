// Whether what the controller hands over is a frame at all.
ghost use Rattle.std.specs.Prelude.{◌≡◌, min, length};
ghost use Rattle.wire.specs.Answers.{answered};
ghost use Rattle.wire.specs.Refusals.{reply_of};
ghost use Rattle.wire.specs.Frames.{max_payload, is_bare, frame_refusals};

use crate::ids::BusId;
use crate::reply::Reply;

pub const MAX_DLC: u8 = 15;

// A payload has at most so many bytes.
pub const MAX_PAYLOAD: usize = 8;

// So many, or as many as a payload has at most: the bytes that a DLC means, and that a length is cut to.
pub fn at_most_payload(n: usize) -> usize
    ensures { result ≡ min n max_payload }
{
    n.min(MAX_PAYLOAD)
}

impl BusId {
    // Whether the frame is a confirmation or an abort, which come without a payload.
    pub fn is_bare(self) -> bool
        ensures { result ≡ is_bare self }
    {
        matches!(self.0 % 4, 1 | 2)
    }
}

// Refuses what is no frame, for its first fault; `bare` where frames of its kind come without a payload.
pub fn check_frame(bare: bool, id: BusId, dlc: u8, payload: &[u8]) -> Result<(), Reply>
    ensures { result ≡ answered (reply_of (frame_refusals bare id dlc (length payload.now))) tt }
{
    if id.0 > BusId::MAX {
        return Err(Reply::IdentifierTooBig);
    }
    if dlc > MAX_DLC {
        return Err(Reply::DlcTooBig);
    }
    if payload.len() != at_most_payload(usize::from(dlc)) {
        return Err(Reply::PayloadLength);
    }
    if bare && dlc != 0 {
        return Err(Reply::UnwantedPayload);
    }
    Ok(())
}
