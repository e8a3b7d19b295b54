// The next frame to hand to the controller.
ghost use Rattle.std.specs.Prelude.{◌≡◌, ◌≤◌, List, length};
ghost use Rattle.wire.specs.Frames.{max_payload};
ghost use Rattle.wire.specs.Delivered.{over, fitting};
ghost use Rattle.node.specs.Slots.{payload_of};
ghost use Rattle.node.specs.Nodes.{as_given};
ghost use Rattle.node.specs.NextFrame.{lowest_code, has_frame, given_out, payload_for, next_frame};
ghost use Rattle.node.specs.Clock.{rolled, unbounded};
ghost use Rattle.node.specs.Calls.{Call, after, roll_outcome};

use crate::slots::{Message, Slot};
use crate::{Given, Node};
use wire::copying::copy;
use wire::delivered::copy_eight;
use wire::ids::{BusId, Stream};
use wire::reply::Reply;
use wire::settings::Settings;

impl Slot {
    // Whether a frame of the slot is pending.
    pub fn has_frame(self) -> bool
        ensures { result ≡ has_frame self }
    {
        self.pending.any() && self.used & (self.stream.0 <= Stream::MAX)
    }

    // The lowest code of the slot's pending frames. Kept as a number, as `Slot::told` has it; 3, a plain frame's code, also where none is
    // pending: the definition `lowest_code` has it so, and it is asked of slots that have one.
    pub fn lowest_code(self) -> u32
        ensures { result ≡ lowest_code self }
    {
        let p = self.pending;
        let plain = self.settings.class == Settings::PLAIN;
        if p.payload & !plain {
            0
        } else if p.confirmation {
            1
        } else if p.abort {
            2
        } else {
            3
        }
    }

    // The slot once its frame with this code, a number as in `Slot::told`, is given out.
    #[tactic(auto, unfolding(crate::specs::NextFrame::given_out))]
    pub fn given_out(mut self, code: u32) -> Slot
        ensures { result ≡ given_out code self }
    {
        match code {
            1 => self.pending.confirmation = false,
            2 => self.pending.abort = false,
            _ => self.pending.payload = false,
        }
        self
    }
}

// Writes the payload of the slot's frame with this code, a number as in `Slot::told`, to the front of `out`, where it fits; answers its
// length: kept as a number, and 0 where nothing is written, as `fitting` has it.
#[tactic(auto, unfolding(crate::specs::NextFrame::payload_for))]
pub fn give_payload(out: &mut [u8], s: Slot, code: u32) -> usize
    ensures answer { result ≡ length (fitting (payload_for code s) out.old) }
    ensures output { out.new ≡ over (fitting (payload_for code s) out.old) out.old }
    ensures short { length (payload_for code s) ≤ max_payload }
{
    match code {
        1 | 2 => 0,
        _ => put_payload(out, s.message),
    }
}

// Answers its length, or 0 where it does not fit: the calls have tested the room.
fn put_payload(out: &mut [u8], m: Message) -> usize
    ensures answer { result ≡ length (fitting (payload_of m) out.old) }
    ensures output { out.new ≡ over (fitting (payload_of m) out.old) out.old }
    ensures short { length (payload_of m) ≤ max_payload }
{
    let n = m.payload_length();
    if out.len() < n {
        return 0;
    }
    if n == Message::MAX_LEN {
        copy_eight(out, 0, &m.bytes);
    } else {
        copy(out, &m.bytes[..n]);
    }
    n
}

impl Node {
    // The longest payload must fit.
    pub const NEXT_ROOM: usize = Message::MAX_LEN;

    // Gives out the pending frame with the lowest bus identifier, of the first slot that has one; it is pending no longer.
    pub fn next_frame(&mut self, out: &mut [u8]) -> Result<Given, Reply>
        ensures exact { (result ≡ as_given (next_frame out.old self.old))
            × (self.new ≡ (next_frame out.old self.old).node)
            × (out.new ≡ over (next_frame out.old self.old).bytes out.old) }
        ensures unbounded { (h : List Call) → self.old ≡ after rolled h
            → (result ≡ as_given (roll_outcome (next_frame out.old (after unbounded h))))
            × (self.new ≡ (roll_outcome (next_frame out.old (after unbounded h))).node)
            × (out.new ≡ over (next_frame out.old (after unbounded h)).bytes out.old) }
    {
        if out.len() < Node::NEXT_ROOM {
            return Err(Reply::ShortOutput);
        }
        let i = self.place_of_frame().ok_or(Reply::Nothing)?;
        let slot = self.slots[i];
        let code = slot.lowest_code();
        let id = slot.stream.join(code)?;
        let len = give_payload(out, slot, code);
        self.slots[i] = slot.given_out(code);
        Ok(Given { id, len })
    }
}
