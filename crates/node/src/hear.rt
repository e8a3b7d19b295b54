// Hearing a frame.
ghost use Rattle.std.specs.Prelude.{◌≡◌, List, length, take};
ghost use Rattle.wire.specs.Frames.{max_payload};
ghost use Rattle.wire.specs.Delivered.{over, fitting};
ghost use Rattle.wire.specs.Answers.{answered};
ghost use Rattle.wire.specs.Refusals.{reply_of};
ghost use Rattle.node.specs.Nodes.{as_heard};
ghost use Rattle.node.specs.Hear.{clashes, data_heard, confirmation_heard, abort_heard, heard_by, plain_record, slot_hear_refusals, hear};
ghost use Rattle.node.specs.Clock.{rolled, unbounded};
ghost use Rattle.node.specs.Calls.{Call, after, roll_outcome};

use crate::slots::{Message, Slot};
use crate::{Heard, Node};
use wire::class::carries;
use wire::delivered::write_record;
use wire::frame::check_frame;
use wire::ids::{BusId, Stream};
use wire::reply::Reply;

impl Slot {
    // Whether the frame is data with another length or other bytes than the message held. Its code is a number, as in `Slot::told`.
    fn clashes(self, code: u32, payload: &[u8]) -> bool
        ensures { result ≡ clashes code payload.now self }
    {
        code == 0 && self.message.held && !self.message.same(payload)
    }

    // Refuses a good frame of the slot's stream where the slot may not take it. The code is kept as a number, as `Slot::told` has it.
    pub fn check_hear(self, code: u32, payload: &[u8]) -> Result<(), Reply>
        ensures { result ≡ answered (reply_of (slot_hear_refusals code payload.now self)) tt }
    {
        if !self.is_receiver() {
            return Err(Reply::NotMine);
        }
        if !carries(self.settings.class, code) {
            return Err(Reply::Misfit);
        }
        if self.clashes(code, payload) {
            return Err(Reply::Clash);
        }
        Ok(())
    }

    // Data: held, if nothing is; else it is a duplicate.
    fn hear_data(mut self, counter: u16, payload: &[u8]) -> Slot
        ensures { result ≡ data_heard counter (take max_payload payload.now) self }
    {
        if self.message.held {
            self.message.stamp = counter;
        } else {
            self.message = Message::holding(counter, payload);
        }
        self
    }

    // A confirmation: what is held is confirmed; where nothing is, an abort becomes pending.
    fn hear_confirmation(mut self) -> Slot
        ensures { result ≡ confirmation_heard self }
    {
        if self.message.held {
            self.message.confirmed = true;
        } else {
            self.pending.abort = true;
        }
        self
    }

    // An abort: what is held is dropped, confirmed or not.
    fn hear_abort(mut self) -> Slot
        ensures { result ≡ abort_heard self }
    {
        if self.message.held {
            self.message = Message::NONE;
        }
        self
    }

    // What the slot makes of a frame that it does not refuse; of a payload it takes the first eight bytes. The code is kept as a
    // number, as `Slot::told` has it.
    #[tactic(auto, unfolding(crate::specs::Hear::heard_by))]
    pub fn hear(self, counter: u16, code: u32, payload: &[u8]) -> Slot
        ensures { result ≡ heard_by counter code (take max_payload payload.now) self }
    {
        match code {
            0 => self.hear_data(counter, payload),
            1 => self.hear_confirmation(),
            2 => self.hear_abort(),
            _ => self,
        }
    }
}

// Writes the record of a plain frame, where it fits; the other codes, numbers as in `Slot::told`, deliver nothing yet. Answers
// how many bytes were written; kept as a number, as `write_record` answers it.
pub fn deliver_plain(out: &mut [u8], stream: Stream, code: u32, payload: &[u8]) -> usize
    ensures answer { result ≡ length (fitting (plain_record stream code (take max_payload payload.now)) out.old) }
    ensures output { out.new
        ≡ over (fitting (plain_record stream code (take max_payload payload.now)) out.old) out.old }
{
    match code {
        3 => write_record(out, stream, payload),
        _ => 0,
    }
}

impl Node {
    // A plain frame is delivered at once, so the longest record must fit.
    pub const HEAR_ROOM: usize = 16;

    // Takes in a frame that the controller received.
    pub fn hear(
        &mut self,
        id: BusId,
        dlc: u8,
        payload: &[u8],
        out: &mut [u8],
    ) -> Result<Heard, Reply>
        ensures exact { (result ≡ as_heard (hear id dlc payload.now out.old self.old))
            × (self.new ≡ (hear id dlc payload.now out.old self.old).node)
            × (out.new ≡ over (hear id dlc payload.now out.old self.old).bytes out.old) }
        ensures unbounded { (h : List Call) → self.old ≡ after rolled h
            → (result ≡ as_heard (roll_outcome (hear id dlc payload.now out.old (after unbounded h))))
            × (self.new ≡ (roll_outcome (hear id dlc payload.now out.old (after unbounded h))).node)
            × (out.new ≡ over (hear id dlc payload.now out.old (after unbounded h)).bytes out.old) }
    {
        if out.len() < Node::HEAR_ROOM {
            return Err(Reply::ShortOutput);
        }
        check_frame(id.is_bare(), id, dlc, payload)?;
        let (stream, code) = id.split()?;
        let i = self.place_of(stream).ok_or(Reply::NotMine)?;
        let slot = self.slots[i];
        slot.check_hear(code, payload)?;
        let told = slot.told(code);
        self.slots[i] = slot.hear(self.counter, code, payload);
        let written = deliver_plain(out, stream, code, payload);
        Ok(Heard { written, told })
    }
}
