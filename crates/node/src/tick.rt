// A tick: the counter moves, what is due is delivered in the order of the slots, and what is late dropped.
ghost use Rattle.std.specs.Prelude.{◌≡◌, List, length};
ghost use Rattle.wire.specs.Frames.{max_payload};
ghost use Rattle.wire.specs.Delivered.{over};
ghost use Rattle.node.specs.Nodes.{as_ticked};
ghost use Rattle.node.specs.Tick.{late, due, hold_over, dropped, delivered, hold_ended, tick};
ghost use Rattle.node.specs.Stirring.{may_stir};
ghost use Rattle.node.specs.Clock.{rolled, unbounded};
ghost use Rattle.node.specs.Calls.{Call, after, roll_outcome};

use crate::slots::{Message, Slot};
use crate::{Node, Ticked};
use wire::delivered::write_record;
use wire::reply::Reply;
use wire::settings::Settings;

// The counter after a tick.
pub fn next(now: u16) -> u16
    ensures { result ≡ rolled.next now }
{
    now.wrapping_add(1)
}

// The age of a stamp, also where the counter has rolled over since.
pub fn age(now: u16, stamp: u16) -> u16
    ensures { result ≡ rolled.age now stamp }
{
    now.wrapping_sub(stamp)
}

impl Message {
    // The payload and the zeros after it, eight bytes in all. Kept for its contract: it says that they are eight.
    fn all_bytes(self) -> [u8; Message::MAX_LEN]
        ensures { (result ≡ self.bytes) × (length result ≡ max_payload) }
    {
        self.bytes
    }
}

impl Slot {
    // Held by a receiver, unconfirmed in 2M, and older than the confirm delay.
    #[tactic(auto, unfolding(crate::specs::Tick::late))]
    pub fn late(self, age: u16) -> bool
        ensures { result ≡ late age self }
    {
        let s = self.settings;
        let m = self.message;
        age > s.dc
            && self.is_receiver() & m.held & (s.class == Settings::TWO_MESSAGE) & !m.confirmed
    }

    // Held by a receiver, confirmed in 2M or IMD, and older than the deliver delay.
    pub fn due(self, age: u16) -> bool
        ensures { result ≡ due age self }
    {
        let s = self.settings;
        let m = self.message;
        let settled = (s.class == Settings::IMD) | (s.class == Settings::TWO_MESSAGE) & m.confirmed;
        age > s.dd && self.is_receiver() & m.held & settled
    }

    // Held by a sender, and older than data reach and deliver delay.
    #[tactic(auto, unfolding(crate::specs::Tick::hold_over))]
    pub fn hold_over(self, age: u16) -> bool
        ensures { result ≡ hold_over age self }
    {
        let s = self.settings;
        u32::from(age) > u32::from(s.rd) + u32::from(s.dd) && self.is_sender() & self.message.held
    }

    // Whether the message is held and old enough that a tick may change the slot.
    #[tactic(auto, unfolding(crate::specs::Stirring::may_stir))]
    pub fn may_stir(self, age: u16) -> bool
        ensures { result ≡ may_stir age self }
    {
        // Kept with returns: by `&&` and `||` a tick costs twice the instructions for each slot.
        if !self.message.held {
            return false;
        }
        let s = self.settings;
        if age > s.dd {
            return true;
        }
        if s.class == Settings::TWO_MESSAGE {
            return age > s.dc;
        }
        false
    }

    // The message is gone, and an abort is pending.
    pub fn dropped(self) -> Slot
        ensures { result ≡ dropped self }
    {
        let mut gone = self.delivered();
        gone.pending.abort = true;
        gone
    }

    // The message is gone.
    pub fn delivered(mut self) -> Slot
        ensures { result ≡ delivered self }
    {
        self.message = Message::NONE;
        self
    }

    // A sender's message is held no longer.
    pub fn hold_ended(mut self) -> Slot
        ensures { result ≡ hold_ended self }
    {
        self.message.stamp = 0;
        self.message.held = false;
        self.message.confirmed = false;
        self
    }
}

impl Node {
    // A tick writes at most the longest record for each slot.
    pub const TICK_ROOM: usize = Node::SLOTS * Node::HEAR_ROOM;

    // Moves the counter by one; what is due is delivered, and what is late dropped.
    pub fn tick(&mut self, out: &mut [u8]) -> Result<Ticked, Reply>
        ensures exact { (result ≡ as_ticked (tick rolled out.old self.old))
            × (self.new ≡ (tick rolled out.old self.old).node)
            × (out.new ≡ over (tick rolled out.old self.old).bytes out.old) }
        ensures unbounded { (h : List Call) → self.old ≡ after rolled h
            → (result ≡ as_ticked (roll_outcome (tick unbounded out.old (after unbounded h))))
            × (self.new ≡ (roll_outcome (tick unbounded out.old (after unbounded h))).node)
            × (out.new ≡ over (tick unbounded out.old (after unbounded h)).bytes out.old) }
    {
        if out.len() < Node::TICK_ROOM {
            return Err(Reply::ShortOutput);
        }
        let now = next(self.counter);
        self.counter = now;
        // One pass: the slots before i have lapsed, and the records of those that were due stand before `written`.
        // Kept by the place: in a loop by `iter_mut` an invariant knows the slots alone, and the proof, which speaks of the node, did not close.
        let mut written = 0;
        let mut dropped = 0;
        let mut delivered = 0;
        for i in 0..Node::SLOTS {
            let slot = self.slots[i];
            let a = age(now, slot.message.stamp);
            if !slot.may_stir(a) {
                continue;
            }
            if slot.due(a) {
                self.slots[i] = slot.delivered();
                let bytes = slot.message.all_bytes();
                let n = slot.message.payload_length();
                written += write_record(&mut out[written..], slot.stream, &bytes[..n]);
                delivered += 1;
            } else if slot.late(a) {
                self.slots[i] = slot.dropped();
                dropped += 1;
            } else if slot.hold_over(a) {
                self.slots[i] = slot.hold_ended();
            }
        }
        Ok(Ticked {
            written,
            dropped,
            delivered,
        })
    }
}
