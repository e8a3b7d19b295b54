// A request to send.
ghost use Rattle.std.specs.Prelude.{◌≡◌, List, take, if◌then◌else◌};
ghost use Rattle.wire.specs.Frames.{max_payload};
ghost use Rattle.wire.specs.Answers.{answered};
ghost use Rattle.wire.specs.Refusals.{reply_of};
ghost use Rattle.node.specs.Slots.{holding, keeping};
ghost use Rattle.node.specs.Nodes.{as_answered};
ghost use Rattle.node.specs.Request.{busy, requested, slot_request_refusals, request};
ghost use Rattle.node.specs.Clock.{rolled, unbounded};
ghost use Rattle.node.specs.Calls.{Call, after, roll_outcome};

use crate::Node;
use crate::slots::{Message, Pending, Slot};
use wire::ids::Stream;
use wire::reply::Reply;
use wire::settings::Settings;

impl Slot {
    // Whether the slot is held or has a frame pending.
    pub fn is_busy(self) -> bool
        ensures { result ≡ busy self }
    {
        self.message.held | self.pending.any()
    }

    // Refuses a request of a good length on the slot's stream where it may not be taken.
    pub fn check_request(self) -> Result<(), Reply>
        ensures { result ≡ answered (reply_of (slot_request_refusals self)) tt }
    {
        if !self.is_sender() {
            return Err(Reply::NotSender);
        }
        if self.is_busy() {
            return Err(Reply::Busy);
        }
        Ok(())
    }

    // The slot once its stream is to send this payload, of which it takes the first eight bytes.
    #[tactic(auto, unfolding(crate::specs::Request::requested))]
    pub fn requested(mut self, counter: u16, payload: &[u8]) -> Slot
        ensures { result ≡ requested counter (take max_payload payload.now) self }
    {
        let class = self.settings.class;
        self.message = message_for(class == Settings::PLAIN, counter, payload);
        self.pending = Pending::to_send(class == Settings::TWO_MESSAGE);
        self
    }
}

// The message of a request: a plain one is not held.
fn message_for(plain: bool, counter: u16, payload: &[u8]) -> Message
    ensures { result ≡ (if plain then keeping (take max_payload payload.now) else holding counter (take max_payload payload.now)) }
{
    if plain {
        Message::keeping(payload)
    } else {
        Message::holding(counter, payload)
    }
}

impl Node {
    // Takes a message to send on one of the node's own streams.
    pub fn request(&mut self, stream: Stream, payload: &[u8]) -> Result<(), Reply>
        ensures exact { (result ≡ as_answered (request stream payload.now self.old))
            × (self.new ≡ (request stream payload.now self.old).node) }
        ensures unbounded { (h : List Call) → self.old ≡ after rolled h
            → (result ≡ as_answered (roll_outcome (request stream payload.now (after unbounded h))))
            × (self.new ≡ (roll_outcome (request stream payload.now (after unbounded h))).node) }
    {
        if payload.len() > Message::MAX_LEN {
            return Err(Reply::BadLength);
        }
        let i = self.place_of(stream).ok_or(Reply::NotSender)?;
        let slot = self.slots[i];
        slot.check_request()?;
        self.slots[i] = slot.requested(self.counter, payload);
        Ok(())
    }
}
