// The five calls of a module: each is the node's call, with its reply counted in the tally. Kept as five: each has its own answer's type
// and its own contract.
ghost use Rattle.std.specs.Prelude.{◌≡◌};
ghost use Rattle.wire.specs.Delivered.{over};
ghost use Rattle.node.specs.Nodes.{as_answered, as_heard, as_ticked, as_given};
ghost use Rattle.node.specs.Clock.{rolled};
ghost use Rattle.node.specs.Calls.{Call, outcome};
ghost use Rattle.module.specs.Histories.{after_call};

use crate::Module;
use node::{Given, Heard, Ticked};
use wire::ids::{BusId, Stream};
use wire::reply::Reply;
use wire::settings::Settings;

impl Module {
    // Gives a stream a slot, with its settings.
    #[tactic(auto, using(crate::proofs::Replies::reply_so))]
    pub fn set_up(&mut self, stream: Stream, settings: Settings) -> Result<(), Reply>
        ensures { (result ≡ as_answered (outcome rolled (Call.set_up stream settings) self.old.node))
            × (self.new ≡ after_call (Call.set_up stream settings) self.old) }
    {
        let answer = self.node.set_up(stream, settings);
        self.tally.count_answer(&answer);
        answer
    }

    // Takes in a frame that the controller received.
    #[tactic(auto, using(crate::proofs::Replies::reply_so))]
    pub fn hear(
        &mut self,
        id: BusId,
        dlc: u8,
        payload: &[u8],
        out: &mut [u8],
    ) -> Result<Heard, Reply>
        ensures { (result ≡ as_heard (outcome rolled (Call.hear id dlc payload.now out.old) self.old.node))
            × (out.new ≡ over (outcome rolled (Call.hear id dlc payload.now out.old) self.old.node).bytes out.old)
            × (self.new ≡ after_call (Call.hear id dlc payload.now out.old) self.old) }
    {
        let answer = self.node.hear(id, dlc, payload, out);
        self.tally.count_answer(&answer);
        answer
    }

    // Moves the counter by one; what is due is delivered, and what is late dropped.
    #[tactic(auto, using(crate::proofs::Replies::reply_so))]
    pub fn tick(&mut self, out: &mut [u8]) -> Result<Ticked, Reply>
        ensures { (result ≡ as_ticked (outcome rolled (Call.tick out.old) self.old.node))
            × (out.new ≡ over (outcome rolled (Call.tick out.old) self.old.node).bytes out.old)
            × (self.new ≡ after_call (Call.tick out.old) self.old) }
    {
        let answer = self.node.tick(out);
        self.tally.count_answer(&answer);
        answer
    }

    // Takes a message to send on one of the node's own streams.
    #[tactic(auto, using(crate::proofs::Replies::reply_so))]
    pub fn request(&mut self, stream: Stream, payload: &[u8]) -> Result<(), Reply>
        ensures { (result ≡ as_answered (outcome rolled (Call.request stream payload.now) self.old.node))
            × (self.new ≡ after_call (Call.request stream payload.now) self.old) }
    {
        let answer = self.node.request(stream, payload);
        self.tally.count_answer(&answer);
        answer
    }

    // Gives out the pending frame with the lowest bus identifier; it is pending no longer.
    #[tactic(auto, using(crate::proofs::Replies::reply_so))]
    pub fn next_frame(&mut self, out: &mut [u8]) -> Result<Given, Reply>
        ensures { (result ≡ as_given (outcome rolled (Call.next_frame out.old) self.old.node))
            × (out.new ≡ over (outcome rolled (Call.next_frame out.old) self.old.node).bytes out.old)
            × (self.new ≡ after_call (Call.next_frame out.old) self.old) }
    {
        let answer = self.node.next_frame(out);
        self.tally.count_answer(&answer);
        answer
    }
}
