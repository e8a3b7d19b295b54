// A module: its node, in bytes, and whether it is live. What it answers to an event.
ghost use Rattle.std.specs.Prelude.{◌≡◌};
ghost use Rattle.wire.specs.Answers.{answered};
ghost use Rattle.node.specs.Nodes.{as_answered};
ghost use Rattle.node.specs.Calls.{set_up, request};
ghost use Rattle.bench_in_code.specs.InCode.{tick_turn, hear_turn, given_by, next as next_call};
ghost use Rattle.bench_in_code.specs.InBytes.{station_in, fresh_module, outcome_in, left_by, hearing_of, ticking_of};

use crate::outbox::Frame;
use node::{Heard, Node, Ticked};
use node_bytes::layout::NODE_SIZE;
use node_bytes::next_frame::next_frame;
use wire::ids::Stream;
use wire::reply::Reply;
use wire::settings::Settings;

pub type NodeBytes = [u8; NODE_SIZE];

// What a module writes, behind it zeros: room for what any call writes.
pub type Output = [u8; Node::TICK_ROOM];

pub const CLEAR: Output = [0; Node::TICK_ROOM];

// What a module answered to a frame, and what to a tick; None where that did not reach it.
pub type Hearing = Option<Result<Heard, Reply>>;

pub type Ticking = Option<Result<Ticked, Reply>>;

#[derive(Clone, Copy)]
pub struct Module {
    pub node: NodeBytes,
    pub live: bool,
}

impl Module {
    // Before any call.
    pub fn fresh(live: bool) -> Module
        ensures { result ≡ fresh_module live }
    {
        Module {
            node: [0; NODE_SIZE],
            live,
        }
    }

    // A stream is set up at its node.
    pub(crate) fn set_up(&mut self, stream: Stream, settings: Settings) -> Result<(), Reply>
        ensures answer { result ≡ as_answered (outcome_in (set_up stream settings) self.old) }
        ensures leaves { station_in self.new ≡ left_by (set_up stream settings) self.old }
    {
        node_bytes::set_up::set_up(&mut self.node, stream, settings)
    }

    // Its node is asked for a message to be sent.
    pub(crate) fn request(&mut self, stream: Stream, payload: &[u8]) -> Result<(), Reply>
        ensures answer { result ≡ as_answered (outcome_in (request stream payload.now) self.old) }
        ensures leaves { station_in self.new ≡ left_by (request stream payload.now) self.old }
    {
        node_bytes::request::request(&mut self.node, stream, payload)
    }

    // A sending of the frame reaches the module if it is live and named and does not own the frame.
    pub(crate) fn hear(&mut self, named: bool, own: bool, frame: Frame, out: &mut Output) -> Hearing
        ensures answer { result ≡ hearing_of (hear_turn named own frame (station_in self.old)).said }
        ensures output { out.new ≡ (hear_turn named own frame (station_in self.old)).said.bytes }
        ensures leaves { station_in self.new ≡ (hear_turn named own frame (station_in self.old)).after }
    {
        *out = CLEAR;
        if !(self.live & named & !own) {
            return None;
        }
        let payload = frame.payload();
        let n = payload.len() as u8;
        Some(node_bytes::hear::hear(&mut self.node, frame.id, n, payload, out))
    }

    pub(crate) fn tick(&mut self, out: &mut Output) -> Ticking
        ensures answer { result ≡ ticking_of (tick_turn (station_in self.old)).said }
        ensures output { out.new ≡ (tick_turn (station_in self.old)).said.bytes }
        ensures leaves { station_in self.new ≡ (tick_turn (station_in self.old)).after }
    {
        *out = CLEAR;
        if !self.live {
            return None;
        }
        Some(node_bytes::tick::tick(&mut self.node, out))
    }

    // Its next frame, of this owner, is given out.
    pub(crate) fn give(&mut self, owner: usize) -> Result<Frame, Reply>
        ensures answer { result ≡ answered (outcome_in next_call self.old).reply (given_by owner (outcome_in next_call self.old)) }
        ensures leaves { station_in self.new ≡ left_by next_call self.old }
    {
        let mut bytes = [0; Frame::ROOM];
        let given = next_frame(&mut self.node, &mut bytes)?;
        Ok(Frame {
            owner,
            id: given.id,
            len: given.len,
            bytes,
        })
    }
}
