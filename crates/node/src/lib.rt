// The node: one module's protocol state, and the five calls on it. Each call changes the node where it
// stands, and answers its values, or the reply that refuses it.
#![tactic(auto)]

ghost use Rattle.std.specs.Prelude.{◌≡◌, position};
ghost use Rattle.node.specs.Slots.{is_free, is_of};
ghost use Rattle.node.specs.Nodes.{fresh};
ghost use Rattle.node.specs.NextFrame.{has_frame};

use crate::slots::Slot;
use crate::told::Told;
use wire::ids::{BusId, Stream};

pub mod hear;
pub mod next_frame;
pub mod request;
pub mod set_up;
pub mod slots;
pub mod tick;
pub mod told;

// Fields in their order, as C has them.
#[repr(C)]
#[derive(Clone, Copy, Debug, Eq, PartialEq)]
pub struct Node {
    pub slots: [Slot; Node::SLOTS],
    pub counter: u16,
}

impl Node {
    // So many streams can be set up.
    pub const SLOTS: usize = 32;

    // Before any call: no stream is set up, and the counter is 0. A const has no contract: `fresh` promises what it is.
    pub const FRESH: Node = Node {
        slots: [Slot::EMPTY; Node::SLOTS],
        counter: 0,
    };

    pub fn fresh() -> Node
        ensures { result ≡ fresh }
    {
        Node::FRESH
    }

    // Where the stream's slot stands.
    fn place_of(&self, stream: Stream) -> Option<usize>
        ensures { result ≡ position (is_of stream) self.now.slots }
    {
        self.slots.iter().position(|s| s.is_of(stream))
    }

    // Where the first free slot stands.
    fn free_place(&self) -> Option<usize>
        ensures { result ≡ position is_free self.now.slots }
    {
        self.slots.iter().position(|s| s.is_free())
    }

    // Where the first slot stands that has a frame pending.
    fn place_of_frame(&self) -> Option<usize>
        ensures { result ≡ position has_frame self.now.slots }
    {
        self.slots.iter().position(|s| s.has_frame())
    }
}

// What hear answers: how many bytes of the output were written, and what the frame did.
#[derive(Clone, Copy, Debug, Eq, PartialEq)]
pub struct Heard {
    pub written: usize,
    pub told: Told,
}

// What tick answers: how many bytes of the output were written, and how many messages were dropped and delivered.
#[derive(Clone, Copy, Debug, Eq, PartialEq)]
pub struct Ticked {
    pub written: usize,
    pub dropped: u32,
    pub delivered: u32,
}

// What next frame answers: the frame's identifier, and the length of its payload.
#[derive(Clone, Copy, Debug, Eq, PartialEq)]
pub struct Given {
    pub id: BusId,
    pub len: usize,
}
