// Where each part of a node stands in its bytes.
ghost use Rattle.std.specs.Prelude.{◌≡◌, ◌&&◌, eqb, ltb};
ghost use Rattle.node.specs.Nodes.{slot_count};
ghost use Rattle.node_bytes.specs.Layout.{node_size};

use node::Node;

// From a slot's first byte on.
pub const STREAM: usize = 0;

pub const USED: usize = 4;

pub const HELD: usize = 5;

pub const STAMP: usize = 6;

pub const PAYLOAD_PENDING: usize = 8;

pub const CONFIRMATION_PENDING: usize = 9;

pub const ABORT_PENDING: usize = 10;

pub const CONFIRMED: usize = 11;

pub const LEN: usize = 12;

pub const ROLE: usize = 13;

pub const CLASS: usize = 14;

// Written as 0, and never read.
pub(crate) const UNREAD: usize = 15;

pub const DATA_REACH: usize = 16;

pub const CONFIRM_DELAY: usize = 18;

pub const ABORT_REACH: usize = 20;

pub const DELIVER_DELAY: usize = 22;

pub const PAYLOAD: usize = 24;

pub const SLOT_SIZE: usize = 32;

// From the node's first byte on.
pub const COUNTER: usize = SLOT_SIZE * Node::SLOTS;

pub const NODE_SIZE: usize = COUNTER + 2;

// Whether a buffer of this length is a node's.
pub fn is_node(length: usize) -> bool
    ensures { result ≡ eqb length node_size }
{
    length == NODE_SIZE
}

// Whether it has a slot i, too.
pub fn is_slot(length: usize, i: usize) -> bool
    ensures { result ≡ (eqb length node_size && ltb i slot_count) }
{
    (length == NODE_SIZE) & (i < Node::SLOTS)
}
