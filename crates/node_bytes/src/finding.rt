// Finding a slot of a node in its bytes: its index, where there is one. Kept as four: each is one line, and promises what it looks for.
ghost use Rattle.std.specs.Prelude.{◌≡◌, length, position};
ghost use Rattle.node.specs.Slots.{is_free, is_of};
ghost use Rattle.node.specs.NextFrame.{has_frame};
ghost use Rattle.node.proofs.set_up.Placing.{is_after};
ghost use Rattle.node_bytes.specs.Layout.{node_size};
ghost use Rattle.node_bytes.specs.Decoding.{decode};

use crate::slots::{after_at, frame_at, free_at, of_at};
use node::Node;
use wire::ids::Stream;

// The first slot in use for this stream.
pub(crate) fn find(bytes: &[u8], stream: Stream) -> Option<usize>
    requires { length bytes.now ≡ node_size }
    ensures { result ≡ position (is_of stream) (decode bytes.now).slots }
{
    (0..Node::SLOTS).find(|i| of_at(bytes, *i, stream))
}

// The first free slot.
pub(crate) fn find_free(bytes: &[u8]) -> Option<usize>
    requires { length bytes.now ≡ node_size }
    ensures { result ≡ position is_free (decode bytes.now).slots }
{
    (0..Node::SLOTS).find(|i| free_at(bytes, *i))
}

// The first slot before which a slot of this stream is to stand.
pub(crate) fn find_place(bytes: &[u8], stream: Stream) -> Option<usize>
    requires { length bytes.now ≡ node_size }
    ensures { result ≡ position (is_after stream) (decode bytes.now).slots }
{
    (0..Node::SLOTS).find(|i| after_at(bytes, *i, stream))
}

// The first slot with a frame pending.
pub(crate) fn find_frame(bytes: &[u8]) -> Option<usize>
    requires { length bytes.now ≡ node_size }
    ensures { result ≡ position has_frame (decode bytes.now).slots }
{
    (0..Node::SLOTS).find(|i| frame_at(bytes, *i))
}
