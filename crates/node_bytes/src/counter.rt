// The counter of a node in its bytes.
ghost use Rattle.std.specs.Prelude.{◌≡◌, true, length};
ghost use Rattle.std.proofs.lemmas.List.Edits.{sets};
ghost use Rattle.wire.specs.Delivered.{number_at, little_endian};
ghost use Rattle.node_bytes.specs.Layout.{counter_at, node_size};
ghost use Rattle.node_bytes.specs.Decoding.{decode};
ghost use Rattle.node_bytes.specs.Lent.{is_node, read_counter, store_counter, with_counter};

use crate::layout;
use crate::layout::is_node;
use crate::numbers::{put_two, two_at};

// The counter, or 0 where the buffer has another length than a node's. Kept without a refusal: it promises so (specs/Lent.antt).
pub fn read_counter(bytes: &[u8]) -> u16
    ensures { result ≡ read_counter bytes.now }
{
    if is_node(bytes.len()) {
        return counter_of(bytes);
    }
    0
}

// Sets the counter, and nothing where the buffer has another length than a node's.
pub fn store_counter(bytes: &mut [u8], counter: u16)
    ensures bytes { bytes.new ≡ store_counter counter bytes.old }
    ensures decoded { is_node bytes.old ≡ true
        → decode bytes.new ≡ with_counter counter (decode bytes.old) }
{
    if is_node(bytes.len()) {
        put_counter(bytes, counter);
    }
}

pub(crate) fn counter_of(bytes: &[u8]) -> u16
    requires { length bytes.now ≡ node_size }
    ensures { result ≡ number_at 2 bytes.now counter_at }
{
    two_at(bytes, layout::COUNTER)
}

pub(crate) fn put_counter(bytes: &mut [u8], counter: u16)
    requires { length bytes.old ≡ node_size }
    ensures { (bytes.new ≡ sets bytes.old counter_at (little_endian 2 counter))
        × (decode bytes.new ≡ with_counter counter (decode bytes.old)) }
{
    put_two(bytes, layout::COUNTER, counter);
}
