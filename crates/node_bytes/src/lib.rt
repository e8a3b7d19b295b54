// A node in bytes that its owner lends: 32 slots of 32 bytes, and then the counter, 1,026 bytes in
// all. Numbers have their lowest byte first. A flag is written as 1 or 0, and read as true unless it
// is 0, so that every content is a node. A slot, from its first byte on:
//
//     0   stream                4 bytes
//     4   used                  flag
//     5   held                  flag
//     6   stamp                 2 bytes
//     8   payload pending       flag
//     9   confirmation pending  flag
//    10   abort pending         flag
//    11   confirmed             flag
//    12   length of the message 1 byte
//    13   role                  1 byte
//    14   class                 1 byte
//    15   nothing               1 byte, written as 0 and never read
//    16   data reach            2 bytes
//    18   confirm delay         2 bytes
//    20   abort reach           2 bytes
//    22   deliver delay         2 bytes
//    24   the message           8 bytes
//
// Slot i starts at 32 times i, and the counter, 2 bytes, at 1,024. A new field of a slot takes its
// place here, in `layout`, `slots` and `specs/Layout.antt`, `Decoding.antt`, `Encoding.antt`.
//
// Each public function answers for every buffer and every index. The others ask for a buffer of the
// node's length and a slot that is there: calls test that once, and then use them.
//
// A call answers, and leaves, what the node's own call does to the node that the bytes are. It
// decodes the one slot that it is about, takes the step that `node` has for it, and stores what the
// step may change of it.
#![tactic(auto)]

pub mod counter;
mod finding;
pub mod fresh;
pub mod hear;
pub mod layout;
pub mod next_frame;
mod numbers;
pub mod request;
pub mod set_up;
pub mod slots;
pub mod tick;
