// What stands on the bus and in lent buffers: identifiers, codes and classes, the frame test, the
// settings of a stream, the delivered record, and the numbered replies.
#![tactic(auto)]

pub mod class;
pub mod copying;
pub mod delivered;
pub mod frame;
pub mod ids;
pub mod reply;
pub mod settings;
