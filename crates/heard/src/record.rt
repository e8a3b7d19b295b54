// A heard record: when a frame was heard, and the frame.
use crate::kind::Kind;
use wire::ids::BusId;

// What stands before the payload.
#[derive(Clone, Copy, Debug, PartialEq, Eq)]
pub struct Heard {
    pub kind: Kind,
    pub count: u32,
    pub id: BusId,
    pub dlc: u8,
}

impl Heard {
    // Kind, bus identifier and DLC, which the length counts beside the count and the payload.
    pub const FIXED_LENGTH: usize = 7;
}
