// Heard records, of which a van's recording is made: reading one at a place of some bytes, and
// writing one into a lent output.
#![tactic(auto)]

pub mod kind;
pub mod reading;
pub mod record;
pub mod reply;
pub mod writing;
