// The response-time sheet: how long the messages of each stream wait for the bus at worst, after
// equations (2) to (4) and (8) to (10) of Reliable Real-Time Communication in CAN Networks, in whole
// bit times with the bit as 1.
#![tactic(auto)]

mod claim;
pub mod lent;
mod load;
mod recurrence;
pub mod refusal;
mod sheet;
pub mod streams;
mod waiting;
