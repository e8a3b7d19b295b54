// The records in an output, one after the other.
use crate::board;
use std::io::Stdout;
use wire::delivered::record_at;

#[tactic(auto, using(wire::proofs::Reading::answered_within))]
pub(crate) fn deliver(stdout: Stdout, out: &[u8], written: usize) {
    let mut at = 0;
    // Goes from record to record, and counts no index.
    while at < written {
        let Ok(record) = record_at(out, at) else {
            return;
        };
        board::delivered(stdout, &out[at..record.next]);
        at = record.next;
    }
}
