// The sheet of the streams of a list within the limits.
ghost use Rattle.std.specs.Prelude.{◌≡◌, ◌*◌, ◌<◌, ◌≤◌, length, take, IfOk, IfErr};
ghost use Rattle.response.specs.Sheet.{first_late, times};

use crate::load::Load;
use crate::refusal::Refusal;
use crate::streams::MOST_STREAMS;
use crate::waiting::{timely, waiting};

// Two numbers for each stream.
const NUMBERS: usize = 2 * MOST_STREAMS;

// Waiting time and response time of each stream, unless one can be late.
#[tactic(auto, using(crate::proofs::Solving::late_here))]
pub(crate) fn times(load: Load) -> Result<[u32; NUMBERS], Refusal>
    ensures ok { let streams = load.entry.streams.now in
        IfOk result (λ numbers. (length streams ≤ first_late streams streams load.entry.errors)
        × (take (2 * length streams) numbers ≡ times streams streams load.entry.errors)) }
    ensures late { let streams = load.entry.streams.now in
        IfErr result (λ refusal. (first_late streams streams load.entry.errors < length streams)
        × (refusal ≡ Refusal.Late (first_late streams streams load.entry.errors))) }
{
    // Kept beside the output: no heap, and a refusal writes nothing.
    let mut times = [0; NUMBERS];
    for (i, s) in load.streams.iter().enumerate() {
        let waiting = waiting(load, *s);
        if timely(*s) <= waiting {
            return Err(Refusal::Late(i));
        }
        times[2 * i] = waiting as u32;
        times[2 * i + 1] = waiting as u32 + s.c;
    }
    Ok(times)
}
