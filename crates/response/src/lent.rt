// The sheet of a lent list of stream records.
ghost use Rattle.std.specs.Prelude.{take};
ghost use Rattle.response.specs.Sheet.{Answers};

use crate::load::Load;
use crate::refusal::Refusal;
use crate::sheet::times;
use crate::streams::{Errors, StreamRecord, legal};

// The sheet of a list of streams: for each, in list order, its least waiting time and its response
// time. A list that is refused writes nothing.
#[tactic(auto, using(crate::proofs::Limits::legal_says), unfolding(crate::specs::Sheet::verdict, crate::specs::Sheet::written))]
pub fn solve(streams: &[StreamRecord], errors: Errors, out: &mut [u32]) -> Result<(), Refusal>
    ensures { Answers streams.now errors out.old result out.new }
{
    if !legal(streams, errors) {
        return Err(Refusal::BadStream);
    }
    let numbers = 2 * streams.len();
    if out.len() < numbers {
        return Err(Refusal::ShortOutput);
    }
    let times = times(Load { streams, errors })?;
    out[..numbers].copy_from_slice(&times[..numbers]);
    Ok(())
}

// The same of the first len records of an array. There is one place more than a list may have
// streams, so that too long a list can be said. Kept beside `solve`: docs/SHEET.md names it, and
// proofs/Unique.antt says of it that there is one answer.
pub fn solve_array(
    streams: [StreamRecord; 65],
    len: usize,
    errors: Errors,
    out: &mut [u32],
) -> Result<(), Refusal>
    ensures { Answers (take len streams) errors out.old result out.new }
{
    solve(&streams[..len.min(65)], errors, out)
}
