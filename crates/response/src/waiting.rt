// The waiting time of one stream among those of a list.
ghost use Rattle.std.specs.Prelude.{◌≡◌, ◌+◌, ◌*◌, ◌≤◌, length, take};
ghost use Rattle.response.specs.Streams.{LegalRecord, LegalErrors};
ghost use Rattle.response.specs.Waiting.{blocking, timely, waiting};
ghost use Rattle.response.specs.Recurrence.{cost_before, ClaimsOf};

use crate::claim::Claim;
use crate::load::Load;
use crate::recurrence::{MOST_CLAIMS, least_solution};
use crate::streams::{Errors, StreamRecord};

// The longest message of the streams that s goes before.
#[tactic(auto, using(crate::proofs::Listed::blocking_from, crate::proofs::Listed::blocking_past))]
fn blocking(streams: &[StreamRecord], s: StreamRecord) -> u64
    ensures { result ≡ blocking streams.now s }
{
    // By a loop: written as `filter`, `map` and `max`, the proof does not follow the greatest.
    let mut longest = 0;
    for j in streams {
        if s.priority < j.priority {
            longest = longest.max(j.c);
        }
    }
    u64::from(longest)
}

// How many waiting times keep the deadline of s.
pub(crate) fn timely(s: StreamRecord) -> u64
    ensures { result ≡ timely s }
{
    (u64::from(s.d) + 1).saturating_sub(u64::from(s.c))
}

// What stream j claims of the bus before s: nothing where it does not go before it.
#[tactic(auto, using(crate::proofs::Gathering::stream_claim))]
fn claim_of(j: StreamRecord, s: StreamRecord) -> Claim
    requires { LegalRecord j }
    ensures { (result.cost ≡ cost_before s j) × (result.period ≡ j.t) × (result.lead ≡ 1) }
{
    Claim {
        cost: if j.priority < s.priority {
            u64::from(j.c)
        } else {
            0
        },
        period: u64::from(j.t),
        lead: 1,
    }
}

// What the errors claim of it.
#[tactic(auto, using(crate::proofs::Gathering::errors_most))]
fn claim_of_errors(errors: Errors, s: StreamRecord) -> Claim
    requires { LegalErrors errors × LegalRecord s }
    ensures { (result.cost ≡ errors.n * errors.inaccessibility) × (result.period ≡ errors.period) × (result.lead ≡ s.c) }
{
    Claim {
        cost: u64::from(errors.n) * u64::from(errors.inaccessibility),
        period: u64::from(errors.period),
        lead: u64::from(s.c),
    }
}

// What claims the bus before s: claim k is that of stream k, and the last one is that of the errors. An array of the most that there
// can be: no heap.
#[tactic(auto, using(crate::proofs::Gathering::all_gathered))]
fn claims_of(load: Load, s: StreamRecord) -> [Claim; MOST_CLAIMS]
    requires { LegalRecord s }
    ensures { ClaimsOf load.entry.streams.now load.entry.errors s (take (length load.entry.streams.now + 1) result) }
{
    let mut claims = [Claim::NONE; MOST_CLAIMS];
    for (k, j) in load.streams.iter().enumerate() {
        claims[k] = claim_of(*j, s);
    }
    claims[load.streams.len()] = claim_of_errors(load.errors, s);
    claims
}

// The least waiting time that satisfies the equation and keeps the deadline of s; where there is
// none, how many waiting times keep it.
#[tactic(auto, using(crate::proofs::Gathering::same_equation), unfolding(crate::specs::Waiting::waiting))]
pub(crate) fn waiting(load: Load, s: StreamRecord) -> u64
    requires { LegalRecord s }
    ensures { result ≡ waiting load.entry.streams.now load.entry.errors s }
{
    let claims = claims_of(load, s);
    least_solution(
        &claims[..=load.streams.len()],
        blocking(load.streams, s),
        timely(s),
    )
}
