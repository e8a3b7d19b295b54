// The recurrence, on numbers alone: the least solution of
//
//     w = blocking + Σ ⌈(w + lead) / period⌉ × cost    over the claims on the bus.
//
// It goes up from a number that no solution lies below. The right side at such a number is another,
// since it never falls as w grows; a second bound, `reach`, makes the steps long.
ghost use Rattle.std.specs.Prelude.{◌≡◌, ◌≤◌, length};
ghost use Rattle.response.specs.Streams.{most};
ghost use Rattle.response.specs.Waiting.{least_from};
ghost use Rattle.response.specs.Recurrence.{asked, solves_with, NoneBelow};

use crate::claim::{Claim, WHOLE};
use crate::streams::MOST_STREAMS;

// A list has at most 64 streams, and the errors are one claim more.
pub(crate) const MOST_CLAIMS: usize = MOST_STREAMS + 1;

// What the claims take while a message waits for w.
#[tactic(auto, unfolding(crate::specs::Recurrence::asked))]
fn asked(claims: &[Claim], w: u64) -> u64
    requires { (length claims.now ≤ MOST_CLAIMS) × (w ≤ most) }
    ensures { result ≡ asked claims.now w }
{
    claims.iter().map(|claim| claim.claimed(w)).sum()
}

// A number that no solution from w on lies below, whatever `ahead` is; room, where there is none.
fn reach(claims: &[Claim], blocking: u64, w: u64, ahead: u64, room: u64) -> u64
    requires { (length claims.now ≤ MOST_CLAIMS) × (w ≤ most) × (blocking ≤ most) × (ahead ≤ 2000000000000000) × (room ≤ most) }
    ensures { NoneBelow claims.now blocking w result }
{
    let mut fixed = blocking;
    let mut share = 0;
    for claim in claims {
        let part = claim.part(w, ahead);
        fixed += part.fixed;
        share += part.share;
    }
    if room <= fixed {
        return fixed;
    }
    if WHOLE <= share {
        return room;
    }
    (WHOLE * fixed + share) / (WHOLE - share)
}

// No claim is left out of what comes again before this.
const ALL: u64 = 4000000;

// How many steps of the length at hand `reach` looks ahead. Any number is right; this one makes the
// slowest lists that were found the least slow.
const STEPS: u64 = 8;

// The least solution below room; room, where there is none.
#[tactic(auto, using(crate::proofs::Claims::asked_most, crate::proofs::Rounds::goes_on, crate::proofs::Rounds::ends_at, crate::proofs::Rounds::ends_past))]
pub(crate) fn least_solution(claims: &[Claim], blocking: u64, room: u64) -> u64
    requires { (length claims.now ≤ MOST_CLAIMS) × (blocking ≤ most) × (room ≤ most) }
    ensures { result ≡ least_from 0 room (solves_with claims.now blocking) }
{
    let mut w = reach(claims, blocking, 0, ALL, room);
    // Goes up to the solution, and counts nothing.
    while w < room {
        let next = blocking + asked(claims, w);
        if next <= w {
            return w;
        }
        let ahead = w + STEPS * (next - w);
        let far = reach(claims, blocking, w, ahead, room);
        w = next.max(far);
    }
    room
}
