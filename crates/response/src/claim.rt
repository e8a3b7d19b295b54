// One claim on the bus.
ghost use Rattle.std.specs.Prelude.{◌≡◌, ◌+◌, ◌≤◌};
ghost use Rattle.response.specs.Streams.{most};
ghost use Rattle.response.specs.Waiting.{ceiling};
ghost use Rattle.response.specs.Claims.{claimed, InRange, ClaimedFrom};

// Shares of the bus are counted in parts of this.
pub(crate) const WHOLE: u64 = 4294967296;

// What is asked from some waiting time on: so much whatever comes, and a share of the bus as long as
// the waiting goes on.
#[derive(Clone, Copy)]
pub(crate) struct Part {
    pub fixed: u64,
    pub share: u64,
}

// A claim takes the bus for its cost, once for each of its periods that begins before the lead has
// passed after the waiting time.
#[derive(Clone, Copy)]
pub(crate) struct Claim {
    pub cost: u64,
    pub period: u64,
    pub lead: u64,
    ghost in_range: { InRange cost period lead },
}

impl Claim {
    // One that takes nothing.
    pub const NONE: Claim = Claim {
        cost: 0,
        period: 1,
        lead: 1,
    };

    // How often it is made while a message waits for w.
    fn times(self, w: u64) -> u64
        requires { w ≤ most }
        ensures { result ≡ ceiling (w + self.lead) self.period }
    {
        // Not by `div_ceil`, which tests the remainder too: the slowest lists (docs/COST.md) then
        // take 3 to 7 of 100 instructions more.
        (w + self.lead + (self.period - 1)) / self.period
    }

    // What it takes while a message waits for w.
    pub(crate) fn claimed(self, w: u64) -> u64
        requires { w ≤ most }
        ensures { result ≡ claimed self.cost self.period self.lead w }
    {
        self.times(w) * self.cost
    }

    // A lower bound of what it takes from w on. Where it comes again before `ahead`, it is better
    // counted as a share of the bus.
    #[tactic(auto, using(crate::proofs::Claims::claimed_already))]
    pub(crate) fn part(self, w: u64, ahead: u64) -> Part
        requires { (w ≤ most) × (ahead ≤ 2000000000000000) }
        ensures { ClaimedFrom self.cost self.period self.lead w result.fixed result.share }
    {
        let times = self.times(w);
        if ahead + self.lead <= times * self.period {
            return Part {
                fixed: times * self.cost,
                share: 0,
            };
        }
        Part {
            fixed: 0,
            share: WHOLE * self.cost / self.period,
        }
    }
}
