// The stream records of a list and the errors that the bus is to bear, with their limits.
ghost use Rattle.std.specs.Prelude.{◌≡◌};
ghost use Rattle.response.specs.Streams.{in_range, legal_record, legal_errors, unused, legal_records, legal};

#[derive(Clone, Copy, Debug, PartialEq, Eq)]
pub struct StreamRecord {
    // The lower number goes first on the bus.
    pub priority: u32,
    // The longest message, in bits.
    pub c: u32,
    // The shortest time between two requests.
    pub t: u32,
    // The deadline, counted from the request to the end of the message.
    pub d: u32,
}

// Up to n errors in each period, each of which keeps the bus from everybody for a time.
#[derive(Clone, Copy, Debug, PartialEq, Eq)]
pub struct Errors {
    pub n: u32,
    pub period: u32,
    pub inaccessibility: u32,
}

impl StreamRecord {
    // Every number of a record, and the period of the errors, is from 1 to this.
    pub const MAX: u32 = 1000000;

    #[tactic(auto, unfolding(crate::specs::Streams::legal_record))]
    pub fn legal(self) -> bool
        ensures { result ≡ legal_record self }
    {
        in_range(self.priority) && in_range(self.c) && in_range(self.t) && in_range(self.d)
    }
}

impl Errors {
    pub const MAX_N: u32 = 16;

    pub const MAX_INACCESSIBILITY: u32 = 10000;

    #[tactic(auto, unfolding(crate::specs::Streams::legal_errors))]
    pub fn legal(self) -> bool
        ensures { result ≡ legal_errors self }
    {
        self.n <= Errors::MAX_N
            && in_range(self.period)
            && self.inaccessibility <= Errors::MAX_INACCESSIBILITY
    }
}

fn in_range(n: u32) -> bool
    ensures { result ≡ in_range n }
{
    (1..=StreamRecord::MAX).contains(&n)
}

// Whether no record of the list has this priority.
#[tactic(auto, unfolding(crate::specs::Streams::unused))]
fn unused(priority: u32, streams: &[StreamRecord]) -> bool
    ensures { result ≡ unused priority streams.now }
{
    streams.iter().all(|s| priority != s.priority)
}

// Whether every record is within the limits, with all priorities different.
#[tactic(auto, using(crate::proofs::Listed::legal_records_from, crate::proofs::Listed::legal_records_past))]
fn legal_records(streams: &[StreamRecord]) -> bool
    ensures { result ≡ legal_records streams.now }
{
    for (k, s) in streams.iter().enumerate() {
        if !(s.legal() && unused(s.priority, &streams[k + 1..])) {
            return false;
        }
    }
    true
}

// A list has at most so many streams.
pub(crate) const MOST_STREAMS: usize = 64;

// Whether a list and the errors are within the limits.
#[tactic(auto, unfolding(crate::specs::Streams::legal))]
pub(crate) fn legal(streams: &[StreamRecord], errors: Errors) -> bool
    ensures { result ≡ legal streams.now errors }
{
    streams.len() <= MOST_STREAMS && errors.legal() && legal_records(streams)
}
