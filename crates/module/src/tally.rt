// The tally: a count for each reply number that the node's calls answer.
ghost use Rattle.std.specs.Prelude.{◌≡◌};
ghost use Rattle.module.specs.Tallies.{counted, place_in_tally, place_of, zero_tally, reply_in, tallied, has_count, counted_in};

use wire::reply::Reply;

#[derive(Clone, Copy)]
pub struct Tally {
    // In the order of `Tally::NUMBERS`.
    pub counts: [u32; Tally::SIZE],
}

impl Tally {
    // How many numbers are counted.
    pub const SIZE: usize = 17;

    // The numbers that are counted, in the tally's order. A const has no contract: `numbers` promises what it is, and `zero` what ZERO is.
    pub const NUMBERS: [u32; Tally::SIZE] = [
        0, 1, 2, 3, 4, 5, 6, 7, 8, 9, 10, 11, 12, 18, 19, 20, 21,
    ];

    pub const ZERO: Tally = Tally {
        counts: [0; Tally::SIZE],
    };

    // All numbers up to this one are counted, then so many are left out.
    pub const FIRST_END: u32 = 12;

    pub const LEFT_OUT: u32 = 5;

    pub fn numbers() -> [u32; Tally::SIZE]
        ensures { result ≡ counted }
    {
        Tally::NUMBERS
    }

    pub fn zero() -> Tally
        ensures { result ≡ zero_tally }
    {
        Tally::ZERO
    }

    // Where the count of a number stands, where it has one. Kept as a sum over the two runs of numbers: it is asked at each call, and a search
    // would read up to seventeen. It is a number and no Reply: C hands it over so (`kosmydore_count`).
    pub fn place_of(number: u32) -> Option<usize>
        ensures { result ≡ place_in_tally number }
    {
        if number <= Tally::FIRST_END {
            return Some(number as usize);
        }
        if number <= Tally::FIRST_END + Tally::LEFT_OUT {
            return None;
        }
        let i = (number - Tally::LEFT_OUT) as usize;
        if i < Tally::SIZE {
            return Some(i);
        }
        None
    }

    // Where the count of a reply stands: each has one.
    pub fn place(reply: Reply) -> usize
        ensures { result ≡ place_of reply }
    {
        Tally::place_of(reply.number()).unwrap()
    }

    // Counts one more reply; a count stays at the highest number once there.
    #[tactic(auto, using(crate::proofs::Places::has_place))]
    pub fn count(&mut self, reply: Reply)
        ensures { self.new ≡ tallied self.old reply }
    {
        let i = Tally::place(reply);
        self.counts[i] = self.counts[i].saturating_add(1);
    }

    // Counts the reply of a call that answers a Result.
    pub fn count_answer<T>(&mut self, answer: &Result<T, Reply>)
        ensures { self.new ≡ tallied self.old (reply_in answer.now) }
    {
        self.count(reply_of(answer));
    }
}

// The reply of a call that answers a Result: Done, where it does not refuse.
pub fn reply_of<T>(answer: &Result<T, Reply>) -> Reply
    ensures { result ≡ reply_in answer.now }
{
    match answer {
        Ok(_) => Reply::Done,
        Err(reply) => *reply,
    }
}

// A reply's number, counted in counts that their owner lends, in the order of `Tally::NUMBERS`; whether
// it has a count there. Counts of another length than a tally's are left as they are, and so are all
// counts where the number is none that is counted. Kept with a number and a bool: C has both so (`kosmydore_count`).
#[tactic(auto, using(std::proofs::lemmas::Bool::Decides::nat_tests), unfolding(crate::specs::Tallies::counted_in))]
pub fn count_in(counts: &mut [u32], number: u32) -> bool
    ensures answer { result ≡ has_count number counts.old }
    ensures counts { counts.new ≡ counted_in number counts.old }
{
    if counts.len() != Tally::SIZE {
        return false;
    }
    let Some(i) = Tally::place_of(number) else {
        return false;
    };
    counts[i] = counts[i].saturating_add(1);
    true
}
