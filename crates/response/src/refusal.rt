// Why a list of streams is refused.
ghost use Rattle.std.specs.Prelude.{◌≡◌};
ghost use Rattle.response.specs.Verdicts.{number_of, position_of, refused, verdict_of};

use std::error::Error;
use std::fmt;

#[derive(Clone, Copy, Debug, PartialEq, Eq)]
pub enum Refusal {
    ShortOutput,
    BadStream,
    // The first stream that can be late, by its position from 0.
    Late(usize),
}

impl Refusal {
    // The rules paper's number of the reply; that of no refusal is 0.
    pub fn number(self) -> u32
        ensures { result ≡ number_of (refused self) }
    {
        match self {
            Refusal::ShortOutput => 11,
            Refusal::BadStream => 13,
            Refusal::Late(_) => 14,
        }
    }

    // The value that is returned with it; with no refusal it is 0. Kept as a number, 0 where there is none: the rules paper returns one
    // with every reply.
    pub fn position(self) -> usize
        ensures { result ≡ position_of (refused self) }
    {
        match self {
            Refusal::ShortOutput | Refusal::BadStream => 0,
            Refusal::Late(at) => at,
        }
    }
}

// The rules paper's number of the reply to a list: the refusal's, or that of done.
pub fn number_of(answer: &Result<(), Refusal>) -> u32
    ensures { result ≡ number_of (verdict_of answer.now) }
{
    match answer {
        Ok(()) => 0,
        Err(refusal) => refusal.number(),
    }
}

// The value that is returned with it.
pub fn position_of(answer: &Result<(), Refusal>) -> usize
    ensures { result ≡ position_of (verdict_of answer.now) }
{
    let Err(refusal) = answer else {
        return 0;
    };
    refusal.position()
}

impl fmt::Display for Refusal {
    ghost use Rattle.std.specs.Prelude.{Some};
    ghost use Rattle.response.specs.Verdicts.{words_of};

    ghost output = { λ refusal. Some (words_of refusal) };

    fn fmt<W: fmt::Write>(&self, f: &mut fmt::Formatter<W>) -> fmt::Result {
        match self {
            Refusal::ShortOutput => write!(f, "the output is too short"),
            Refusal::BadStream => write!(
                f,
                "a number is out of range, a priority stands twice, or there are too many streams"
            ),
            Refusal::Late(at) => write!(f, "stream {at} can be late"),
        }
    }
}

impl Error for Refusal {}
