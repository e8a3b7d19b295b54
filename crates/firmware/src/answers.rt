// Answers as C gets them: the reply as its number, and 0 for every value of a refused call.
ghost use Rattle.std.specs.Prelude.{◌≡◌};
ghost use Rattle.wire.specs.Replies.{number_of};
ghost use Rattle.module.specs.Tallies.{reply_in, counted_in};

use module::tally::{count_in, reply_of};
use node::told::Told;
use node::{Given, Heard, Ticked};
use wire::ids::BusId;
use wire::reply::Reply;

pub(crate) const NOTHING_HEARD: Heard = Heard {
    written: 0,
    told: Told::Nothing,
};

pub(crate) const NOTHING_TICKED: Ticked = Ticked {
    written: 0,
    dropped: 0,
    delivered: 0,
};

pub(crate) const NOTHING_GIVEN: Given = Given {
    id: BusId(0),
    len: 0,
};

// The number of a call's reply.
pub(crate) fn number_of<T>(answer: &Result<T, Reply>) -> u32
    ensures { result ≡ number_of (reply_in answer.now) }
{
    reply_of(answer).number()
}

// Counts a call's reply in the lent tally, and answers its number.
pub(crate) fn counted<T>(tally: &mut [u32], answer: &Result<T, Reply>) -> u32
    ensures { (result ≡ number_of (reply_in answer.now)) × (tally.new ≡ counted_in (number_of (reply_in answer.now)) tally.old) }
{
    let number = number_of(answer);
    count_in(tally, number);
    number
}
