// The values of an answer. With a refusal there are none: what was written is 0 bytes, and nothing was told, dropped or given.
ghost use Rattle.std.specs.Prelude.{◌≡◌};
ghost use Rattle.module.specs.Values.{heard_in, ticked_in, given_in};

use node::told::Told;
use node::{Given, Heard, Ticked};
use wire::ids::BusId;
use wire::reply::Reply;

pub fn heard_in(answer: Result<Heard, Reply>) -> Heard
    ensures { result ≡ heard_in answer }
{
    answer.unwrap_or(Heard {
        written: 0,
        told: Told::Nothing,
    })
}

pub fn ticked_in(answer: Result<Ticked, Reply>) -> Ticked
    ensures { result ≡ ticked_in answer }
{
    answer.unwrap_or(Ticked {
        written: 0,
        dropped: 0,
        delivered: 0,
    })
}

pub fn given_in(answer: Result<Given, Reply>) -> Given
    ensures { result ≡ given_in answer }
{
    answer.unwrap_or(Given {
        id: BusId(0),
        len: 0,
    })
}
