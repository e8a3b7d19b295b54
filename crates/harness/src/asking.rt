// The lines that ask something of one module: a set up, a request, its death.
ghost use Rattle.std.specs.Prelude.{◌≡◌, IfNone};

use crate::state::State;
use crate::{answers, names};
use text::output::Printer;
use text::words::Words;
use wire::ids::Stream;

// The most bytes of a payload that can be read. Its length stands beside its bytes: there is no heap here.
const PAYLOAD: usize = 64;

// setup M STREAM ROLE CLASS RD DC RA DD
pub(crate) fn set_up(state: &mut State, words: &mut Words<'_>, out: &mut Printer) -> Option<()>
    ensures unread { IfNone result (state.new ≡ state.old) }
{
    let who = names::module(words, state.modules)?;
    let (stream, settings) = words.settings()?;
    words.end()?;
    answers::put_answer(out, state.bench.set_up(who, stream, settings));
    Some(())
}

// request M STREAM PAYLOAD
pub(crate) fn request(state: &mut State, words: &mut Words<'_>, out: &mut Printer) -> Option<()>
    ensures unread { IfNone result (state.new ≡ state.old) }
{
    let mut bytes = [0u8; PAYLOAD];
    let who = names::module(words, state.modules)?;
    let stream = words.number(u32::MAX)?;
    let len = words.payload(&mut bytes)?;
    words.end()?;
    let answer = state.bench.request(who, Stream(stream), &bytes[..len]);
    answers::put_answer(out, answer);
    Some(())
}

// death M
pub(crate) fn death(state: &mut State, words: &mut Words<'_>, out: &mut Printer) -> Option<()>
    ensures unread { IfNone result (state.new ≡ state.old) }
{
    let who = names::module(words, state.modules)?;
    words.end()?;
    state.bench.death(who);
    answers::put_dead(out);
    Some(())
}
