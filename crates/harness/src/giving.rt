// The lines that change the frames given out: a new bench has none, and a giving out adds one.
ghost use Rattle.std.specs.Prelude.{◌≡◌, IfNone};

use crate::state::State;
use crate::{answers, names};
use bench_in_code::outbox::Frame;
use bench_in_code::{Bench, Given};
use text::output::Printer;
use text::words::Words;
use wire::reply::Reply;

// modules N
pub(crate) fn modules(state: &mut State, words: &mut Words<'_>, out: &mut Printer) -> Option<()>
    ensures unread { IfNone result (state.new ≡ state.old) }
{
    let n = words.number(Bench::PLACES)?;
    words.end()?;
    if n < State::LEAST {
        return None;
    }
    *state = State::of(n);
    out.put(b"modules ");
    out.put_decimal(n as u64);
    Some(())
}

// give M
pub(crate) fn give(state: &mut State, words: &mut Words<'_>, out: &mut Printer) -> Option<()>
    ensures unread { IfNone result (state.new ≡ state.old) }
{
    let who = names::module(words, state.modules)?;
    words.end()?;
    let number = state.frames.count;
    match state.bench.give(who, &mut state.frames) {
        Given::Dead => answers::put_dead(out),
        Given::Nothing => answers::put_reply(out, Reply::Nothing),
        Given::Full => out.put_byte(b'?'),
        Given::Out(frame) => put_frame(out, number, frame),
    }
    Some(())
}

// `0 FRAME IDENT PAYLOAD`.
fn put_frame(out: &mut Printer, number: usize, frame: Frame) {
    answers::put_reply(out, Reply::Done);
    out.put_byte(b' ');
    out.put_parted(number as u64, b' ');
    out.put_parted(u64::from(frame.id.0), b' ');
    out.put_hex(frame.payload());
}
