// Sendings of a frame, full and short, and what the modules answered that heard it.
ghost use Rattle.std.specs.Prelude.{◌≡◌, IfNone};

use crate::state::State;
use crate::{answers, names, records};
use bench_in_code::outbox::Frame;
use bench_in_code::stations::Hearing;
use bench_in_code::{Bench, Outputs};
use node::Heard;
use text::output::Printer;
use text::part;
use text::words::Words;
use wire::reply::Reply;

// full F
pub(crate) fn full(state: &mut State, words: &mut Words<'_>, out: &mut Printer) -> Option<()>
    ensures unread { IfNone result (state.new ≡ state.old) }
{
    let frame = names::frame(words, &state.frames)?;
    words.end()?;
    send(state, frame, [true; Bench::PLACES], out);
    Some(())
}

// short F [M ...]
pub(crate) fn short(state: &mut State, words: &mut Words<'_>, out: &mut Printer) -> Option<()>
    ensures unread { IfNone result (state.new ≡ state.old) }
{
    let frame = names::frame(words, &state.frames)?;
    let hearers = read_hearers(words, state.modules)?;
    send(state, frame, hearers, out);
    Some(())
}

// The modules that the words that are left name.
fn read_hearers(words: &mut Words<'_>, modules: usize) -> Option<[bool; Bench::PLACES]> {
    let mut hearers = [false; Bench::PLACES];
    while !words.is_done() {
        hearers[names::module(words, modules)?] = true;
    }
    Some(hearers)
}

fn send(state: &mut State, frame: Frame, hearers: [bool; Bench::PLACES], out: &mut Printer) {
    match state.bench.send(frame, hearers, &mut state.outs) {
        Some(said) => put_said(out, said, &state.outs),
        None => answers::put_dead(out),
    }
}

// What each module answered that heard, with a space between them; `-` where none heard.
fn put_said(out: &mut Printer, said: [Hearing; Bench::PLACES], outs: &Outputs) {
    let mut heard = false;
    for (module, hearing) in said.iter().enumerate() {
        let Some(answer) = *hearing else { continue };
        if heard {
            out.put_byte(b' ');
        }
        heard = true;
        put_hearing(out, module, answer, &outs[module]);
    }
    if !heard {
        out.put_byte(b'-');
    }
}

// `M:REPLY` of a refusal, else `M:0:TOLD`, and `:STREAM:PAYLOAD` where hearing delivered.
fn put_hearing(out: &mut Printer, module: usize, answer: Result<Heard, Reply>, bytes: &[u8]) {
    out.put_parted(module as u64, b':');
    match answer {
        Ok(heard) => {
            out.put_parted(0, b':');
            out.put_told(heard.told.number());
            records::put_first(out, part(bytes, 0, heard.written));
        }
        Err(reply) => answers::put_reply(out, reply),
    }
}
