// The numbers by which a line names modules and frames.
ghost use Rattle.std.specs.Prelude.{◌<◌, ◌≡◌, min, length, IfSome};
ghost use Rattle.text.specs.Words.{past};

use bench_in_code::Bench;
use bench_in_code::outbox::{Frame, Frames};
use text::words::Words;

// A module of a bench of so many.
pub(crate) fn module(words: &mut Words<'_>, modules: usize) -> Option<usize>
    ensures within { IfSome result (λ who. who < 8) }
    ensures moved { words.new ≡ past words.old }
    ensures on { min words.old.at (length words.old.line) < words.new.at }
{
    words.number(Bench::PLACES - 1).filter(|who| *who < modules)
}

// A frame of those that were given out.
pub(crate) fn frame(words: &mut Words<'_>, frames: &Frames) -> Option<Frame> {
    frames.get(words.number(Frames::MOST - 1)?)
}
