// Lines of standard input, of any length.
//
// A line of up to 65,535 bytes is handed out where it stands in the buffer. A longer one is dropped as it comes, and answered once,
// as `TooLong`, where it ends.
//
// A program goes from line to line by `next`. One that decides for itself when to read goes by what `next` does: `step` says what is at
// hand, `line` has its bytes, and `read` reads once where more is to be read.
ghost use Rattle.std.specs.Prelude.{◌≡◌, ◌+◌, ◌≤◌, ◌<◌, length, ◌==◌, position, replicate, IfOk, MatchOption};
ghost use Rattle.text.specs.Buffer.{size};
ghost use Rattle.text.specs.Bytes.{index_of, slice};
ghost use Rattle.text.specs.Input.{fresh, kept_in, Refilled};
ghost use Rattle.text.specs.Window.{bytes_in, span_of};
ghost use Rattle.std.specs.Borrow.{sem};
ghost use Rattle.text.specs.Lines.{input_of, long_of, GoneOn, IsAtHand, Found, IsLine, IsNext, RestsAs};

use crate::output::Printer;
use crate::window::Window;
use crate::{SIZE, first, part};
use std::io::Stdin;

// What is known of a line that is too long.
#[derive(Clone, Copy, PartialEq, Eq, Debug)]
pub struct TooLong {
    // It began as a comment.
    pub comment: bool,
}

// A line with no newline.
pub type Line<'a> = Result<&'a [u8], TooLong>;

#[derive(Drop)]
pub struct Lines {
    // The bytes that are not read yet.
    pub window: Window<SIZE>,
    // The line at hand is too long, and its bytes are dropped.
    pub over: Option<TooLong>,
}

#[derive(Clone, Copy)]
pub enum AtHand {
    // A line is, buffer[start..end], or ends here that was too long.
    Whole(Result<(usize, usize), TooLong>),
    // There is no whole line in the buffer: more is to be read.
    Part,
    // There is no line any more.
    Nothing,
}

impl Lines {
    pub fn new(stdin: Stdin) -> Lines
        ensures fresh { input_of result ≡ fresh }
        ensures buffer { result.window.buffer ≡ replicate size 0 }
        ensures stdin { result.window.stdin ≡ stdin }
    {
        Lines {
            window: Window::new(stdin),
            over: None,
        }
    }

    // The next line, and None at the end. Where no whole one is there it reads, which may wait. What was answered is printed before
    // each read, and at the end.
    pub fn next(&mut self, out: &mut Printer) -> Option<Line<'_>>
        ensures next { IsNext self.old out.old result out.new }
        ensures* rests { sem 𝓛 (RestsAs self.entry out.old result out.new) }
    {
        let found = self.find(out)?;
        Some(self.line_within(found))
    }

    // What is at hand, which is then behind. The newline is no part of a line, and the last line may lack one.
    pub fn step(&mut self) -> AtHand
        ensures at_hand { IsAtHand self.old result self.new }
        ensures gone_on { GoneOn self.old self.new }
    {
        // At every line: what stays as it is is not stored.
        if SIZE < self.window.to {
            self.window.to = SIZE;
        }
        let from = self.window.from;
        let to = self.window.to;
        let (end, next) = match newline(&self.window.buffer, from, to) {
            Some(at) => (at, at + 1),
            None if !self.window.ended => {
                self.window.from = from.min(to);
                return AtHand::Part;
            }
            None if from < to || self.over.is_some() => (to, to),
            None => {
                self.window.from = to;
                return AtHand::Nothing;
            }
        };
        self.window.from = next;
        match self.over {
            None => AtHand::Whole(Ok((from, end))),
            Some(long) => {
                self.over = None;
                AtHand::Whole(Err(long))
            }
        }
    }

    // The line that a step found.
    pub fn line(&self, found: Result<(usize, usize), TooLong>) -> Line<'_>
        ensures { IsLine self.now.window.buffer found result }
    {
        match found {
            Ok((start, end)) => Ok(part(&self.window.buffer, start, end)),
            Err(long) => Err(long),
        }
    }

    // Reads once, where a step asks for more, which may wait. What was answered is printed before it.
    pub fn read(&mut self, out: &mut Printer)
        ensures refilled { Refilled self.old.window.buffer (input_of self.old) self.new.window.buffer (input_of self.new) }
        ensures over { self.new.over ≡ long_of self.old }
        ensures at { out.new.at ≡ 0 }
        ensures buffer { out.new.buffer ≡ out.old.buffer }
    {
        out.flush();
        self.refill();
    }

    // The line that was found, where the buffer has it: `line` cuts to the buffer, which takes time at every line.
    fn line_within(&self, found: Result<(usize, usize), TooLong>) -> Line<'_>
        requires within { IfOk found (λ p. (p.0 ≤ p.1) × (p.1 ≤ size)) }
        ensures { IsLine self.now.window.buffer found result }
    {
        match found {
            Ok((start, end)) => Ok(&self.window.buffer[start..end]),
            Err(long) => Err(long),
        }
    }

    // Where it stands.
    fn find(&mut self, out: &mut Printer) -> Option<Result<(usize, usize), TooLong>>
        ensures { Found self.old out.old result self.new out.new }
    {
        for _reads in 0..u64::MAX {
            match self.step() {
                AtHand::Whole(line) => return Some(line),
                AtHand::Part => self.read(out),
                AtHand::Nothing => {
                    out.flush();
                    return None;
                }
            }
        }
        None
    }

    // Reads once behind the unread bytes, of which those of a line that is too long are dropped. A read that fails counts as the
    // end of the input.
    fn refill(&mut self)
        ensures refilled { Refilled self.old.window.buffer (input_of self.old) self.new.window.buffer (input_of self.new) }
        ensures over { self.new.over ≡ long_of self.old }
    {
        self.drop_long();
        self.window.read();
    }

    // A line is too long if it was so before, or fills the buffer.
    fn drop_long(&mut self)
        ensures over { self.new.over ≡ long_of self.old }
        ensures kept { bytes_in self.new.window.buffer (span_of self.new.window) ≡ kept_in self.old.window.buffer (input_of self.old) }
        ensures buffer { self.new.window.buffer ≡ self.old.window.buffer }
    {
        if self.over.is_none() {
            let to = self.window.to.min(SIZE);
            let from = self.window.from.min(to);
            if to - from < SIZE {
                return;
            }
            self.over = Some(TooLong {
                comment: self.window.buffer[from] == b'#',
            });
        }
        self.window.skip(SIZE);
    }
}

// Where the first newline stands from one index up to another.
fn newline(s: &[u8], from: usize, to: usize) -> Option<usize>
    requires { to ≤ length s.now }
    ensures { MatchOption result (to ≤ from + index_of 10 (slice from to s.now)) (λ at. (at ≡ from + index_of 10 (slice from to s.now)) × (at < to)) }
{
    if to <= from {
        return None;
    }
    Some(from + first(&s[from..to], b'\n')?)
}
