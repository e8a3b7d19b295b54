// Bytes of standard input that are no text, of any number: a window on those at hand.
ghost use Rattle.std.specs.Prelude.{◌≡◌, ◌≤◌, min, replicate};
ghost use Rattle.text.specs.Window.{empty, past_bytes, bytes_in, span_of, WindowRead};

use crate::part;
use std::io::{Read, Stdin};

// The bytes at hand are buffer[from..to]. Kept as a buffer with indexes: there is no heap here, and memory is fixed.
#[derive(Clone, Copy)]
pub struct Window<const N: usize> {
    pub stdin: Stdin,
    pub buffer: [u8; N],
    pub from: usize,
    pub to: usize,
    // No byte comes any more.
    pub ended: bool,
}

impl<const N: usize> Window<N> {
    // Before anything is read.
    pub fn new(stdin: Stdin) -> Self
        ensures empty { span_of result ≡ empty }
        ensures buffer { result.buffer ≡ replicate N 0 }
        ensures stdin { result.stdin ≡ stdin }
    {
        Window {
            stdin,
            buffer: [0; N],
            from: 0,
            to: 0,
            ended: false,
        }
    }

    // The bytes at hand.
    pub fn bytes(&self) -> &[u8]
        ensures { result.now ≡ bytes_in self.now.buffer (span_of self.now) }
    {
        part(&self.buffer, self.from, self.to)
    }

    // Goes on behind the first n bytes, or at the end where there are fewer.
    pub fn skip(&mut self, n: usize)
        ensures moved { span_of self.new ≡ past_bytes n (span_of self.old) }
        ensures buffer { self.new.buffer ≡ self.old.buffer }
    {
        let from = self.from.min(self.to);
        self.from = from + n.min(self.to - from);
    }

    // Moves the bytes at hand to the front, and reads once behind them, which may wait. A read that fails counts as the end of
    // the input. Where they fill the buffer, nothing is read.
    pub fn read(&mut self)
        ensures { WindowRead self.old.buffer (span_of self.old) self.new.buffer (span_of self.new) }
    {
        let to = self.to.min(N);
        let from = self.from.min(to);
        let kept = to - from;
        let bytes = &mut self.buffer[..];
        bytes.copy_within(from..to, 0);
        let came = self.stdin.read(&mut bytes[kept..]).unwrap_or(0);
        self.from = 0;
        self.to = kept + came;
        self.ended = came == 0 && kept < N;
    }
}
