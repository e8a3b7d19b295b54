// Printing, through a buffer.
//
// Each put writes behind what the buffer holds. Where too little is free the buffer is printed first, and a text that is longer
// than what is kept free is printed at once: a caller never has to ask for room. `flush` is for the end and for what comes before
// a read.
ghost use Rattle.std.specs.Prelude.{◌+◌, ◌*◌, ◌≤◌, ◌<◌, ◌≡◌, [], ◌∷◌, length, drop, replicate};
ghost use Rattle.text.specs.Digits.{hex_digit_ascii};
ghost use Rattle.text.specs.Buffer.{size};
ghost use Rattle.text.specs.Output.{Put, Wrote, free, room_at, past_text, with_text};
ghost use Rattle.text.specs.Numbers.{decimal_text};
ghost use Rattle.text.specs.Payloads.{hex_text, to_hex};

use crate::{Buffer, SIZE};
use std::io::Stdout;

// How many bytes are kept free: 2,048 bytes in hex.
const FREE: usize = 4096;

#[derive(Drop)]
pub struct Printer {
    pub stdout: Stdout,
    // With an index beside it: there is no heap here, and memory is fixed.
    pub buffer: Buffer,
    // The bytes before it are to be printed.
    pub at: usize,
}

impl Printer {
    pub fn new(stdout: Stdout) -> Printer
        ensures at { result.at ≡ 0 }
        ensures buffer { result.buffer ≡ replicate size 0 }
        ensures stdout { result.stdout ≡ stdout }
    {
        Printer {
            stdout,
            buffer: [0; SIZE],
            at: 0,
        }
    }

    // Prints what is in the buffer. What cannot be printed is lost.
    pub fn flush(&mut self)
        ensures at { self.new.at ≡ 0 }
        ensures buffer { self.new.buffer ≡ self.old.buffer }
    {
        let end = self.at.min(SIZE);
        let _ = self.stdout.write_all(&self.buffer[..end]);
        self.at = 0;
    }

    // Puts the bytes of text.
    pub fn put(&mut self, text: &[u8])
        ensures { Put self.old.buffer self.old.at text.now self.new.buffer self.new.at }
    {
        if text.len() <= FREE {
            self.make_room();
            self.place(text);
        } else {
            self.flush();
            let _ = self.stdout.write_all(text);
        }
    }

    // Puts one byte.
    pub fn put_byte(&mut self, b: u8)
        ensures { Put self.old.buffer self.old.at (b ∷ []) self.new.buffer self.new.at }
    {
        self.put(&[b]);
    }

    // Puts n in decimal.
    pub fn put_decimal(&mut self, n: u64)
        ensures { Put self.old.buffer self.old.at (decimal_text n) self.new.buffer self.new.at }
    {
        let mut digits = [0; 20];
        let start = decimal(n, &mut digits);
        self.put(&digits[start..]);
    }

    // Puts n in decimal, and then one byte.
    pub fn put_parted(&mut self, n: u64, b: u8)
        ensures { Put (with_text self.old.buffer self.old.at (decimal_text n)) (past_text self.old.at (decimal_text n)) (b ∷ []) self.new.buffer self.new.at }
    {
        self.put_decimal(n);
        self.put_byte(b);
    }

    // Puts two hex digits for each byte of s, and `-` where there is none.
    pub fn put_hex(&mut self, s: &[u8])
        ensures { Put self.old.buffer self.old.at (hex_text s.now) self.new.buffer self.new.at }
    {
        if s.is_empty() {
            self.put_byte(b'-');
        } else if s.len() <= FREE / 2 {
            self.make_room();
            self.place_hex(s);
        } else {
            self.flush();
            self.print_hex(s);
        }
    }

    // Flushes where fewer than FREE bytes are free.
    fn make_room(&mut self)
        ensures at { self.new.at ≡ room_at self.old.at }
        ensures free { self.new.at + free ≤ size }
        ensures buffer { self.new.buffer ≡ self.old.buffer }
    {
        if SIZE - FREE < self.at {
            self.flush();
        }
    }

    fn place(&mut self, text: &[u8])
        requires { self.old.at + length text.now ≤ size }
        ensures { Wrote self.old.buffer self.old.at text.now self.new.buffer self.new.at }
    {
        let end = self.at + text.len();
        self.buffer[self.at..end].copy_from_slice(text);
        self.at = end;
    }

    fn place_hex(&mut self, s: &[u8])
        requires { (0 < length s.now) × (self.old.at + 2 * length s.now ≤ size) }
        ensures { Wrote self.old.buffer self.old.at (hex_text s.now) self.new.buffer self.new.at }
    {
        let end = self.at + 2 * s.len();
        write_hex(&mut self.buffer[self.at..end], s);
        self.at = end;
    }

    fn print_hex(&self, s: &[u8]) {
        for b in s {
            let _ = self.stdout.write_all(&[glyph(b / 16), glyph(b % 16)]);
        }
    }
}

// Writes two hex digits for each byte of s. It knows no printer, so that the compiler can write many at once. Hex, decimal and a digit
// are written by hand: `Put` promises each of their bytes, `write!` promises those of a `String` alone, and there is no heap.
fn write_hex(out: &mut [u8], s: &[u8])
    requires { length out.old ≡ 2 * length s.now }
    ensures { out.new ≡ to_hex s.now }
{
    for (i, b) in s.iter().enumerate() {
        out[2 * i] = glyph(b / 16);
        out[2 * i + 1] = glyph(b % 16);
    }
}

// Writes the digits of n at the end of digits, and answers the index of the first. How many there are shows only as they are
// written, so this is no loop over a range.
fn decimal(n: u64, digits: &mut [u8; 20]) -> usize
    ensures text { drop result digits.new ≡ decimal_text n }
    ensures in_bounds { result ≤ 20 }
{
    let mut at = 20;
    let mut rest = n;
    while 9 < rest {
        at -= 1;
        digits[at] = glyph((rest % 10) as u8);
        rest /= 10;
    }
    at -= 1;
    digits[at] = glyph(rest as u8);
    at
}

// The hex digit, in lower case, that says d.
fn glyph(d: u8) -> u8
    requires { d < 16 }
    ensures { result ≡ hex_digit_ascii d }
{
    if d < 10 { b'0' + d } else { b'a' - 10 + d }
}
