// Words of a line, which one space parts.
//
// Two spaces in a row, and a space at either end, have an empty word there, and past the last word every word is empty. No
// empty word is a name, a number or a payload, so a reader needs no case for a word that is missing.
ghost use Rattle.std.specs.Prelude.{◌<◌, ◌≤◌, ◌≡◌, min, length, IsTrue};
ghost use Rattle.std.specs.Option.{SomeIff};
ghost use Rattle.text.specs.Bytes.{index_of};
ghost use Rattle.text.specs.Words.{first_place, past, bytes_at, same_bytes, done_at};

use crate::first;
use std::marker::Model;

// A reader of the words of a line. A clause sees the line, and the index in it where the next word starts.
#[derive(Drop)]
pub struct Words<'a> {
    line: &'a [u8],
    at: usize,
}

impl<'a> Model for Words<'a> {
    ghost use Rattle.text.specs.Words.{Place};

    ghost Value = { Place };

    ghost view = { λ w. record { line = w.line.now; at = w.at } };
}

impl<'a> Words<'a> {
    // The words of a line, from its first on.
    pub fn of(line: &'a [u8]) -> Words<'a>
        ensures { result ≡ first_place line.now }
    {
        Words { line, at: 0 }
    }

    // The next word.
    pub fn word(&mut self) -> &'a [u8]
        ensures value { result.now ≡ bytes_at self.old.line self.old.at }
        ensures moved { self.new ≡ past self.old }
        ensures on { min self.old.at (length self.old.line) < self.new.at }
    {
        let start = self.at.min(self.line.len());
        let rest = &self.line[start..];
        let len = first_length(rest);
        self.at = start + len + 1;
        &rest[..len]
    }

    // Whether no word is left.
    pub fn is_done(&self) -> bool
        ensures { result ≡ done_at self.now.line self.now.at }
    {
        self.line.len() < self.at
    }

    // The same, for `?`: something where no word is left.
    pub fn end(&self) -> Option<()>
        ensures { SomeIff result (IsTrue (done_at self.now.line self.now.at)) tt }
    {
        self.is_done().then_some(())
    }
}

// How many bytes the first word has.
fn first_length(words: &[u8]) -> usize
    ensures value { result ≡ index_of 32 words.now }
    ensures within { result ≤ length words.now }
{
    first(words, b' ').unwrap_or(words.len())
}

// Whether a word is the name. Kept beside `==`: docs/TRUST.md and the edit `every_word_is_the_name` name it.
pub fn is(word: &[u8], name: &[u8]) -> bool
    ensures { result ≡ same_bytes word.now name.now }
{
    word == name
}
