// The words for what a frame did. Kept as a number, the one that the node gives what it tells: this crate stands on no node.
ghost use Rattle.std.specs.Prelude.{◌≡◌};
ghost use Rattle.text.specs.Output.{Put};
ghost use Rattle.text.specs.Told.{told_text};

use crate::output::Printer;

impl Printer {
    // Puts the word, and `-` where nothing is told.
    pub fn put_told(&mut self, number: u32)
        ensures { Put self.old.buffer self.old.at (told_text number) self.new.buffer self.new.at }
    {
        self.put(word_of(number));
    }
}

#[tactic(auto, unfolding(crate::specs::Told::told_text))]
fn word_of(number: u32) -> &'static [u8]
    ensures { result.now ≡ told_text number }
{
    match number {
        1 => b"new",
        2 => b"duplicate",
        3 => b"confirmed",
        4 => b"confirmed-again",
        5 => b"abort-pending",
        6 => b"dropped",
        7 => b"nothing-to-drop",
        8 => b"delivered",
        _ => b"-",
    }
}
