// Payloads in hex, read into an array that the caller lends.
ghost use Rattle.std.specs.Prelude.{◌*◌, ◌<◌, ◌≤◌, true, ◌≡◌, min, length, IsTrue, IfSome, MatchOption};
ghost use Rattle.std.specs.Option.{SomeIff};
ghost use Rattle.text.specs.Words.{past, bytes_at};
ghost use Rattle.text.specs.Payloads.{nibble_of, byte_of, all_pairs, from_hex, is_hex, over, payload_bytes, payload_of, payload_at};

use crate::words::{Words, is};

// The payload that a word says: no byte for `-`, else a byte for each pair of hex digits in lower case, and no more than
// there is room for. It goes to the front of what is lent, and its length is answered; where there is none nothing is written.
pub fn hex(word: &[u8], into: &mut [u8]) -> Option<usize>
    ensures value { let p = payload_of (length into.old) word.now in SomeIff result (IsTrue p.ok) p.len }
    ensures into_after { into.new ≡ over (payload_bytes (length into.old) word.now) into.old }
{
    if is(word, b"-") {
        return Some(0);
    }
    if !is_hex(word, into.len()) {
        return None;
    }
    Some(decode(word, into))
}

impl<'a> Words<'a> {
    // The next word, as a payload.
    #[tactic(auto, using(crate::proofs::PayloadLaws::short_found), unfolding(crate::specs::Payloads::payload_at))]
    pub fn payload(&mut self, into: &mut [u8]) -> Option<usize>
        ensures value { let p = payload_at (length into.old) self.old.line self.old.at in SomeIff result (IsTrue p.ok) p.len }
        ensures into_after { into.new ≡ over (payload_bytes (length into.old) (bytes_at self.old.line self.old.at)) into.old }
        ensures len_in_bounds { IfSome result (λ n. n ≤ length into.old) }
        ensures moved { self.new ≡ past self.old }
        ensures on { min self.old.at (length self.old.line) < self.new.at }
    {
        hex(self.word(), into)
    }
}

// Whether a word is one pair of hex digits or more, for at most so many bytes.
fn is_hex(word: &[u8], most: usize) -> bool
    ensures { result ≡ is_hex most word.now }
{
    !word.is_empty() && word.len().div_ceil(2) <= most && are_pairs(word)
}

// Whether a word is pairs of hex digits and nothing else. Kept as a loop: with `all` the proof did not close at once.
fn are_pairs(word: &[u8]) -> bool
    ensures { result ≡ all_pairs word.now }
{
    if word.len() % 2 != 0 {
        return false;
    }
    for pair in word.chunks_exact(2) {
        if byte(pair[0], pair[1]).is_none() {
            return false;
        }
    }
    true
}

// Writes the bytes that pairs of hex digits say, and answers how many. Kept with an index: `into` may have more room than they fill,
// and a `zip` with it is no plainer.
fn decode(word: &[u8], into: &mut [u8]) -> usize
    requires { (all_pairs word.now ≡ true) × (length word.now ≤ 2 * length into.old) }
    ensures { (result ≡ length (from_hex word.now)) × (into.new ≡ over (from_hex word.now) into.old) }
{
    for (k, pair) in word.chunks_exact(2).enumerate() {
        if let Some(b) = byte(pair[0], pair[1]) {
            into[k] = b;
        }
    }
    word.len() / 2
}

// The byte that two hex digits say.
fn byte(high: u8, low: u8) -> Option<u8>
    ensures { MatchOption result (255 < byte_of high low) (λ b. b ≡ byte_of high low) }
{
    Some(nibble(high)? * 16 + nibble(low)?)
}

// What a hex digit in lower case says.
fn nibble(b: u8) -> Option<u8>
    ensures { MatchOption result (15 < nibble_of b) (λ d. (d ≡ nibble_of b) × (d ≤ 15)) }
{
    match b {
        b'0'..=b'9' => Some(b - b'0'),
        b'a'..=b'f' => Some(b - b'a' + 10),
        _ => None,
    }
}
