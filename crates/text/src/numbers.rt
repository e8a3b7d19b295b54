// Numbers in decimal, each up to a limit.
ghost use Rattle.std.specs.Prelude.{◌+◌, ◌*◌, ◌<◌, ◌≤◌, ◌≡◌, min, length, IsTrue, IfSome, MatchOption};
ghost use Rattle.std.specs.Option.{SomeIff, option_map};
ghost use Rattle.text.specs.Words.{past};
ghost use Rattle.text.specs.Numbers.{digit_of, number_of, number_at};

use crate::words::Words;

// An unsigned number of some width. Each width has an impl written out: the gate takes none that a macro wrote.
pub trait Unsigned: Copy {
    ghost use Rattle.std.specs.Prelude.{ℕ};

    // The number that a value is.
    ghost number: { Self → ℕ };

    // The largest one.
    ghost most: { ℕ };

    fn wide(self) -> u64
        ensures value { result ≡ number self }
        ensures within { result ≤ most };

    // The value that is a number, if one is.
    fn narrow(n: u64) -> Option<Self>
        ensures { MatchOption result (most < n) (λ x. number x ≡ n) };

    // No two values are one number.
    ghost apart: { (x y : Self) → number x ≡ number y → x ≡ y };
}

impl Unsigned for u8 {
    ghost number = { λ x. x };

    ghost most = { 255 };

    ghost apart = { λ x y e. e };

    fn wide(self) -> u64 {
        u64::from(self)
    }

    fn narrow(n: u64) -> Option<u8> {
        u8::try_from(n).ok()
    }
}

impl Unsigned for u16 {
    ghost number = { λ x. x };

    ghost most = { 65535 };

    ghost apart = { λ x y e. e };

    fn wide(self) -> u64 {
        u64::from(self)
    }

    fn narrow(n: u64) -> Option<u16> {
        u16::try_from(n).ok()
    }
}

impl Unsigned for u32 {
    ghost number = { λ x. x };

    ghost most = { 4294967295 };

    ghost apart = { λ x y e. e };

    fn wide(self) -> u64 {
        u64::from(self)
    }

    fn narrow(n: u64) -> Option<u32> {
        u32::try_from(n).ok()
    }
}

impl Unsigned for u64 {
    ghost number = { λ x. x };

    ghost most = { 18446744073709551615 };

    ghost apart = { λ x y e. e };

    fn wide(self) -> u64 {
        self
    }

    fn narrow(n: u64) -> Option<u64> {
        Some(n)
    }
}

impl Unsigned for usize {
    ghost number = { λ x. x };

    ghost most = { 18446744073709551615 };

    ghost apart = { λ x y e. e };

    fn wide(self) -> u64 {
        self as u64
    }

    fn narrow(n: u64) -> Option<usize> {
        usize::try_from(n).ok()
    }
}

// The number that a word says: decimal digits alone, at least one, and no more than limit.
pub fn decimal(word: &[u8], limit: u64) -> Option<u64>
    ensures value { let n = number_of limit word.now in SomeIff result (IsTrue n.ok) n.value }
    ensures value_le_limit { IfSome result (λ n. n ≤ limit) }
{
    if word.is_empty() {
        return None;
    }
    let mut value: u64 = 0;
    for b in word {
        value = with_digit(value, *b, limit)?;
    }
    Some(value)
}

impl<'a> Words<'a> {
    // The next word, as a number.
    #[tactic(auto, unfolding(crate::specs::Numbers::number_at))]
    pub fn number<T: Unsigned>(&mut self, limit: T) -> Option<T>
        ensures value { let n = number_at (T.number limit) self.old.line self.old.at in
            SomeIff (option_map T.number result) (IsTrue n.ok) n.value }
        ensures value_le_limit { IfSome result (λ x. T.number x ≤ T.number limit) }
        ensures moved { self.new ≡ past self.old }
        ensures on { min self.old.at (length self.old.line) < self.new.at }
    {
        let n = decimal(self.word(), limit.wide())?;
        T::narrow(n)
    }
}

// The number whose digits are those of value and then one more, and no more than limit.
fn with_digit(value: u64, b: u8, limit: u64) -> Option<u64>
    ensures { let n = value * 10 + digit_of b in SomeIff result ((digit_of b ≤ 9) × (n ≤ limit)) n }
{
    let n = value.checked_mul(10)?.checked_add(digit(b)?)?;
    if n <= limit { Some(n) } else { None }
}

// What a decimal digit says.
fn digit(b: u8) -> Option<u64>
    ensures { MatchOption result (9 < digit_of b) (λ d. (d ≡ digit_of b) × (d ≤ 9)) }
{
    match b {
        b'0'..=b'9' => Some(u64::from(b - b'0')),
        _ => None,
    }
}
