// Text for a program that goes by lines: the lines of standard input, the words of a line with the
// numbers and payloads that they say, and what the program prints; and bytes of standard input that are no text.
//
// Only `Window::read` reads and only `Printer` prints, which no contract can speak of. Of all else a function's contract says
// everything that it answers and writes.
#![tactic(auto)]

pub mod comments;
pub mod input;
pub mod numbers;
pub mod output;
pub mod payloads;
pub mod settings;
pub mod told;
pub mod window;
pub mod words;

ghost use Rattle.std.specs.Prelude.{◌-◌, take, drop, position, ◌≡◌, ◌==◌};

// How many bytes the buffers of lines and of what is printed have.
pub const SIZE: usize = 65536;

pub type Buffer = [u8; SIZE];

// The bytes from one index up to another, or as many of them as there are.
pub fn part(s: &[u8], from: usize, to: usize) -> &[u8]
    ensures { result.now ≡ take (to - from) (drop from s.now) }
{
    let end = to.min(s.len());
    let start = from.min(end);
    &s[start..end]
}

// Where a byte first stands.
pub(crate) fn first(s: &[u8], b: u8) -> Option<usize>
    ensures { result ≡ position (λ x. x == b) s.now }
{
    s.iter().position(|x| *x == b)
}
