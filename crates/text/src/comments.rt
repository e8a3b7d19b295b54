// Lines that a program skips: empty ones, and comments, which begin with `#` and may be longer than the buffer.
ghost use Rattle.std.specs.Prelude.{◌≡◌};
ghost use Rattle.text.specs.Comments.{is_skipped, has_no_answer};

use crate::input::Line;

// Whether a line has no answer.
pub fn is_skipped(line: &[u8]) -> bool
    ensures { result ≡ is_skipped line.now }
{
    matches!(line, [] | [b'#', ..])
}

// The same of what was read: also a comment that is too long.
pub fn has_no_answer(line: Line<'_>) -> bool
    ensures { result ≡ has_no_answer line.entry }
{
    match line {
        Ok(line) => is_skipped(line),
        Err(long) => long.comment,
    }
}
