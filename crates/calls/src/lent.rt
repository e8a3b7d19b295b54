// The outputs that are lent to the calls. Each has its first bytes lent, and is filled with `ee` before.
use text::part;

// The most bytes that are lent.
pub(crate) const MOST: usize = 1024;

const FILL: u8 = 238;

pub(crate) const FILLED: [u8; MOST] = [FILL; MOST];

// Whether the bytes from index from on are as they were filled.
pub(crate) fn is_clean(lent: &[u8], from: usize) -> bool {
    part(lent, from, lent.len()).iter().all(|b| *b == FILL)
}
