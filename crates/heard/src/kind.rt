// The kinds of heard record, which differ in how many bytes hold the count of ticks. A further kind
// is added here and in `specs/Kinds.antt`.
ghost use Rattle.std.specs.Prelude.{◌≡◌, ◌≤◌};
ghost use Rattle.heard.specs.Kinds.{kind_number, count_bytes, IsKindOf};

use crate::reply::Reply;

#[derive(Clone, Copy, Debug, PartialEq, Eq)]
pub enum Kind {
    // The count is the node's 16-bit counter.
    Counter = 32,
}

impl Kind {
    // As a record says it. Kept as a method, beside no `From`: `u16::from` would not say which number.
    pub fn number(self) -> u16
        ensures { result ≡ kind_number self }
    {
        self as u16
    }

    // How many bytes hold the count.
    #[tactic(auto, unfolding(crate::specs::Kinds::count_bytes))]
    pub fn count_bytes(self) -> usize
        ensures { (result ≡ count_bytes (kind_number self)) × (result ≤ 4) }
    {
        match self {
            Kind::Counter => 2,
        }
    }
}

impl TryFrom<u16> for Kind {
    type Error = Reply;

    ghost try_from_gives = { IsKindOf };

    #[tactic(auto, unfolding(crate::specs::Kinds::count_bytes))]
    fn try_from(number: u16) -> Result<Self, Reply> {
        match number {
            32 => Ok(Kind::Counter),
            _ => Err(Reply::UnknownKind),
        }
    }
}

// How many bytes hold the count of a record that says this kind; none, where it is unknown.
#[tactic(auto, unfolding(crate::specs::Kinds::count_bytes))]
pub fn count_bytes(kind: u16) -> usize
    ensures { (result ≡ count_bytes kind) × (result ≤ 4) }
{
    match Kind::try_from(kind) {
        Ok(kind) => kind.count_bytes(),
        Err(_) => 0,
    }
}
