// What a frame did, as hear tells it beside its reply.
ghost use Rattle.std.specs.Prelude.{◌≡◌};
ghost use Rattle.node.specs.Told.{told_number, told_by};

use crate::slots::Slot;

// The numbers are C's. Nothing is kept for C's 0, and for `silent` of specs/Told.antt, which is told beside a refusal and by the
// other calls; no frame that is taken is told so.
#[derive(Clone, Copy, Debug, Eq, PartialEq)]
pub enum Told {
    Nothing = 0,
    New = 1,
    Duplicate = 2,
    Confirmed = 3,
    ConfirmedAgain = 4,
    AbortPending = 5,
    Dropped = 6,
    NothingToDrop = 7,
    Delivered = 8,
}

impl Told {
    // Its number for callers that know no enum, in C. Kept as a method, beside no `From`: `u32::from` would not say which number.
    pub fn number(self) -> u32
        ensures { result ≡ told_number self }
    {
        self as u32
    }
}

impl Slot {
    // What a frame of the slot's stream that it takes does. The code is kept as a number: an identifier splits into it, and C has it so.
    #[tactic(auto, unfolding(crate::specs::Told::told_by))]
    pub fn told(self, code: u32) -> Told
        ensures { result ≡ told_by code self }
    {
        let m = self.message;
        match code {
            0 => if m.held { Told::Duplicate } else { Told::New },
            1 => {
                if !m.held {
                    Told::AbortPending
                } else if m.confirmed {
                    Told::ConfirmedAgain
                } else {
                    Told::Confirmed
                }
            }
            2 => if m.held {
                Told::Dropped
            } else {
                Told::NothingToDrop
            },
            _ => Told::Delivered,
        }
    }
}
