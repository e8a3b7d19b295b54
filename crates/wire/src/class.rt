// Which codes a class may carry.
ghost use Rattle.std.specs.Prelude.{◌≡◌};
ghost use Rattle.wire.specs.Classes.{carries};

use crate::settings::Settings;

// Whether frames of this class may have this code. Kept as numbers: a node of any content is asked, and what is no class
// or no code carries nothing.
#[tactic(auto, unfolding(crate::specs::Classes::carries))]
pub fn carries(class: u8, code: u32) -> bool
    ensures { result ≡ carries class code }
{
    matches!(
        (class, code),
        (Settings::PLAIN, 3) | (Settings::IMD, 0) | (Settings::TWO_MESSAGE, 0 | 1 | 2)
    )
}
