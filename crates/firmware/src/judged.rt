// Numbers that C hands over. They are judged, and not cut: one that fits no field of the node's calls
// becomes a value that they refuse.
ghost use Rattle.std.specs.Prelude.{◌≡◌};
ghost use Rattle.firmware.specs.Judged.{dlc_of, settings_of};

use wire::frame::MAX_DLC;
use wire::settings::Settings;

// The settings of a stream, each a number of any size.
#[repr(C)]
#[derive(Clone, Copy)]
pub struct SettingsC {
    pub role: u32,
    pub class: u32,
    pub rd: u32,
    pub dc: u32,
    pub ra: u32,
    pub dd: u32,
}

// Above the highest DLC, and refused like every number there. Kept as a number, and no Option: the node's call judges C's number.
const NO_DLC: u32 = MAX_DLC as u32 + 1;

// No role, so that these settings are refused. Kept as a number too: the node's call says which fault comes first.
const NO_ROLE: u8 = Settings::SEND + 1;

// The highest numbers of one byte and of two.
const MAX_ONE_BYTE: u32 = u8::MAX as u32;

const MAX_TWO_BYTES: u32 = u16::MAX as u32;

pub(crate) fn dlc_of(dlc: u32) -> u8
    ensures { result ≡ dlc_of dlc }
{
    dlc.min(NO_DLC) as u8
}

// Only whether the numbers fit is tested here: the node's call tests whether they are legal. By one test, and not by a conversion of each that
// may fail: which of them does is not told.
#[tactic(auto, unfolding(crate::specs::Judged::settings_of))]
pub(crate) fn settings_of(settings: SettingsC) -> Settings
    ensures { result ≡ settings_of settings }
{
    let fits = (settings.role <= MAX_ONE_BYTE)
        & (settings.class <= MAX_ONE_BYTE)
        & (settings.rd <= MAX_TWO_BYTES)
        & (settings.dc <= MAX_TWO_BYTES)
        & (settings.ra <= MAX_TWO_BYTES)
        & (settings.dd <= MAX_TWO_BYTES);
    if fits {
        return Settings::of(
            settings.role as u8,
            settings.class as u8,
            settings.rd as u16,
            settings.dc as u16,
            settings.ra as u16,
            settings.dd as u16,
        );
    }
    Settings::of_plain(NO_ROLE)
}
