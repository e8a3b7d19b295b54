// The settings of a stream, and the test that they are within the rules.
ghost use Rattle.std.specs.Prelude.{◌≡◌};
ghost use Rattle.wire.specs.Settings.{settings, of_plain, of_imd, of_two_message, legal};

use crate::ids::Stream;

// Made by the functions below, wherever they are made: a new field is added here and in
// `specs/Settings.antt`.
#[repr(C)]
#[derive(Clone, Copy, Debug, PartialEq, Eq)]
pub struct Settings {
    // Kept as numbers: they stand by value in the node that C holds, and a node of any content keeps every promise.
    pub role: u8,
    pub class: u8,
    // Data reach, in ticks.
    pub rd: u16,
    // Confirm delay.
    pub dc: u16,
    // Abort reach.
    pub ra: u16,
    // Deliver delay.
    pub dd: u16,
}

impl Settings {
    pub const RECEIVE: u8 = 0;

    pub const SEND: u8 = 1;

    pub const PLAIN: u8 = 0;

    pub const IMD: u8 = 1;

    pub const TWO_MESSAGE: u8 = 2;

    pub const MAX_DATA_REACH: u32 = 8000;

    pub const MAX_CONFIRM_DELAY: u32 = 8000;

    pub const MAX_ABORT_REACH: u32 = 4000;

    pub const MAX_DELIVER_DELAY: u32 = 16000;

    // Of a slot that is not set up: the node that C holds has all its slots by value.
    pub const NONE: Settings = Settings {
        role: 0,
        class: 0,
        rd: 0,
        dc: 0,
        ra: 0,
        dd: 0,
    };

    // In the order of the rules paper.
    pub fn of(role: u8, class: u8, rd: u16, dc: u16, ra: u16, dd: u16) -> Settings
        ensures { result ≡ settings role class rd dc ra dd }
    {
        Settings {
            role,
            class,
            rd,
            dc,
            ra,
            dd,
        }
    }

    pub fn of_plain(role: u8) -> Settings
        ensures { result ≡ of_plain role }
    {
        Settings::of(role, Settings::PLAIN, 0, 0, 0, 0)
    }

    pub fn of_imd(role: u8, rd: u16, dd: u16) -> Settings
        ensures { result ≡ of_imd role rd dd }
    {
        Settings::of(role, Settings::IMD, rd, 0, 0, dd)
    }

    pub fn of_two_message(role: u8, rd: u16, dc: u16, ra: u16, dd: u16) -> Settings
        ensures { result ≡ of_two_message role rd dc ra dd }
    {
        Settings::of(role, Settings::TWO_MESSAGE, rd, dc, ra, dd)
    }

    // Whether the stream may be set up with these settings.
    pub fn legal(self, stream: Stream) -> bool
        ensures { result ≡ legal stream self }
    {
        legal_numbers(
            stream.0,
            self.role.into(),
            self.class.into(),
            self.rd.into(),
            self.dc.into(),
            self.ra.into(),
            self.dd.into(),
        )
    }
}

// The same test on seven plain numbers of any size, as C hands them over (`kosmydore_settings_reply`), by class first: the
// numbers of the other classes are not looked at.
#[tactic(auto, unfolding(crate::specs::Settings::legal))]
pub fn legal_numbers(stream: u32, role: u32, class: u32, rd: u32, dc: u32, ra: u32, dd: u32) -> bool
    ensures { result ≡ legal (record { 0 = stream }) (settings role class rd dc ra dd) }
{
    if stream > Stream::MAX || role > u32::from(Settings::SEND) {
        return false;
    }
    if class == u32::from(Settings::PLAIN) {
        return rd == 0 && dc == 0 && ra == 0 && dd == 0;
    }
    if class == u32::from(Settings::IMD) {
        return 1 <= rd
            && rd <= Settings::MAX_DATA_REACH
            && dc == 0
            && ra == 0
            && rd <= dd
            && dd <= Settings::MAX_DELIVER_DELAY;
    }
    if class == u32::from(Settings::TWO_MESSAGE) {
        return 1 <= rd
            && rd <= Settings::MAX_DATA_REACH
            && rd <= dc
            && dc <= Settings::MAX_CONFIRM_DELAY
            && 1 <= ra
            && ra <= Settings::MAX_ABORT_REACH
            && dc + ra + 1 <= dd
            && dd <= Settings::MAX_DELIVER_DELAY;
    }
    false
}
