// What a round asks of the node. The streams have a number k each, 0 to 63; 32 of them are set up.
ghost use Rattle.std.specs.Prelude.{◌≤◌};

use node::Node;
use wire::settings::Settings;

// Kept as one struct for every call: a round makes it whether it calls the node or not, so that the rounds alone can be measured.
#[derive(Clone, Copy)]
pub struct Asked {
    // A stream, or a bus identifier.
    pub number: u32,
    pub dlc: u8,
    // The payload's length, and its first byte; the others are always the same.
    pub len: usize,
    pub first: u8,
    // How many bytes of output are lent.
    pub room: usize,
    pub settings: Settings,
}

// The longest payload that is asked for, one byte more than a message has.
pub(crate) const LARGEST: usize = 9;

pub(crate) fn stream_of(k: u32) -> u32
    ensures { result ≤ 258242 }
{
    (k % 64 * 13 + 7) % 64 * 4099 + 5
}

// Of the streams 57 to 88 the last has the highest number of all.
pub(crate) const BELOW_HIGHEST: u32 = 57;

const HIGHEST: u32 = 88;

// The settings of a stream of this role and class. Both are numbers, as the settings have them, and so is a code below.
pub(crate) fn settings_of(role: u8, class: u32) -> Settings {
    match class {
        0 => Settings::of_plain(role),
        1 => Settings::of_imd(role, 50, 100),
        _ => Settings::of_two_message(role, 50, 80, 10, 100),
    }
}

pub(crate) fn payload_of(first: u8) -> [u8; LARGEST] {
    [first, 1, 2, 3, 4, 5, 6, 7, 8]
}

// A code that the class carries; any code where `any` is true.
fn code_of(class: u32, any: bool, w: u32) -> u32
    ensures { result ≤ 3 }
{
    if any {
        return w % 4;
    }
    if class == 0 {
        return 3;
    }
    if class == 1 || w < 4 {
        return 0;
    }
    if w < 7 { 1 } else { 2 }
}

// The length of stream k's payloads with this code; where `shorter` is true, one byte less.
fn length_of(k: u32, code: u32, shorter: bool) -> u8
    ensures { result ≤ 8 }
{
    if code == 1 || code == 2 {
        return 0;
    }
    let len = (k % 9) as u8;
    if shorter { len.saturating_sub(1) } else { len }
}

// A frame: one in sixteen each with short output, a DLC that is one more than its bytes (no frame, but
// where these are eight), an unknown stream and any code; one in eight each with another first byte and
// with a byte less.
pub(crate) fn frame(random: u32) -> Asked {
    let h = random / 65536;
    let k = h % 32;
    let kind = h / 32 % 16;
    let w = h / 512 % 8;
    let other = h / 4096 % 8;
    let code = code_of(k % 3, kind == 3, w);
    let len = length_of(k, code, other == 6);
    let dlc = len + u8::from(kind == 1);
    Asked {
        number: (stream_of(k) + u32::from(kind == 2)) * 4 + code,
        dlc,
        len: usize::from(len),
        first: (other / 7) as u8,
        room: if kind == 0 {
            Node::HEAR_ROOM - 1
        } else {
            Node::TICK_ROOM
        },
        ..nothing()
    }
}

// Data with eight bytes; half with another first byte.
fn data(stream: u32, random: u32) -> Asked
    requires { stream ≤ 258243 }
{
    Asked {
        number: stream * 4,
        dlc: 8,
        len: 8,
        first: (random / 65536 % 2) as u8,
        ..nothing()
    }
}

// Data of the stream with the highest number.
pub(crate) fn data_of_highest(random: u32) -> Asked {
    data(stream_of(HIGHEST), random)
}

// Data of an unknown stream.
pub(crate) fn data_of_absent(random: u32) -> Asked {
    data(stream_of(random / 65536 % 32) + 1, random)
}

// A request: one in eight each of an unknown stream and with nine bytes.
pub(crate) fn message(random: u32) -> Asked {
    let h = random / 65536;
    let k = h % 32;
    let kind = h / 32 % 8;
    let len = length_of(k, 0, false);
    Asked {
        number: stream_of(k) + u32::from(kind == 0),
        dlc: len,
        len: if kind == 1 { LARGEST } else { usize::from(len) },
        first: (h % 256) as u8,
        ..nothing()
    }
}

// A set up: one in sixteen each with a role that is none, and of the first stream again.
pub(crate) fn stream(i: u64, random: u32) -> Asked {
    let h = random / 65536;
    let kind = h % 16;
    let k = if kind == 1 { 0 } else { (i % 40) as u32 };
    let role = if kind == 0 { 2 } else { role_of(k) };
    Asked {
        number: stream_of(k),
        settings: settings_of(role, k % 3),
        ..nothing()
    }
}

// Every eighth stream is sent.
pub(crate) fn role_of(k: u32) -> u8 {
    if k % 8 == 7 {
        Settings::SEND
    } else {
        Settings::RECEIVE
    }
}

// A tick or a next frame asks for nothing but output.
pub(crate) fn nothing() -> Asked {
    Asked {
        number: 0,
        dlc: 0,
        len: 0,
        first: 0,
        room: Node::TICK_ROOM,
        settings: settings_of(0, 0),
    }
}
