// A slot: a stream with its settings, the message it holds, and its pending frames. Each is made here, wherever it is made: a
// new field is added here and in `specs/Slots.antt`.
ghost use Rattle.std.specs.Prelude.{◌≡◌, length, take};
ghost use Rattle.wire.specs.Frames.{max_payload};
ghost use Rattle.node.specs.Slots.{padded, holding, keeping, payload_of, same, to_send};
ghost use Rattle.node.specs.Slots.{empty, slot_for, is_free, is_of, is_receiver, is_sender};
ghost use Rattle.node.specs.Request.{has_pending};

use wire::copying::copy;
use wire::frame::{MAX_PAYLOAD, at_most_payload};
use wire::ids::Stream;
use wire::settings::Settings;

// Fields in their order, as C has them. Kept with flags, and not as an Option: C has `held` so, and a message that is not held may
// still have to be sent.
#[repr(C)]
#[derive(Clone, Copy, Debug, Eq, PartialEq)]
pub struct Message {
    // The counter when the message was taken up.
    pub stamp: u16,
    pub len: u8,
    pub held: bool,
    pub confirmed: bool,
    pub bytes: [u8; Message::MAX_LEN],
}

impl Message {
    // The longest payload of a frame.
    pub const MAX_LEN: usize = MAX_PAYLOAD;

    pub const NONE: Message = Message {
        stamp: 0,
        len: 0,
        held: false,
        confirmed: false,
        bytes: [0; Message::MAX_LEN],
    };

    // Taken up at this moment, unconfirmed: of a payload the first eight bytes.
    pub(crate) fn holding(counter: u16, payload: &[u8]) -> Message
        ensures { result ≡ holding counter (take max_payload payload.now) }
    {
        Message {
            stamp: counter,
            len: at_most_payload(payload.len()) as u8,
            held: true,
            confirmed: false,
            bytes: pad(payload),
        }
    }

    // Not held, and kept for the frame that is pending.
    pub(crate) fn keeping(payload: &[u8]) -> Message
        ensures { result ≡ keeping (take max_payload payload.now) }
    {
        Message {
            stamp: 0,
            len: at_most_payload(payload.len()) as u8,
            held: false,
            confirmed: false,
            bytes: pad(payload),
        }
    }

    // The length of the payload, which has at most eight bytes.
    pub fn payload_length(self) -> usize
        ensures { result ≡ length (payload_of self) }
    {
        at_most_payload(usize::from(self.len))
    }

    // Whether a payload has the message's length and bytes.
    pub fn same(self, payload: &[u8]) -> bool
        ensures { result ≡ same self payload.now }
    {
        let len = usize::from(self.len);
        if payload.len() != len {
            return false;
        }
        if len > Message::MAX_LEN {
            return false;
        }
        // By index: `==` of slices brings a comparison of any length into the C file, most of which no payload comes to.
        for i in 0..len {
            if self.bytes[i] != payload[i] {
                return false;
            }
        }
        true
    }
}

// The first eight bytes of a payload, with zeros after it where it is shorter.
pub fn pad(payload: &[u8]) -> [u8; Message::MAX_LEN]
    ensures { result ≡ padded (take max_payload payload.now) }
{
    let mut bytes = [0; Message::MAX_LEN];
    copy(&mut bytes, payload);
    bytes
}

// Which frames are pending; the flags are kept, since C has them so.
#[repr(C)]
#[derive(Clone, Copy, Debug, Eq, PartialEq)]
pub struct Pending {
    // The frame with the payload: data, or the plain frame.
    pub payload: bool,
    pub confirmation: bool,
    pub abort: bool,
}

impl Pending {
    pub const NONE: Pending = Pending {
        payload: false,
        confirmation: false,
        abort: false,
    };

    // The frame with the payload, and the confirmation where there is one.
    pub(crate) fn to_send(confirmation: bool) -> Pending
        ensures { result ≡ to_send confirmation }
    {
        Pending {
            payload: true,
            confirmation,
            abort: false,
        }
    }

    // Whether any frame is pending.
    pub fn any(self) -> bool
        ensures { result ≡ has_pending self }
    {
        self.payload | self.confirmation | self.abort
    }
}

// Fields in their order, as C has them. `used` is kept beside the stream, and not as an Option: C has it so.
#[repr(C)]
#[derive(Clone, Copy, Debug, Eq, PartialEq)]
pub struct Slot {
    pub stream: Stream,
    pub settings: Settings,
    pub message: Message,
    pub pending: Pending,
    pub used: bool,
}

impl Slot {
    // A const has no contract: `empty` promises what it is.
    pub const EMPTY: Slot = Slot {
        stream: Stream(0),
        settings: Settings::NONE,
        message: Message::NONE,
        pending: Pending::NONE,
        used: false,
    };

    pub fn empty() -> Slot
        ensures { result ≡ empty }
    {
        Slot::EMPTY
    }

    // The slot of a stream that was just set up.
    pub fn set_up(stream: Stream, settings: Settings) -> Slot
        ensures { result ≡ slot_for stream settings }
    {
        Slot {
            stream,
            settings,
            message: Message::NONE,
            pending: Pending::NONE,
            used: true,
        }
    }

    pub fn is_free(self) -> bool
        ensures { result ≡ is_free self }
    {
        !self.used
    }

    pub fn is_of(self, stream: Stream) -> bool
        ensures { result ≡ is_of stream self }
    {
        self.used & (self.stream == stream)
    }

    pub fn is_receiver(self) -> bool
        ensures { result ≡ is_receiver self }
    {
        self.used & (self.settings.role == Settings::RECEIVE)
    }

    pub fn is_sender(self) -> bool
        ensures { result ≡ is_sender self }
    {
        self.used & (self.settings.role == Settings::SEND)
    }
}
