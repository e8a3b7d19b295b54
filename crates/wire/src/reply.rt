// The numbered replies.
ghost use Rattle.std.specs.Prelude.{◌≡◌};
ghost use Rattle.wire.specs.Replies.{number_of};

use std::error::Error;
use std::fmt;

// Done is C's 0, and the tally counts it: it is a reply so. No Err has it: `answered` makes it an Ok.
#[derive(Clone, Copy, Debug, PartialEq, Eq)]
pub enum Reply {
    Done = 0,
    BadSettings = 1,
    TableFull = 2,
    Taken = 3,
    BadFrame = 4,
    NotMine = 5,
    Misfit = 6,
    Clash = 7,
    Busy = 8,
    NotSender = 9,
    BadLength = 10,
    ShortOutput = 11,
    Nothing = 12,
    IdentifierTooBig = 18,
    DlcTooBig = 19,
    PayloadLength = 20,
    UnwantedPayload = 21,
}

impl Reply {
    // The rules paper's number of the reply. Kept as a method, beside no `From`: `u32::from` would not say which number.
    pub fn number(self) -> u32
        ensures { result ≡ number_of self }
    {
        self as u32
    }
}

impl fmt::Display for Reply {
    ghost use Rattle.std.specs.Prelude.{Some};
    ghost use Rattle.wire.specs.Replies.{words_of};

    ghost output = { λ reply. Some (words_of reply) };

    fn fmt<W: fmt::Write>(&self, f: &mut fmt::Formatter<W>) -> fmt::Result {
        f.write_str(match self {
            Reply::Done => "done",
            Reply::BadSettings => "a number outside the rules",
            Reply::TableFull => "the table of streams is full",
            Reply::Taken => "the stream has a slot already",
            Reply::BadFrame => "no bus identifier",
            Reply::NotMine => "no slot receives the stream",
            Reply::Misfit => "the class does not carry the code",
            Reply::Clash => "other bytes than the message held",
            Reply::Busy => "the slot is held or has a frame pending",
            Reply::NotSender => "no slot sends the stream",
            Reply::BadLength => "a length that is not allowed",
            Reply::ShortOutput => "the output is too short",
            Reply::Nothing => "no frame is pending",
            Reply::IdentifierTooBig => "the identifier is too big",
            Reply::DlcTooBig => "the DLC is too big",
            Reply::PayloadLength => "another length than the DLC means",
            Reply::UnwantedPayload => "a payload where none is wanted",
        })
    }
}

impl Error for Reply {}
