// Why a heard record is not read, or not written: the numbered replies other than 0, which stands for done.
ghost use Rattle.std.specs.Prelude.{◌≡◌};
ghost use Rattle.heard.specs.Replies.{refusal_number, number_of};
ghost use Rattle.heard.specs.Answers.{reply_in};

use std::error::Error;
use std::fmt;

#[derive(Clone, Copy, Debug, PartialEq, Eq)]
pub enum Reply {
    ShortOutput = 11,
    // Fewer than four bytes are left, or fewer than the length says.
    CutRecord = 15,
    UnknownKind = 16,
    // A length that no payload of at most eight bytes gives, or a payload above that.
    BadRecordLength = 17,
}

impl Reply {
    // Its number. Kept as a method, beside no `From`: `u32::from` would not say which number.
    pub fn number(self) -> u32
        ensures { result ≡ refusal_number self }
    {
        self as u32
    }
}

// The number of an answer's reply: why not, or that of done.
pub fn number_of<T>(answer: &Result<T, Reply>) -> u32
    ensures { result ≡ number_of (reply_in answer.now) }
{
    match answer {
        Ok(_) => 0,
        Err(reply) => reply.number(),
    }
}

impl fmt::Display for Reply {
    ghost use Rattle.std.specs.Prelude.{Some};
    ghost use Rattle.heard.specs.Replies.{words_of};

    ghost output = { λ reply. Some (words_of reply) };

    fn fmt<W: fmt::Write>(&self, f: &mut fmt::Formatter<W>) -> fmt::Result {
        f.write_str(match self {
            Reply::ShortOutput => "the output is too short",
            Reply::CutRecord => "the record is cut",
            Reply::UnknownKind => "the record is of an unknown kind",
            Reply::BadRecordLength => "the record has a bad length",
        })
    }
}

impl Error for Reply {}
