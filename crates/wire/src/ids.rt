// Stream numbers and bus identifiers, two types that are never mixed; join and split go between them.
ghost use Rattle.std.specs.Prelude.{◌≡◌};
ghost use Rattle.wire.specs.Answers.{answered};
ghost use Rattle.wire.specs.Identifiers.{join, split};

use crate::reply::Reply;

#[repr(C)]
#[derive(Clone, Copy, Debug, PartialEq, Eq)]
pub struct Stream(pub u32);

#[derive(Clone, Copy, Debug, PartialEq, Eq)]
pub struct BusId(pub u32);

impl Stream {
    // The highest stream number: 27 bits.
    pub const MAX: u32 = 134217727;

    // The bus identifier of the stream's frames with this code. The code is kept as a number: C hands it over so
    // (`kosmydore_join`), and one above 3 is refused.
    #[tactic(auto, unfolding(crate::specs::Identifiers::join))]
    pub fn join(self, code: u32) -> Result<BusId, Reply>
        ensures { result ≡ answered (join self code).reply (join self code).id }
    {
        if self.0 <= Stream::MAX && code <= 3 {
            return Ok(BusId(self.0 * 4 + code));
        }
        Err(Reply::BadSettings)
    }
}

impl BusId {
    // The highest bus identifier: 29 bits.
    pub const MAX: u32 = 536870911;

    // The stream and the code of a bus identifier. The code is kept as a number, as in `join`: C takes it so.
    #[tactic(auto, unfolding(crate::specs::Identifiers::split))]
    pub fn split(self) -> Result<(Stream, u32), Reply>
        ensures { result ≡ answered (split self).reply ((split self).stream, (split self).code) }
    {
        if self.0 <= BusId::MAX {
            return Ok((Stream(self.0 / 4), self.0 % 4));
        }
        Err(Reply::BadFrame)
    }
}
