// What a bus bears.
ghost use Rattle.response.specs.Streams.{Legal};

use crate::streams::{Errors, StreamRecord};

// A list of streams and the errors, within their limits.
#[derive(Clone, Copy)]
pub(crate) struct Load<'a> {
    pub streams: &'a [StreamRecord],
    pub errors: Errors,
    ghost legal: { Legal streams.now errors },
}
