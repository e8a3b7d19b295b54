// The node before any call, in its bytes.
ghost use Rattle.std.specs.Prelude.{◌≡◌, length, replicate};
ghost use Rattle.wire.specs.Answers.{answered};
ghost use Rattle.node_bytes.specs.Lent.{fresh_reply, fresh_in};

use crate::layout::is_node;
use wire::reply::Reply;

// Writes it. A buffer of another length than a node's is refused as BadLength, and left as it is.
pub fn fresh(bytes: &mut [u8]) -> Result<(), Reply>
    ensures answer { result ≡ answered (fresh_reply bytes.old) tt }
    ensures bytes { bytes.new ≡ fresh_in bytes.old }
{
    if is_node(bytes.len()) {
        clear(bytes);
        return Ok(());
    }
    Err(Reply::BadLength)
}

fn clear(bytes: &mut [u8])
    ensures { bytes.new ≡ replicate (length bytes.old) 0 }
{
    bytes.fill(0);
}
