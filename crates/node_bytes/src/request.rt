// A request to send, on a lent node.
ghost use Rattle.std.specs.Prelude.{◌≡◌};
ghost use Rattle.node.specs.Nodes.{as_answered};
ghost use Rattle.node.specs.Calls.{Call};
ghost use Rattle.node_bytes.specs.LentCalls.{lent_outcome, Leaves};

use crate::counter::counter_of;
use crate::finding::find;
use crate::layout;
use crate::slots::{put_parts, slot_at};
use node::slots::Message;
use wire::ids::Stream;
use wire::reply::Reply;

// Takes a message to send on one of the node's own streams.
pub fn request(bytes: &mut [u8], stream: Stream, payload: &[u8]) -> Result<(), Reply>
    ensures answer { result ≡ as_answered (lent_outcome (Call.request stream payload.now) bytes.old) }
    ensures leaves { Leaves (Call.request stream payload.now) bytes.old bytes.new }
{
    if bytes.len() != layout::NODE_SIZE {
        return Err(Reply::BadLength);
    }
    if payload.len() > Message::MAX_LEN {
        return Err(Reply::BadLength);
    }
    let i = find(bytes, stream).ok_or(Reply::NotSender)?;
    let slot = slot_at(bytes, i);
    slot.check_request()?;
    let requested = slot.requested(counter_of(bytes), payload);
    put_parts(bytes, i, requested.message, requested.pending);
    Ok(())
}
