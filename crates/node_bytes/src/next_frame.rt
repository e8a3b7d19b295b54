// The next frame to hand to the controller, of a lent node.
ghost use Rattle.std.specs.Prelude.{◌≡◌};
ghost use Rattle.wire.specs.Delivered.{over};
ghost use Rattle.node.specs.Nodes.{as_given};
ghost use Rattle.node.specs.Calls.{Call};
ghost use Rattle.node_bytes.specs.LentCalls.{lent_outcome, Leaves};

use crate::finding::find_frame;
use crate::layout;
use crate::slots::{put_pending, slot_at};
use node::next_frame::give_payload;
use node::{Given, Node};
use wire::reply::Reply;

// Gives out the pending frame with the lowest bus identifier, of the first slot that has one; it is pending no longer.
pub fn next_frame(bytes: &mut [u8], out: &mut [u8]) -> Result<Given, Reply>
    ensures answer { result ≡ as_given (lent_outcome (Call.next_frame out.old) bytes.old) }
    ensures output { out.new
        ≡ over (lent_outcome (Call.next_frame out.old) bytes.old).bytes out.old }
    ensures leaves { Leaves (Call.next_frame out.old) bytes.old bytes.new }
{
    if bytes.len() != layout::NODE_SIZE {
        return Err(Reply::BadLength);
    }
    if out.len() < Node::NEXT_ROOM {
        return Err(Reply::ShortOutput);
    }
    let i = find_frame(bytes).ok_or(Reply::Nothing)?;
    let slot = slot_at(bytes, i);
    let code = slot.lowest_code();
    let id = slot.stream.join(code)?;
    let len = give_payload(out, slot, code);
    let given = slot.given_out(code);
    put_pending(bytes, i, slot.pending, given.pending);
    Ok(Given { id, len })
}
