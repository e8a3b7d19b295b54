// Hearing a frame, on a lent node.
ghost use Rattle.std.specs.Prelude.{◌≡◌};
ghost use Rattle.wire.specs.Delivered.{over};
ghost use Rattle.node.specs.Nodes.{as_heard};
ghost use Rattle.node.specs.Calls.{Call};
ghost use Rattle.node_bytes.specs.LentCalls.{lent_outcome, Leaves};

use crate::counter::counter_of;
use crate::finding::find;
use crate::layout;
use crate::slots::{put_parts, slot_at};
use node::hear::deliver_plain;
use node::{Heard, Node};
use wire::frame::check_frame;
use wire::ids::BusId;
use wire::reply::Reply;

// Takes in a frame that the controller received.
pub fn hear(
    bytes: &mut [u8],
    id: BusId,
    dlc: u8,
    payload: &[u8],
    out: &mut [u8],
) -> Result<Heard, Reply>
    ensures answer { result ≡ as_heard (lent_outcome (Call.hear id dlc payload.now out.old) bytes.old) }
    ensures output { out.new
        ≡ over (lent_outcome (Call.hear id dlc payload.now out.old) bytes.old).bytes out.old }
    ensures leaves { Leaves (Call.hear id dlc payload.now out.old) bytes.old bytes.new }
{
    if bytes.len() != layout::NODE_SIZE {
        return Err(Reply::BadLength);
    }
    if out.len() < Node::HEAR_ROOM {
        return Err(Reply::ShortOutput);
    }
    check_frame(id.is_bare(), id, dlc, payload)?;
    let (stream, code) = id.split()?;
    let i = find(bytes, stream).ok_or(Reply::NotMine)?;
    let slot = slot_at(bytes, i);
    slot.check_hear(code, payload)?;
    let told = slot.told(code);
    let heard = slot.hear(counter_of(bytes), code, payload);
    put_parts(bytes, i, heard.message, heard.pending);
    let written = deliver_plain(out, stream, code, payload);
    Ok(Heard { written, told })
}
