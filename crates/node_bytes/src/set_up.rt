// Setting up a stream, on a lent node.
ghost use Rattle.std.specs.Prelude.{◌≡◌, ◌≤◌, ◌<◌, length};
ghost use Rattle.node.specs.Slots.{is_free};
ghost use Rattle.node.specs.Nodes.{slot_count, with_slots, as_answered};
ghost use Rattle.node.specs.Calls.{Call};
ghost use Rattle.node.proofs.slots.Finding.{index_of};
ghost use Rattle.node.proofs.set_up.Placing.{moved_up};
ghost use Rattle.node_bytes.specs.Layout.{node_size};
ghost use Rattle.node_bytes.specs.Decoding.{decode};
ghost use Rattle.node_bytes.specs.LentCalls.{lent_outcome, Leaves};

use crate::finding::{find, find_free, find_place};
use crate::layout;
use crate::slots::{copy_up, put_slot};
use node::Node;
use node::slots::Slot;
use wire::ids::Stream;
use wire::reply::Reply;
use wire::settings::Settings;

// Gives a stream a slot, with its settings.
pub fn set_up(bytes: &mut [u8], stream: Stream, settings: Settings) -> Result<(), Reply>
    ensures answer { result ≡ as_answered (lent_outcome (Call.set_up stream settings) bytes.old) }
    ensures leaves { Leaves (Call.set_up stream settings) bytes.old bytes.new }
{
    if bytes.len() != layout::NODE_SIZE {
        return Err(Reply::BadLength);
    }
    if !settings.legal(stream) {
        return Err(Reply::BadSettings);
    }
    if find(bytes, stream).is_some() {
        return Err(Reply::Taken);
    }
    let free = find_free(bytes).ok_or(Reply::TableFull)?;
    let place = find_place(bytes, stream).unwrap_or(free);
    move_up(bytes, place, free);
    put_slot(bytes, place, Slot::set_up(stream, settings));
    Ok(())
}

// Moves the slots from a place on up, to the first free slot.
fn move_up(bytes: &mut [u8], place: usize, free: usize)
    requires { (length bytes.old ≡ node_size) × (place ≤ free) × (free < slot_count) × (free ≡ index_of is_free (decode bytes.old).slots) }
    ensures { (length bytes.new ≡ node_size)
        × (decode bytes.new ≡ with_slots (moved_up place (decode bytes.old).slots) (decode bytes.old)) }
{
    for i in (place..free).rev() {
        copy_up(bytes, i);
    }
}
