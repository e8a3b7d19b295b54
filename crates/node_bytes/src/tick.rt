// A tick of a lent node: the counter moves, what is due is delivered in the order of the slots, and what is late dropped.
ghost use Rattle.std.specs.Prelude.{◌≡◌, cond, ◌<◌, length};
ghost use Rattle.wire.specs.Delivered.{over, fitting};
ghost use Rattle.node.specs.Nodes.{slot_count, as_ticked};
ghost use Rattle.node.specs.Clock.{rolled};
ghost use Rattle.node.specs.Tick.{late, due, lapsed, delivered, age_of, record_from};
ghost use Rattle.node.specs.Calls.{Call};
ghost use Rattle.node_bytes.specs.Layout.{node_size};
ghost use Rattle.node_bytes.specs.Decoding.{slot_at, decode};
ghost use Rattle.node_bytes.specs.Lent.{with_slot};
ghost use Rattle.node_bytes.specs.declared.tick.Lapse.TheVariants.{Stays, Dropped, Due};
ghost use Rattle.node_bytes.specs.LentCalls.{lent_outcome, Leaves};

use crate::counter::{counter_of, put_counter};
use crate::layout;
use crate::slots::{
    RECEIVES_IMD, RECEIVES_TWO_MESSAGE, confirm_delay_at, confirmed_at, deliver_delay_at, held_at,
    kind_at, put_abort, put_message, slot_at, stamp_at,
};
use node::tick::{age, next};
use node::{Node, Ticked};
use wire::delivered::write_record;
use wire::reply::Reply;

// Moves the counter by one; what is due is delivered, and what is late dropped.
pub fn tick(bytes: &mut [u8], out: &mut [u8]) -> Result<Ticked, Reply>
    ensures answer { result ≡ as_ticked (lent_outcome (Call.tick out.old) bytes.old) }
    ensures output { out.new
        ≡ over (lent_outcome (Call.tick out.old) bytes.old).bytes out.old }
    ensures leaves { Leaves (Call.tick out.old) bytes.old bytes.new }
{
    if bytes.len() != layout::NODE_SIZE {
        return Err(Reply::BadLength);
    }
    if out.len() < Node::TICK_ROOM {
        return Err(Reply::ShortOutput);
    }
    let now = next(counter_of(bytes));
    put_counter(bytes, now);
    // One pass: the slots before i have lapsed, and the records of those that were due stand before `written`.
    let mut written = 0;
    let mut dropped = 0;
    let mut delivered = 0;
    for i in 0..Node::SLOTS {
        match lapse_at(bytes, i, now) {
            Lapse::Stays => {}
            Lapse::Dropped => dropped += 1,
            Lapse::Due => {
                written += deliver_at(bytes, i, &mut out[written..]);
                delivered += 1;
            }
        }
    }
    Ok(Ticked {
        written,
        dropped,
        delivered,
    })
}

// What becomes of a slot's message at a tick. One that is due still stands there.
#[derive(Clone, Copy)]
pub(crate) enum Lapse {
    Stays,
    Dropped,
    Due,
}

// Whether the message of slot i is due now; where it is not, the slot lapses: what is late is dropped, and a hold that is over ends. What
// the slot itself says is asked only where it may say so: of the others a byte or a delay is read, and no more.
fn lapse_at(bytes: &mut [u8], i: usize, counter: u16) -> Lapse
    requires { (length bytes.old ≡ node_size) × (i < slot_count) }
    ensures { (result ≡ cond (due (age_of rolled counter (slot_at bytes.old i)) (slot_at bytes.old i)) Due
        (cond (late (age_of rolled counter (slot_at bytes.old i)) (slot_at bytes.old i)) Dropped Stays))
        × (length bytes.new ≡ length bytes.old)
        × (decode bytes.new
        ≡ with_slot i
        (cond (due (age_of rolled counter (slot_at bytes.old i)) (slot_at bytes.old i)) (slot_at bytes.old i)
        (lapsed (age_of rolled counter (slot_at bytes.old i)) (slot_at bytes.old i)))
        (decode bytes.old)) }
{
    if !held_at(bytes, i) {
        return Lapse::Stays;
    }
    let a = age(counter, stamp_at(bytes, i));
    let kind = kind_at(bytes, i);
    if kind == RECEIVES_TWO_MESSAGE {
        if confirmed_at(bytes, i) {
            if a <= deliver_delay_at(bytes, i) {
                return Lapse::Stays;
            }
            let confirmed = slot_at(bytes, i);
            return due_or_stays(confirmed.due(a));
        }
        if a <= confirm_delay_at(bytes, i) {
            return Lapse::Stays;
        }
        let waiting = slot_at(bytes, i);
        if !waiting.late(a) {
            return Lapse::Stays;
        }
        let t = waiting.dropped();
        put_message(bytes, i, t.message);
        put_abort(bytes, i, t.pending.abort);
        return Lapse::Dropped;
    }
    if a <= deliver_delay_at(bytes, i) {
        return Lapse::Stays;
    }
    let old = slot_at(bytes, i);
    if kind == RECEIVES_IMD {
        return due_or_stays(old.due(a));
    }
    if !old.hold_over(a) {
        return Lapse::Stays;
    }
    let t = old.hold_ended();
    put_message(bytes, i, t.message);
    Lapse::Stays
}

fn due_or_stays(due: bool) -> Lapse
    ensures { result ≡ cond due Due Stays }
{
    if due { Lapse::Due } else { Lapse::Stays }
}

// The message of slot i is gone, and its record stands at the front of the output, where it fits; answers how many bytes were written,
// a number as `write_record` answers it.
fn deliver_at(bytes: &mut [u8], i: usize, out: &mut [u8]) -> usize
    requires { (length bytes.old ≡ node_size) × (i < slot_count) }
    ensures { (length bytes.new ≡ length bytes.old)
        × (decode bytes.new ≡ with_slot i (delivered (slot_at bytes.old i)) (decode bytes.old))
        × (result ≡ length (fitting (record_from (slot_at bytes.old i)) out.old))
        × (out.new ≡ over (fitting (record_from (slot_at bytes.old i)) out.old) out.old) }
{
    let old = slot_at(bytes, i);
    let t = old.delivered();
    put_message(bytes, i, t.message);
    let payload = old.message.bytes;
    let n = old.message.payload_length();
    write_record(out, old.stream, &payload[..n])
}
