// A slot of a node in its bytes.
ghost use Rattle.std.specs.Prelude.{◌≡◌, ◌+◌, ◌*◌, ◌≤◌, ◌<◌, length, true};
ghost use Rattle.std.proofs.lemmas.List.Edits.{sets};
ghost use Rattle.node.specs.Slots.{is_free, is_of, frames, with_parts, with_message};
ghost use Rattle.node.specs.Nodes.{slot_count};
ghost use Rattle.node.specs.Request.{has_pending};
ghost use Rattle.node.specs.NextFrame.{has_frame};
ghost use Rattle.node.proofs.set_up.Placing.{is_after};
ghost use Rattle.node_bytes.specs.Layout.{slot_start, slot_size, node_size};
ghost use Rattle.node_bytes.specs.Decoding.{settings_from, message_from, pending_from, slot_at, decode};
ghost use Rattle.node_bytes.specs.Lent.{is_node, read_slot, store_slot, with_slot};
ghost use Rattle.node_bytes.specs.Encoding.{key_row, state_row, reach_row, encode_slot};

use crate::layout;
use crate::layout::is_slot;
use crate::numbers::{eight_at, flag, flag_at, four_at, put_eight, put_flag, put_two, two_at};
use node::slots::{Message, Pending, Slot};
use wire::ids::Stream;
use wire::settings::Settings;

// ── for every buffer and every index ──
// Kept without a refusal: each promises what it reads where there is no such slot (specs/Lent.antt).

// Slot i, or the empty slot where there is none.
pub fn read_slot(bytes: &[u8], i: usize) -> Slot
    ensures { result ≡ read_slot bytes.now i }
{
    if is_slot(bytes.len(), i) {
        return slot_at(bytes, i);
    }
    Slot::empty()
}

// Sets slot i, and nothing where there is none.
pub fn store_slot(bytes: &mut [u8], i: usize, slot: Slot)
    ensures bytes { bytes.new ≡ store_slot i slot bytes.old }
    ensures decoded { is_node bytes.old ≡ true
        → decode bytes.new ≡ with_slot i slot (decode bytes.old) }
{
    if is_slot(bytes.len(), i) {
        put_slot(bytes, i, slot);
    }
}

// Whether slot i is in use for this stream.
pub fn is_of(bytes: &[u8], i: usize, stream: Stream) -> bool
    ensures { result ≡ is_of stream (read_slot bytes.now i) }
{
    if is_slot(bytes.len(), i) {
        return of_at(bytes, i, stream);
    }
    false
}

pub fn is_free(bytes: &[u8], i: usize) -> bool
    ensures { result ≡ is_free (read_slot bytes.now i) }
{
    if is_slot(bytes.len(), i) {
        return free_at(bytes, i);
    }
    true
}

// Whether any frame is pending in slot i.
pub fn has_pending(bytes: &[u8], i: usize) -> bool
    ensures { result ≡ has_pending (read_slot bytes.now i).pending }
{
    if is_slot(bytes.len(), i) {
        return pending_at(bytes, i);
    }
    false
}

// Whether slot i holds a message.
pub fn is_held(bytes: &[u8], i: usize) -> bool
    ensures { result ≡ (read_slot bytes.now i).message.held }
{
    if is_slot(bytes.len(), i) {
        return held_at(bytes, i);
    }
    false
}

// The counter when it was taken up.
pub fn stamp(bytes: &[u8], i: usize) -> u16
    ensures { result ≡ (read_slot bytes.now i).message.stamp }
{
    if is_slot(bytes.len(), i) {
        return stamp_at(bytes, i);
    }
    0
}

// ── for a slot that is there ──

pub(crate) fn slot_at(bytes: &[u8], i: usize) -> Slot
    requires { (length bytes.now ≡ node_size) × (i < slot_count) }
    ensures { result ≡ slot_at bytes.now i }
{
    let at = layout::SLOT_SIZE * i;
    Slot {
        stream: Stream(four_at(bytes, layout::STREAM + at)),
        settings: settings_from(bytes, at),
        message: message_from(bytes, at),
        pending: pending_from(bytes, at),
        used: flag_at(bytes, layout::USED + at),
    }
}

// Whether slot i is in use for this stream: most are of another, and of these the stream alone is read.
pub(crate) fn of_at(bytes: &[u8], i: usize, stream: Stream) -> bool
    requires { (length bytes.now ≡ node_size) × (i < slot_count) }
    ensures { result ≡ is_of stream (slot_at bytes.now i) }
{
    let at = layout::SLOT_SIZE * i;
    if four_at(bytes, layout::STREAM + at) != stream.0 {
        return false;
    }
    flag_at(bytes, layout::USED + at)
}

pub(crate) fn free_at(bytes: &[u8], i: usize) -> bool
    requires { (length bytes.now ≡ node_size) × (i < slot_count) }
    ensures { result ≡ is_free (slot_at bytes.now i) }
{
    !flag_at(bytes, layout::USED + layout::SLOT_SIZE * i)
}

// Whether a slot of this stream is to stand before slot i: it is free, or its stream is higher.
pub(crate) fn after_at(bytes: &[u8], i: usize, stream: Stream) -> bool
    requires { (length bytes.now ≡ node_size) × (i < slot_count) }
    ensures { result ≡ is_after stream (slot_at bytes.now i) }
{
    let at = layout::SLOT_SIZE * i;
    !flag_at(bytes, layout::USED + at) | (stream.0 < four_at(bytes, layout::STREAM + at))
}

pub(crate) fn pending_at(bytes: &[u8], i: usize) -> bool
    requires { (length bytes.now ≡ node_size) × (i < slot_count) }
    ensures { result ≡ has_pending (slot_at bytes.now i).pending }
{
    let p = pending_from(bytes, layout::SLOT_SIZE * i);
    p.any()
}

// Whether a frame of slot i is pending: most slots have none, and of these the flags alone are read.
pub(crate) fn frame_at(bytes: &[u8], i: usize) -> bool
    requires { (length bytes.now ≡ node_size) × (i < slot_count) }
    ensures { result ≡ has_frame (slot_at bytes.now i) }
{
    if !pending_at(bytes, i) {
        return false;
    }
    let s = slot_at(bytes, i);
    s.has_frame()
}

// One for each field, since each promises the field of the slot that it reads.
pub(crate) fn held_at(bytes: &[u8], i: usize) -> bool
    requires { (length bytes.now ≡ node_size) × (i < slot_count) }
    ensures { result ≡ (slot_at bytes.now i).message.held }
{
    flag_at(bytes, layout::HELD + layout::SLOT_SIZE * i)
}

pub(crate) fn stamp_at(bytes: &[u8], i: usize) -> u16
    requires { (length bytes.now ≡ node_size) × (i < slot_count) }
    ensures { result ≡ (slot_at bytes.now i).message.stamp }
{
    two_at(bytes, layout::STAMP + layout::SLOT_SIZE * i)
}

// A role and a class as one number: the class counts 256.
pub(crate) const RECEIVES_IMD: u16 = 256;

pub(crate) const RECEIVES_TWO_MESSAGE: u16 = 512;

// Of slot i. Kept as one number: one test of it is a test of both, in each slot that a tick asks (docs/COST.md).
#[tactic(auto, unfolding(crate::specs::Decoding::slot_from))]
pub(crate) fn kind_at(bytes: &[u8], i: usize) -> u16
    requires { (length bytes.now ≡ node_size) × (i < slot_count) }
    ensures { (result ≡ (slot_at bytes.now i).settings.role + 256 * (slot_at bytes.now i).settings.class)
        × ((slot_at bytes.now i).settings.role ≤ 255) }
{
    let at = layout::SLOT_SIZE * i;
    two_at(bytes, layout::ROLE + at)
}

pub(crate) fn confirmed_at(bytes: &[u8], i: usize) -> bool
    requires { (length bytes.now ≡ node_size) × (i < slot_count) }
    ensures { result ≡ (slot_at bytes.now i).message.confirmed }
{
    flag_at(bytes, layout::CONFIRMED + layout::SLOT_SIZE * i)
}

pub(crate) fn confirm_delay_at(bytes: &[u8], i: usize) -> u16
    requires { (length bytes.now ≡ node_size) × (i < slot_count) }
    ensures { result ≡ (slot_at bytes.now i).settings.dc }
{
    two_at(bytes, layout::CONFIRM_DELAY + layout::SLOT_SIZE * i)
}

pub(crate) fn deliver_delay_at(bytes: &[u8], i: usize) -> u16
    requires { (length bytes.now ≡ node_size) × (i < slot_count) }
    ensures { result ≡ (slot_at bytes.now i).settings.dd }
{
    two_at(bytes, layout::DELIVER_DELAY + layout::SLOT_SIZE * i)
}

// Parts of the slot whose first byte stands at a place.
fn settings_from(bytes: &[u8], at: usize) -> Settings
    requires { slot_size + at ≤ length bytes.now }
    ensures { result ≡ settings_from bytes.now at }
{
    Settings::of(
        bytes[layout::ROLE + at],
        bytes[layout::CLASS + at],
        two_at(bytes, layout::DATA_REACH + at),
        two_at(bytes, layout::CONFIRM_DELAY + at),
        two_at(bytes, layout::ABORT_REACH + at),
        two_at(bytes, layout::DELIVER_DELAY + at),
    )
}

fn message_from(bytes: &[u8], at: usize) -> Message
    requires { slot_size + at ≤ length bytes.now }
    ensures { result ≡ message_from bytes.now at }
{
    Message {
        stamp: two_at(bytes, layout::STAMP + at),
        len: bytes[layout::LEN + at],
        held: flag_at(bytes, layout::HELD + at),
        confirmed: flag_at(bytes, layout::CONFIRMED + at),
        bytes: eight_at(bytes, layout::PAYLOAD + at),
    }
}

fn pending_from(bytes: &[u8], at: usize) -> Pending
    requires { slot_size + at ≤ length bytes.now }
    ensures { result ≡ pending_from bytes.now at }
{
    Pending {
        payload: flag_at(bytes, layout::PAYLOAD_PENDING + at),
        confirmation: flag_at(bytes, layout::CONFIRMATION_PENDING + at),
        abort: flag_at(bytes, layout::ABORT_PENDING + at),
    }
}

// Sets which frames of slot i are pending, of which `old` are so far, and nothing else of it. A flag that stays is not stored.
pub(crate) fn put_pending(bytes: &mut [u8], i: usize, old: Pending, new: Pending)
    requires { (length bytes.old ≡ node_size) × (i < slot_count) × (old ≡ (slot_at bytes.old i).pending) }
    ensures { (length bytes.new ≡ length bytes.old)
        × (decode bytes.new
        ≡ with_slot i (with_parts (slot_at bytes.old i) (slot_at bytes.old i).message new) (decode bytes.old)) }
{
    let at = layout::SLOT_SIZE * i;
    put_flag(
        bytes,
        layout::PAYLOAD_PENDING + at,
        old.payload,
        new.payload,
    );
    put_flag(
        bytes,
        layout::CONFIRMATION_PENDING + at,
        old.confirmation,
        new.confirmation,
    );
    put_flag(bytes, layout::ABORT_PENDING + at, old.abort, new.abort);
}

// Sets whether an abort of slot i is pending, and nothing else of it.
pub(crate) fn put_abort(bytes: &mut [u8], i: usize, abort: bool)
    requires { (length bytes.old ≡ node_size) × (i < slot_count) }
    ensures { (length bytes.new ≡ length bytes.old)
        × (decode bytes.new
        ≡ with_slot i (with_parts (slot_at bytes.old i) (slot_at bytes.old i).message
        (frames (slot_at bytes.old i).pending.payload (slot_at bytes.old i).pending.confirmation abort))
        (decode bytes.old)) }
{
    bytes[layout::ABORT_PENDING + layout::SLOT_SIZE * i] = flag(abort);
}

// Sets the message of slot i, and nothing else of it.
pub(crate) fn put_message(bytes: &mut [u8], i: usize, message: Message)
    requires { (length bytes.old ≡ node_size) × (i < slot_count) }
    ensures { (length bytes.new ≡ length bytes.old)
        × (decode bytes.new ≡ with_slot i (with_message message (slot_at bytes.old i)) (decode bytes.old)) }
{
    let at = layout::SLOT_SIZE * i;
    bytes[layout::HELD + at] = flag(message.held);
    put_two(bytes, layout::STAMP + at, message.stamp);
    bytes[layout::CONFIRMED + at] = flag(message.confirmed);
    bytes[layout::LEN + at] = message.len;
    let payload = message.bytes;
    put_eight(bytes, layout::PAYLOAD + at, payload);
}

// Sets the message of slot i and which frames of it are pending, and nothing else of it. A flag is stored whether it changes or not: to ask
// costs more, where the message is stored too.
pub(crate) fn put_parts(bytes: &mut [u8], i: usize, message: Message, pending: Pending)
    requires { (length bytes.old ≡ node_size) × (i < slot_count) }
    ensures { (length bytes.new ≡ length bytes.old)
        × (decode bytes.new ≡ with_slot i (with_parts (slot_at bytes.old i) message pending) (decode bytes.old)) }
{
    put_message(bytes, i, message);
    let at = layout::SLOT_SIZE * i;
    bytes[layout::PAYLOAD_PENDING + at] = flag(pending.payload);
    bytes[layout::CONFIRMATION_PENDING + at] = flag(pending.confirmation);
    bytes[layout::ABORT_PENDING + at] = flag(pending.abort);
    put_same(bytes, i);
}

// Writes of slot i what `put_slot` writes though the slot is the same: `used` as 1 or 0, and 0 where nothing is read. So the bytes after a
// call are the same, whether the slot is stored whole or in parts.
fn put_same(bytes: &mut [u8], i: usize)
    requires { (length bytes.old ≡ node_size) × (i < slot_count) }
    ensures { (length bytes.new ≡ length bytes.old) × (decode bytes.new ≡ decode bytes.old) }
{
    let at = layout::SLOT_SIZE * i;
    bytes[layout::USED + at] = flag(flag_at(bytes, layout::USED + at));
    bytes[layout::UNREAD + at] = 0;
}

pub(crate) fn put_slot(bytes: &mut [u8], i: usize, slot: Slot)
    requires { (length bytes.old ≡ node_size) × (i < slot_count) }
    ensures { (bytes.new ≡ sets bytes.old (slot_start i) (encode_slot slot))
        × (decode bytes.new ≡ with_slot i slot (decode bytes.old)) }
{
    let at = layout::SLOT_SIZE * i;
    put_eight(bytes, layout::STREAM + at, key_row(slot));
    put_eight(bytes, layout::PAYLOAD_PENDING + at, state_row(slot));
    put_eight(bytes, layout::DATA_REACH + at, reach_row(slot.settings));
    let payload = slot.message.bytes;
    put_eight(bytes, layout::PAYLOAD + at, payload);
}

// Copies slot i to the next one.
pub(crate) fn copy_up(bytes: &mut [u8], i: usize)
    requires { (length bytes.old ≡ node_size) × (i + 1 < slot_count) }
    ensures { (length bytes.new ≡ node_size)
        × (decode bytes.new ≡ with_slot (i + 1) (slot_at bytes.old i) (decode bytes.old)) }
{
    let from = layout::SLOT_SIZE * i;
    let to = layout::SLOT_SIZE + from;
    let key = eight_at(bytes, layout::STREAM + from);
    let state = eight_at(bytes, layout::PAYLOAD_PENDING + from);
    let reach = eight_at(bytes, layout::DATA_REACH + from);
    let payload = eight_at(bytes, layout::PAYLOAD + from);
    put_eight(bytes, layout::STREAM + to, key);
    put_eight(bytes, layout::PAYLOAD_PENDING + to, state);
    put_eight(bytes, layout::DATA_REACH + to, reach);
    put_eight(bytes, layout::PAYLOAD + to, payload);
}

fn key_row(slot: Slot) -> [u8; 8]
    ensures { result ≡ key_row slot }
{
    let s = slot.stream.0.to_le_bytes();
    let stamp = slot.message.stamp.to_le_bytes();
    [
        s[0],
        s[1],
        s[2],
        s[3],
        flag(slot.used),
        flag(slot.message.held),
        stamp[0],
        stamp[1],
    ]
}

fn state_row(slot: Slot) -> [u8; 8]
    ensures { result ≡ state_row slot }
{
    [
        flag(slot.pending.payload),
        flag(slot.pending.confirmation),
        flag(slot.pending.abort),
        flag(slot.message.confirmed),
        slot.message.len,
        slot.settings.role,
        slot.settings.class,
        0,
    ]
}

fn reach_row(settings: Settings) -> [u8; 8]
    ensures { result ≡ reach_row settings }
{
    let rd = settings.rd.to_le_bytes();
    let dc = settings.dc.to_le_bytes();
    let ra = settings.ra.to_le_bytes();
    let dd = settings.dd.to_le_bytes();
    [rd[0], rd[1], dc[0], dc[1], ra[0], ra[1], dd[0], dd[1]]
}
