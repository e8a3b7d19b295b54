// The calls for the modules' firmware: the node stands in bytes that the firmware owns and lends, and the
// reply of each call is counted in a lent tally. The node is not copied, and an answer is small.
ghost use Rattle.std.specs.Prelude.{◌≡◌};
ghost use Rattle.wire.specs.Replies.{number_of};
ghost use Rattle.wire.specs.Delivered.{over};
ghost use Rattle.node.specs.Calls.{Call};
ghost use Rattle.node_bytes.specs.Lent.{fresh_reply, fresh_in};
ghost use Rattle.node_bytes.specs.LentCalls.{lent_outcome, Leaves};
ghost use Rattle.module.specs.Tallies.{has_count, counted_in};
ghost use Rattle.firmware.specs.Judged.{in_numbers};
ghost use Rattle.firmware.specs.Lent.{lent_heard_c, lent_ticked_c, given_out_c, Counts};

use crate::answers::{NOTHING_GIVEN, NOTHING_HEARD, NOTHING_TICKED, counted, number_of};
use crate::judged::{SettingsC, dlc_of, settings_of};
use module::tally::count_in;
use node_bytes::fresh::fresh;
use node_bytes::hear::hear;
use node_bytes::next_frame::next_frame;
use node_bytes::request::request;
use node_bytes::set_up::set_up;
use node_bytes::tick::tick;
use wire::ids::{BusId, Stream};

// What hear answers.
#[repr(C)]
#[derive(Clone, Copy)]
pub struct LentHeardC {
    pub reply: u32,
    pub told: u32,
    pub written: usize,
}

// What tick answers.
#[repr(C)]
#[derive(Clone, Copy)]
pub struct LentTickedC {
    pub reply: u32,
    pub dropped: u32,
    pub delivered: u32,
    pub written: usize,
}

// What next frame answers.
#[repr(C)]
#[derive(Clone, Copy)]
pub struct GivenOutC {
    pub reply: u32,
    pub id: u32,
    pub len: usize,
}

// Counts a reply of another call, by its number; whether it has a count in the tally.
#[unsafe(no_mangle)]
pub extern "C" fn kosmydore_count(tally: &mut [u32], reply: u32) -> bool
    ensures answer { result ≡ has_count reply tally.old }
    ensures tally { tally.new ≡ counted_in reply tally.old }
{
    count_in(tally, reply)
}

// Writes the node before any call.
#[tactic(auto, using(crate::proofs::Answering::number_so))]
#[unsafe(no_mangle)]
pub extern "C" fn kosmydore_module_fresh(bytes: &mut [u8]) -> u32
    ensures answer { result ≡ number_of (fresh_reply bytes.old) }
    ensures bytes { bytes.new ≡ fresh_in bytes.old }
{
    number_of(&fresh(bytes))
}

#[tactic(auto, using(crate::proofs::LentAnswering::lent_set_up_so, crate::proofs::LentAnswering::leaves_so, crate::proofs::Answering::number_so))]
#[unsafe(no_mangle)]
pub extern "C" fn kosmydore_module_set_up(
    bytes: &mut [u8],
    stream: u32,
    settings: SettingsC,
    tally: &mut [u32],
) -> u32
    ensures answer { result ≡ number_of (lent_outcome (Call.set_up (record { 0 = stream }) (in_numbers settings)) bytes.old).reply }
    ensures bytes { Leaves (Call.set_up (record { 0 = stream }) (in_numbers settings)) bytes.old bytes.new }
    ensures tally { Counts (Call.set_up (record { 0 = stream }) (in_numbers settings))
        bytes.old tally.old tally.new }
{
    let answer = set_up(bytes, Stream(stream), settings_of(settings));
    counted(tally, &answer)
}

#[tactic(auto, using(crate::proofs::LentAnswering::lent_heard_so, crate::proofs::LentAnswering::leaves_so, crate::proofs::Answering::number_so))]
#[unsafe(no_mangle)]
pub extern "C" fn kosmydore_module_hear(
    bytes: &mut [u8],
    id: u32,
    dlc: u32,
    payload: &[u8],
    out: &mut [u8],
    tally: &mut [u32],
) -> LentHeardC
    ensures answer { result
        ≡ lent_heard_c (lent_outcome (Call.hear (record { 0 = id }) dlc payload.now out.old) bytes.old) }
    ensures output { out.new
        ≡ over (lent_outcome (Call.hear (record { 0 = id }) dlc payload.now out.old) bytes.old).bytes
        out.old }
    ensures bytes { Leaves (Call.hear (record { 0 = id }) dlc payload.now out.old)
        bytes.old bytes.new }
    ensures tally { Counts (Call.hear (record { 0 = id }) dlc payload.now out.old)
        bytes.old tally.old tally.new }
{
    let answer = hear(bytes, BusId(id), dlc_of(dlc), payload, out);
    let reply = counted(tally, &answer);
    let heard = answer.unwrap_or(NOTHING_HEARD);
    LentHeardC {
        reply,
        told: heard.told.number(),
        written: heard.written,
    }
}

#[tactic(auto, using(crate::proofs::Answering::number_so))]
#[unsafe(no_mangle)]
pub extern "C" fn kosmydore_module_tick(
    bytes: &mut [u8],
    out: &mut [u8],
    tally: &mut [u32],
) -> LentTickedC
    ensures answer { result ≡ lent_ticked_c (lent_outcome (Call.tick out.old) bytes.old) }
    ensures output { out.new
        ≡ over (lent_outcome (Call.tick out.old) bytes.old).bytes out.old }
    ensures bytes { Leaves (Call.tick out.old) bytes.old bytes.new }
    ensures tally { Counts (Call.tick out.old) bytes.old tally.old tally.new }
{
    let answer = tick(bytes, out);
    let reply = counted(tally, &answer);
    let ticked = answer.unwrap_or(NOTHING_TICKED);
    LentTickedC {
        reply,
        dropped: ticked.dropped,
        delivered: ticked.delivered,
        written: ticked.written,
    }
}

#[tactic(auto, using(crate::proofs::Answering::number_so))]
#[unsafe(no_mangle)]
pub extern "C" fn kosmydore_module_request(
    bytes: &mut [u8],
    stream: u32,
    payload: &[u8],
    tally: &mut [u32],
) -> u32
    ensures answer { result ≡ number_of (lent_outcome (Call.request (record { 0 = stream }) payload.now) bytes.old).reply }
    ensures bytes { Leaves (Call.request (record { 0 = stream }) payload.now) bytes.old bytes.new }
    ensures tally { Counts (Call.request (record { 0 = stream }) payload.now)
        bytes.old tally.old tally.new }
{
    let answer = request(bytes, Stream(stream), payload);
    counted(tally, &answer)
}

#[tactic(auto, using(crate::proofs::Answering::number_so))]
#[unsafe(no_mangle)]
pub extern "C" fn kosmydore_module_next_frame(
    bytes: &mut [u8],
    out: &mut [u8],
    tally: &mut [u32],
) -> GivenOutC
    ensures answer { result ≡ given_out_c (lent_outcome (Call.next_frame out.old) bytes.old) }
    ensures output { out.new
        ≡ over (lent_outcome (Call.next_frame out.old) bytes.old).bytes out.old }
    ensures bytes { Leaves (Call.next_frame out.old) bytes.old bytes.new }
    ensures tally { Counts (Call.next_frame out.old) bytes.old tally.old tally.new }
{
    let answer = next_frame(bytes, out);
    let reply = counted(tally, &answer);
    let given = answer.unwrap_or(NOTHING_GIVEN);
    GivenOutC {
        reply,
        id: given.id.0,
        len: given.len,
    }
}
