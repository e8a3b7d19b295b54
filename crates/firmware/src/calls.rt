// The node's calls for C. The node goes in and comes back by value, and the reply is its number.
ghost use Rattle.std.specs.Prelude.{◌≡◌};
ghost use Rattle.wire.specs.Delivered.{over};
ghost use Rattle.node.specs.Nodes.{fresh};
ghost use Rattle.node.specs.Clock.{rolled};
ghost use Rattle.node.specs.SetUp.{set_up};
ghost use Rattle.node.specs.Hear.{hear};
ghost use Rattle.node.specs.Tick.{tick};
ghost use Rattle.node.specs.Request.{request};
ghost use Rattle.node.specs.NextFrame.{next_frame};
ghost use Rattle.firmware.specs.Answers.{answered_c, heard_c, ticked_c, given_c};
ghost use Rattle.firmware.specs.Judged.{in_numbers};

use crate::answers::{NOTHING_GIVEN, NOTHING_HEARD, NOTHING_TICKED, number_of};
use crate::judged::{SettingsC, dlc_of, settings_of};
use node::Node;
use wire::ids::{BusId, Stream};

// What set up and request answer.
#[repr(C)]
#[derive(Clone, Copy)]
pub struct AnsweredC {
    pub node: Node,
    pub reply: u32,
}

// What hear answers.
#[repr(C)]
#[derive(Clone, Copy)]
pub struct HeardC {
    pub node: Node,
    pub reply: u32,
    pub told: u32,
    pub written: usize,
}

// What tick answers.
#[repr(C)]
#[derive(Clone, Copy)]
pub struct TickedC {
    pub node: Node,
    pub reply: u32,
    pub dropped: u32,
    pub delivered: u32,
    pub written: usize,
}

// What next frame answers.
#[repr(C)]
#[derive(Clone, Copy)]
pub struct GivenC {
    pub node: Node,
    pub reply: u32,
    pub id: u32,
    pub len: usize,
}

#[unsafe(no_mangle)]
pub extern "C" fn kosmydore_fresh() -> Node
    ensures { result ≡ fresh }
{
    Node::fresh()
}

#[tactic(auto, using(crate::proofs::Judging::set_up_so, crate::proofs::Answering::number_so))]
#[unsafe(no_mangle)]
pub extern "C" fn kosmydore_set_up(mut node: Node, stream: u32, settings: SettingsC) -> AnsweredC
    ensures { result ≡ answered_c (set_up (record { 0 = stream }) (in_numbers settings) node) }
{
    let answer = node.set_up(Stream(stream), settings_of(settings));
    let reply = number_of(&answer);
    AnsweredC { node, reply }
}

#[tactic(auto, using(crate::proofs::Judging::heard_so, crate::proofs::Answering::number_so))]
#[unsafe(no_mangle)]
pub extern "C" fn kosmydore_hear(
    mut node: Node,
    id: u32,
    dlc: u32,
    payload: &[u8],
    out: &mut [u8],
) -> HeardC
    ensures { (result ≡ heard_c (hear (record { 0 = id }) dlc payload.now out.old node))
        × (out.new ≡ over (hear (record { 0 = id }) dlc payload.now out.old node).bytes out.old) }
{
    let answer = node.hear(BusId(id), dlc_of(dlc), payload, out);
    let reply = number_of(&answer);
    let heard = answer.unwrap_or(NOTHING_HEARD);
    HeardC {
        node,
        reply,
        told: heard.told.number(),
        written: heard.written,
    }
}

#[tactic(auto, using(crate::proofs::Answering::number_so))]
#[unsafe(no_mangle)]
pub extern "C" fn kosmydore_tick(mut node: Node, out: &mut [u8]) -> TickedC
    ensures { (result ≡ ticked_c (tick rolled out.old node))
        × (out.new ≡ over (tick rolled out.old node).bytes out.old) }
{
    let answer = node.tick(out);
    let reply = number_of(&answer);
    let ticked = answer.unwrap_or(NOTHING_TICKED);
    TickedC {
        node,
        reply,
        dropped: ticked.dropped,
        delivered: ticked.delivered,
        written: ticked.written,
    }
}

#[tactic(auto, using(crate::proofs::Answering::number_so))]
#[unsafe(no_mangle)]
pub extern "C" fn kosmydore_request(mut node: Node, stream: u32, payload: &[u8]) -> AnsweredC
    ensures { result ≡ answered_c (request (record { 0 = stream }) payload.now node) }
{
    let answer = node.request(Stream(stream), payload);
    let reply = number_of(&answer);
    AnsweredC { node, reply }
}

#[tactic(auto, using(crate::proofs::Answering::number_so))]
#[unsafe(no_mangle)]
pub extern "C" fn kosmydore_next_frame(mut node: Node, out: &mut [u8]) -> GivenC
    ensures { (result ≡ given_c (next_frame out.old node))
        × (out.new ≡ over (next_frame out.old node).bytes out.old) }
{
    let answer = node.next_frame(out);
    let reply = number_of(&answer);
    let given = answer.unwrap_or(NOTHING_GIVEN);
    GivenC {
        node,
        reply,
        id: given.id.0,
        len: given.len,
    }
}
