// The workloads. A round takes the generator's next number, makes of it what is asked, and asks it of the
// node; the checksum takes in the reply, the values, what is told and two bytes of the output. Only the first `calls` of
// the rounds call the node, so that the cost of the rounds without their calls can be told.
ghost use Rattle.std.specs.Prelude.{◌≤◌};

use crate::asking::Asked;
use crate::starting::{Done, Streams};
use crate::{asking, checksum, starting};
use node::Node;
use node::told::Told;
use wire::ids::{BusId, Stream};
use wire::reply::Reply;

#[derive(Clone, Copy)]
pub enum Work {
    Hear,
    HearLast,
    HearAbsent,
    TickIdle,
    TickOne,
    TickMany,
    TickDropped,
    Request,
    NextOne,
    NextMany,
    NextNone,
    SetUp,
    Mixed,
}

#[derive(Clone, Copy)]
enum Call {
    Hear,
    Tick,
    Request,
    NextFrame,
    SetUp,
}

impl Work {
    pub(crate) fn named(word: &[u8]) -> Option<Work> {
        let work = match word {
            b"hear" => Work::Hear,
            b"hear-last" => Work::HearLast,
            b"hear-absent" => Work::HearAbsent,
            b"tick-idle" => Work::TickIdle,
            b"tick-one" => Work::TickOne,
            b"tick-many" => Work::TickMany,
            b"tick-dropped" => Work::TickDropped,
            b"request" => Work::Request,
            b"next-one" => Work::NextOne,
            b"next-many" => Work::NextMany,
            b"next-none" => Work::NextNone,
            b"set-up" => Work::SetUp,
            b"mixed" => Work::Mixed,
            _ => return None,
        };
        Some(work)
    }
}

// Kept as matches, here and below: which step a workload runs shows in one table for each thing that is asked of it.
fn call_of(work: Work, random: u32) -> Call {
    match work {
        Work::Hear | Work::HearLast | Work::HearAbsent => Call::Hear,
        Work::TickIdle | Work::TickOne | Work::TickMany | Work::TickDropped => Call::Tick,
        Work::Request => Call::Request,
        Work::NextOne | Work::NextMany | Work::NextNone => Call::NextFrame,
        Work::SetUp => Call::SetUp,
        Work::Mixed => any_call(random / 4096 % 16),
    }
}

// Eight ticks, four hears, two next frames, a request and a set up.
fn any_call(x: u32) -> Call {
    match x {
        0..=7 => Call::Tick,
        8..=11 => Call::Hear,
        12 | 13 => Call::NextFrame,
        14 => Call::Request,
        _ => Call::SetUp,
    }
}

// After how many rounds the workload starts from its first node again.
fn period_of(work: Work) -> u64
    ensures { 1 ≤ result }
{
    match work {
        Work::Hear => 256,
        Work::HearLast => 2,
        Work::HearAbsent => 256,
        Work::TickIdle => 64,
        Work::TickOne => 32,
        Work::TickMany => 1,
        Work::TickDropped => 1,
        Work::Request => 32,
        Work::NextOne => 1,
        Work::NextMany => 1,
        Work::NextNone => 256,
        Work::SetUp => 40,
        Work::Mixed => 65536,
    }
}

fn start_of(work: Work) -> Node {
    match work {
        Work::Hear | Work::HearAbsent | Work::Mixed => starting::set_up(Streams::Mixed),
        Work::HearLast => starting::set_up(Streams::HighestLast),
        Work::TickIdle => with(Streams::Received, Done::Confirmed, 2, false, 0),
        // Every tick from here on has one message due, and after 32 ticks none is left.
        Work::TickOne => with(Streams::Received, Done::Confirmed, 4, true, 68),
        // The next tick has 32 messages due.
        Work::TickMany => with(Streams::Received, Done::Confirmed, 4, false, 100),
        // The next tick has 32 messages late.
        Work::TickDropped => with(Streams::TwoReceived, Done::Heard, 4, false, 80),
        Work::Request | Work::NextNone => starting::set_up(Streams::Sent),
        Work::NextOne => {
            let mut node = starting::set_up(Streams::Sent);
            starting::request(&mut node, 19);
            node
        }
        // Data and a confirmation of 32 streams.
        Work::NextMany => with(Streams::TwoSent, Done::Requested, 4, false, 0),
        Work::SetUp => Node::fresh(),
    }
}

// A node with all its streams, with this done to so many of every four, and so many ticks later.
fn with(streams: Streams, done: Done, of_four: u32, apart: bool, ticks: u32) -> Node {
    let mut node = starting::set_up(streams);
    starting::hold(&mut node, done, of_four, apart);
    starting::tick(&mut node, ticks);
    node
}

fn frame_of(work: Work, random: u32) -> Asked {
    match work {
        Work::HearLast => asking::data_of_highest(random),
        Work::HearAbsent => asking::data_of_absent(random),
        _ => asking::frame(random),
    }
}

fn asked_of(work: Work, call: Call, i: u64, random: u32) -> Asked {
    match call {
        Call::Hear => frame_of(work, random),
        Call::Tick | Call::NextFrame => asking::nothing(),
        Call::Request => asking::message(random),
        Call::SetUp => asking::stream(i, random),
    }
}

// The checksum after so many rounds.
pub(crate) fn run(work: Work, rounds: u64, calls: u64) -> u32 {
    let period = period_of(work);
    let start = start_of(work);
    let mut node = start;
    let mut random: u32 = 1;
    let mut sum: u32 = 0;
    for i in 0..rounds {
        if i % period == 0 {
            node = start;
        }
        random = checksum::next(random);
        let call = call_of(work, random);
        let asked = asked_of(work, call, i, random);
        let mut out = [0; Node::TICK_ROOM];
        let answer = if i < calls {
            ask(&mut node, call, asked, &mut out)
        } else {
            Answer::of(Reply::Done)
        };
        sum = checksum::mixed_answer(
            sum,
            answer.reply.number(),
            answer.id.0,
            checksum::small(answer.count),
        );
        sum = checksum::mixed_told(sum, answer.told.number(), answer.dropped, answer.delivered);
        sum = checksum::mixed_some(sum, &out, random);
    }
    ended(node, sum)
}

// What a call answers, with zeros where it says less. Kept with zeros: they go into the checksum, as C's do.
#[derive(Clone, Copy)]
struct Answer {
    reply: Reply,
    id: BusId,
    // How many bytes were written, or how long the frame is.
    count: usize,
    told: Told,
    dropped: u32,
    delivered: u32,
}

impl Answer {
    fn of(reply: Reply) -> Answer {
        Answer {
            reply,
            id: BusId(0),
            count: 0,
            told: Told::Nothing,
            dropped: 0,
            delivered: 0,
        }
    }
}

fn ask(node: &mut Node, call: Call, asked: Asked, out: &mut [u8; Node::TICK_ROOM]) -> Answer {
    let payload = asking::payload_of(asked.first);
    let payload = &payload[..asked.len.min(asking::LARGEST)];
    let out = &mut out[..asked.room.min(Node::TICK_ROOM)];
    let mut answer = Answer::of(Reply::Done);
    match call {
        Call::Hear => match node.hear(BusId(asked.number), asked.dlc, payload, out) {
            Ok(heard) => {
                answer.count = heard.written;
                answer.told = heard.told;
            }
            Err(refusal) => answer.reply = refusal,
        },
        Call::Tick => match node.tick(out) {
            Ok(ticked) => {
                answer.count = ticked.written;
                answer.dropped = ticked.dropped;
                answer.delivered = ticked.delivered;
            }
            Err(refusal) => answer.reply = refusal,
        },
        Call::Request => {
            if let Err(refusal) = node.request(Stream(asked.number), payload) {
                answer.reply = refusal;
            }
        }
        Call::NextFrame => match node.next_frame(out) {
            Ok(given) => {
                answer.id = given.id;
                answer.count = given.len;
            }
            Err(refusal) => answer.reply = refusal,
        },
        Call::SetUp => {
            if let Err(refusal) = node.set_up(Stream(asked.number), asked.settings) {
                answer.reply = refusal;
            }
        }
    }
    answer
}

// The checksum with what the node does at a next frame and a tick.
fn ended(node: Node, sum: u32) -> u32 {
    let mut node = node;
    let mut out = [0; Node::TICK_ROOM];
    let id = match node.next_frame(&mut out) {
        Ok(given) => given.id.0,
        Err(_) => 0,
    };
    let _ = node.tick(&mut out);
    let with_id = checksum::mixed(sum, id);
    let with_counter = checksum::mixed(with_id, u32::from(node.counter));
    checksum::mixed_bytes(with_counter, &out)
}
