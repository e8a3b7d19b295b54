// The nodes that the workloads start from.
ghost use Rattle.std.specs.Prelude.{◌≤◌};

use crate::asking;
use node::Node;
use node::slots::Message;
use wire::ids::{BusId, Stream};
use wire::settings::Settings;

// Which streams a node has.
#[derive(Clone, Copy)]
pub enum Streams {
    // All classes, and every eighth sent.
    Mixed,
    // IMD and 2M, received.
    Received,
    // All classes, sent.
    Sent,
    // 2M, received.
    TwoReceived,
    // 2M, sent.
    TwoSent,
    // IMD, received, the one with the highest number set up last.
    HighestLast,
}

fn settings(streams: Streams, k: u32) -> Settings {
    match streams {
        Streams::Mixed => asking::settings_of(asking::role_of(k), k % 3),
        Streams::Received => asking::settings_of(Settings::RECEIVE, 1 + k % 2),
        Streams::Sent => asking::settings_of(Settings::SEND, k % 3),
        Streams::TwoReceived => asking::settings_of(Settings::RECEIVE, 2),
        Streams::TwoSent => asking::settings_of(Settings::SEND, 2),
        Streams::HighestLast => asking::settings_of(Settings::RECEIVE, 1),
    }
}

// Which stream is set up first.
fn first_of(streams: Streams) -> u32
    ensures { result ≤ 57 }
{
    if let Streams::HighestLast = streams {
        return asking::BELOW_HIGHEST;
    }
    0
}

const STREAMS: u32 = Node::SLOTS as u32;

// A node with all its streams.
pub(crate) fn set_up(streams: Streams) -> Node {
    let first = first_of(streams);
    let mut node = Node::fresh();
    for k in 0..STREAMS {
        let _ = node.set_up(Stream(asking::stream_of(first + k)), settings(streams, k));
    }
    node
}

// What is done to a stream.
#[derive(Clone, Copy)]
pub enum Done {
    // Data is heard.
    Heard,
    // Data and a confirmation are heard.
    Confirmed,
    // A message is asked for.
    Requested,
}

// Does this to so many of every four streams; where `apart` is true, a tick follows each.
pub(crate) fn hold(node: &mut Node, done: Done, of_four: u32, apart: bool) {
    for k in 0..STREAMS {
        if k % 4 < of_four {
            match done {
                Done::Heard => hear_data(node, k),
                Done::Confirmed => {
                    hear_data(node, k);
                    hear_confirmation(node, k);
                }
                Done::Requested => request(node, k),
            }
        }
        if apart {
            tick(node, 1);
        }
    }
}

// The node hears data of stream k.
fn hear_data(node: &mut Node, k: u32) {
    let payload = asking::payload_of(0);
    let id = BusId(asking::stream_of(k) * 4);
    let _ = node.hear(
        id,
        8,
        &payload[..Message::MAX_LEN],
        &mut [0; Node::HEAR_ROOM],
    );
}

// The node hears a confirmation of stream k.
fn hear_confirmation(node: &mut Node, k: u32) {
    let id = BusId(asking::stream_of(k) * 4 + 1);
    let _ = node.hear(id, 0, &[], &mut [0; Node::HEAR_ROOM]);
}

// So many ticks.
pub(crate) fn tick(node: &mut Node, ticks: u32) {
    for _ in 0..ticks {
        let _ = node.tick(&mut [0; Node::TICK_ROOM]);
    }
}

// The node is asked for a message of stream k.
pub(crate) fn request(node: &mut Node, k: u32) {
    let payload = asking::payload_of(0);
    let _ = node.request(Stream(asking::stream_of(k)), &payload[..Message::MAX_LEN]);
}
