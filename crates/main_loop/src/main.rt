// The main loop of a store module: one node between its controller, its timer and its application.
// `board` stands for all three.
#![tactic(auto)]

use crate::board::{Frame, Seen};
use crate::store::{STATE, Store};
use node::Node;
use node::slots::Message;
use std::io::Stdout;
use wire::reply::Reply;

mod board;
mod records;
mod store;

// Every loop has to end to be proved; this one would, after more turns than a module will see.
fn main(rt: HostRuntime) {
    let stdout = rt.stdout();
    let mut store = Store::new();
    if store.set_up().is_err() {
        board::halt(stdout);
        return;
    }
    for turn in 0..u64::MAX {
        let Some(seen) = board::look(turn) else {
            board::counted(stdout, &store.module.tally.counts);
            return;
        };
        once(stdout, &mut store, seen);
    }
}

// One turn. The timer waits until all that was received is heard.
fn once(stdout: Stdout, store: &mut Store, seen: Seen) {
    if let Some(frame) = seen.received {
        hear(stdout, store, frame);
    } else if seen.elapsed {
        tick(stdout, store);
    }
    request(store, seen.wanted);
    if seen.ready {
        give(stdout, store);
    }
}

// The controller has a frame.
fn hear(stdout: Stdout, store: &mut Store, frame: Frame) {
    let mut out = [0; Node::HEAR_ROOM];
    let payload = &frame.bytes[..usize::from(frame.dlc).min(Message::MAX_LEN)];
    if let Ok(heard) = store.module.hear(frame.id, frame.dlc, payload, &mut out) {
        records::deliver(stdout, &out, heard.written);
    }
}

// The timer's period is over.
fn tick(stdout: Stdout, store: &mut Store) {
    let mut out = [0; Node::TICK_ROOM];
    if let Ok(ticked) = store.module.tick(&mut out) {
        records::deliver(stdout, &out, ticked.written);
    }
}

// The application has something to send; what is answered by Busy is requested again next turn.
fn request(store: &mut Store, wanted: Option<u8>) {
    store.wanted = wanted.or(store.wanted);
    let Some(state) = store.wanted else {
        return;
    };
    if store.module.request(STATE, &[state]) != Err(Reply::Busy) {
        store.wanted = None;
    }
}

// The controller can take a frame.
fn give(stdout: Stdout, store: &mut Store) {
    let mut out = [0; Node::NEXT_ROOM];
    if let Ok(given) = store.module.next_frame(&mut out) {
        board::sent(stdout, given.id, &out[..given.len.min(Node::NEXT_ROOM)]);
    }
}
