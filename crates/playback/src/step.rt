// One step of a replay: quiet ticks at once, and then one call of the node.
ghost use Rattle.std.specs.Prelude.{◌≡◌, ◌+◌, ◌≤◌, length};
ghost use Rattle.wire.specs.Delivered.{over};
ghost use Rattle.heard.specs.Replies.{Refused};
ghost use Rattle.heard.specs.Answers.{was_read};
ghost use Rattle.playback.specs.Steps.{at_fault, jumped, tick_step, hear_step, step, as_stepped};
ghost use Rattle.playback.specs.Runs.{reply_of, offset_of};

use crate::Playback;
use crate::gap::gap;
use crate::quiet::quiet;
use heard::reading::{HeardAt, heard_at};
use heard::reply::Reply;
use node::Node;

// What a step answers.
#[derive(Clone, Copy, Debug, PartialEq, Eq)]
pub enum Stepped {
    // The step was taken. Call again, and lend the bytes behind those that were taken.
    On {
        // How many of the lent bytes were taken: those of the record that was heard, or none.
        took: usize,
        // How many bytes of the output were written: delivered records, at the tick count `ticks`.
        written: usize,
    },
    // The lent bytes end inside a record. Call again with more of them, or say that no more follow.
    MoreBytes,
    // The output is shorter than a tick may need.
    MoreRoom,
    // The replay has ended, with the recording or at a record at fault.
    Over(Result<(), Fault>),
}

#[derive(Clone, Copy, Debug, PartialEq, Eq)]
pub struct Fault {
    pub reply: Reply,
    // Where the record at fault starts, modulo 2^64.
    pub offset: u64,
}

// The number of how a replay ended: its fault's, or that of done.
pub fn number_of(end: &Result<(), Fault>) -> u32
    ensures { result ≡ reply_of (Stepped.Over end.now) }
{
    match end {
        Ok(()) => 0,
        Err(fault) => fault.reply.number(),
    }
}

// The offset that is returned with it.
pub fn offset_of(end: &Result<(), Fault>) -> u64
    ensures { result ≡ offset_of (Stepped.Over end.now) }
{
    let Err(fault) = end else {
        return 0;
    };
    fault.offset
}

impl Playback {
    // Bytes as many as this, or all that are left of the recording, are enough for every step.
    pub const WINDOW: usize = 65537;

    // So is an output as long as this.
    pub const ROOM: usize = Node::TICK_ROOM;

    // `window` has the next bytes of the recording; `ended` says that no more follow them.
    pub fn step(&mut self, window: &[u8], ended: bool, out: &mut [u8]) -> Stepped
        ensures { let s = step window.now ended out.old self.old in
            (result ≡ as_stepped s) × (self.new ≡ s.playback) × (out.new ≡ over s.bytes out.old) }
    {
        if ended & window.is_empty() {
            return Stepped::Over(Ok(()));
        }
        let read = match heard_at(window, 0) {
            Ok(read) => read,
            Err(reply) => return self.at_fault(reply, ended),
        };
        if out.len() < Playback::ROOM {
            return Stepped::MoreRoom;
        }
        let gap = gap(self.ticks, read.heard.count);
        let still = quiet(&self.node, gap);
        self.jump(still);
        if still < gap {
            return self.tick_step(out);
        }
        self.hear_step(read, window, out)
    }

    // At a record that cannot be read: more of it may follow, where the recording has not ended.
    fn at_fault(&self, reply: Reply, ended: bool) -> Stepped
        ensures { result ≡ as_stepped (at_fault (Refused reply) ended self.now) }
    {
        if reply == Reply::CutRecord && !ended {
            return Stepped::MoreBytes;
        }
        Stepped::Over(Err(Fault {
            reply,
            offset: self.taken,
        }))
    }

    // So many quiet ticks at once.
    fn jump(&mut self, k: u32)
        ensures { self.new ≡ jumped k self.old }
    {
        self.node.counter = self.node.counter.wrapping_add((k % 65536) as u16);
        self.ticks = self.ticks.wrapping_add(u64::from(k));
    }

    fn tick_step(&mut self, out: &mut [u8]) -> Stepped
        ensures { let s = tick_step out.old self.old in
            (result ≡ as_stepped s) × (self.new ≡ s.playback) × (out.new ≡ over s.bytes out.old) }
    {
        let written = self.node.tick(out).map_or(0, |ticked| ticked.written);
        self.ticks = self.ticks.wrapping_add(1);
        Stepped::On { took: 0, written }
    }

    // A frame that the node refuses is passed over.
    fn hear_step(&mut self, read: HeardAt, window: &[u8], out: &mut [u8]) -> Stepped
        requires { (read.next ≡ read.payload + read.length) × (read.next ≤ length window.now) }
        ensures { let s = hear_step (was_read read) window.now out.old self.old in
            (result ≡ as_stepped s) × (self.new ≡ s.playback) × (out.new ≡ over s.bytes out.old) }
    {
        let frame = read.heard;
        let payload = &window[read.payload..read.next];
        let written = self
            .node
            .hear(frame.id, frame.dlc, payload, out)
            .map_or(0, |heard| heard.written);
        self.taken = self.taken.wrapping_add(read.next as u64);
        Stepped::On {
            took: read.next,
            written,
        }
    }
}
