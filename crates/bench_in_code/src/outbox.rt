// The frames that were given out, the first of them at 0.
ghost use Rattle.std.specs.Prelude.{◌≡◌, ◌≤◌, length};
ghost use Rattle.wire.specs.Frames.{max_payload};
ghost use Rattle.bench_in_code.specs.InCode.{payload_of, no_frames, frame_in, with_frame};
ghost use Rattle.bench_in_code.specs.InBytes.{frame_at};

use wire::frame::{MAX_PAYLOAD, at_most_payload};
use wire::ids::BusId;

// The payload is kept with its length: no heap, and as many bytes for each frame.
#[derive(Clone, Copy)]
pub struct Frame {
    pub owner: usize,
    pub id: BusId,
    pub len: usize,
    pub bytes: [u8; Frame::ROOM],
}

impl Frame {
    pub const ROOM: usize = MAX_PAYLOAD;

    pub const NONE: Frame = Frame {
        owner: 0,
        id: BusId(0),
        len: 0,
        bytes: [0; Frame::ROOM],
    };

    // The payload, which has at most eight bytes.
    pub fn payload(&self) -> &[u8]
        ensures { (result.now ≡ payload_of self.now) × (length result.now ≤ max_payload) }
    {
        let n = at_most_payload(self.len);
        &self.bytes[..n]
    }
}

// Kept as an array with its count: no heap, and room for as many frames from the start.
#[derive(Clone, Copy)]
pub struct Frames {
    pub all: [Frame; Frames::MOST],
    pub count: usize,
}

impl Frames {
    // So many frames are kept.
    pub const MOST: usize = 1024;

    pub fn none() -> Frames
        ensures { result ≡ no_frames }
    {
        Frames {
            all: [Frame::NONE; Frames::MOST],
            count: 0,
        }
    }

    // Takes one more; where it is full, it stays as it was.
    pub fn push(&mut self, frame: Frame)
        ensures { self.new ≡ with_frame frame self.old }
    {
        if self.count < Frames::MOST {
            self.all[self.count] = frame;
            self.count += 1;
        }
    }

    // What is kept at the nth place; past the places, an empty frame.
    pub fn at(&self, n: usize) -> Frame
        ensures { result ≡ frame_in n self.now }
    {
        if n >= Frames::MOST {
            return Frame::NONE;
        }
        self.all[n]
    }

    // The nth of the frames given out.
    pub fn get(&self, n: usize) -> Option<Frame>
        ensures { result ≡ frame_at n self.now }
    {
        if n >= self.count || n >= Frames::MOST {
            return None;
        }
        Some(self.at(n))
    }
}
