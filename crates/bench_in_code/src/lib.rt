// The bench in code: up to eight modules on a modelled bus, and what each event makes of them. A place without a module is a
// module that was never live. The nodes stand in bytes of the bench; what they write stands in outputs that the caller lends.
#![tactic(auto)]

ghost use Rattle.std.specs.Prelude.{◌≡◌, map, ltb};
ghost use Rattle.node.specs.Calls.{set_up, request};
ghost use Rattle.bench.specs.Lists.{at};
ghost use Rattle.bench.specs.Events.{dead};
ghost use Rattle.bench_in_code.specs.InCode.{place_count, places, is_live_in, bench_of, asked, requested_in, giving_of, sending_of, tick_of, on_module};
ghost use Rattle.bench_in_code.specs.InBytes.{bench_in, fresh_bench, died, answer_of, given_of, sent_of, ticked_in, outputs_in};

use crate::outbox::{Frame, Frames};
use crate::stations::{CLEAR, Hearing, Module, Output, Ticking};
use wire::ids::Stream;
use wire::reply::Reply;
use wire::settings::Settings;

pub mod outbox;
pub mod stations;

// The modules of the eight places.
#[derive(Clone, Copy)]
pub struct Bench {
    pub modules: [Module; Bench::PLACES],
}

// The outputs of what they say, place by place.
pub type Outputs = [Output; Bench::PLACES];

// What giving out a module's next frame answers. Kept as one enum: these are four answers, and two of those without a frame, a dead
// module and no frame pending, are no errors.
#[derive(Clone, Copy)]
pub enum Given {
    // The module is not live.
    Dead,
    // No frame is pending.
    Nothing,
    // No more frames are kept, so none is given out.
    Full,
    // The frame is given out, and kept as the last one.
    Out(Frame),
}

impl Bench {
    // So many modules have a place.
    pub const PLACES: usize = 8;

    // So many fresh modules, at most eight.
    pub fn of(n: usize) -> Bench
        ensures answer { result ≡ fresh_bench n }
        ensures leaves { bench_in result ≡ bench_of n }
    {
        // Place by place: by `array::from_fn` the check does not find the clause `leaves`.
        Bench {
            modules: [
                Module::fresh(0 < n),
                Module::fresh(1 < n),
                Module::fresh(2 < n),
                Module::fresh(3 < n),
                Module::fresh(4 < n),
                Module::fresh(5 < n),
                Module::fresh(6 < n),
                Module::fresh(7 < n),
            ],
        }
    }

    // Sets up a stream at a module. None where no module is there: nobody answered, and nothing changed.
    pub fn set_up(
        &mut self,
        who: usize,
        stream: Stream,
        settings: Settings,
    ) -> Option<Result<(), Reply>>
        ensures answer { result ≡ answer_of (asked (ltb who place_count) (set_up stream settings) who (bench_in self.old)) }
        ensures leaves { bench_in self.new ≡ (asked (ltb who place_count) (set_up stream settings) who (bench_in self.old)).bench }
    {
        if who >= Bench::PLACES {
            return None;
        }
        Some(self.modules[who].set_up(stream, settings))
    }

    // A module's application asks for a message to be sent. None where the module is not live.
    pub fn request(
        &mut self,
        who: usize,
        stream: Stream,
        payload: &[u8],
    ) -> Option<Result<(), Reply>>
        ensures answer { result ≡ answer_of (requested_in who stream payload.now (bench_in self.old)) }
        ensures leaves { bench_in self.new ≡ (requested_in who stream payload.now (bench_in self.old)).bench }
    {
        if !self.is_live(who) {
            return None;
        }
        Some(self.modules[who].request(stream, payload))
    }

    // A module's next frame is given out, and kept with the frames given out before.
    pub fn give(&mut self, who: usize, frames: &mut Frames) -> Given
        ensures answer { result ≡ given_of (giving_of who frames.old (bench_in self.old)) }
        ensures frames { frames.new ≡ (giving_of who frames.old (bench_in self.old)).frames }
        ensures leaves { bench_in self.new ≡ (giving_of who frames.old (bench_in self.old)).bench }
    {
        if !self.is_live(who) {
            return Given::Dead;
        }
        // A copy is asked: where no more frames are kept, the module keeps its frame.
        let mut module = self.modules[who];
        let Ok(frame) = module.give(who) else {
            return Given::Nothing;
        };
        if frames.count >= Frames::MOST {
            return Given::Full;
        }
        self.modules[who] = module;
        frames.push(frame);
        Given::Out(frame)
    }

    // Whether the module is live.
    pub fn is_live(&self, who: usize) -> bool
        ensures { result ≡ is_live_in who (bench_in self.now) }
    {
        if who >= Bench::PLACES {
            return false;
        }
        self.modules[who].live
    }

    // A frame is sent, and heard by the live modules of those named, other than its owner. None where the owner is not live: nothing
    // changed, and nothing is written.
    pub fn send(
        &mut self,
        frame: Frame,
        to: [bool; Bench::PLACES],
        outs: &mut Outputs,
    ) -> Option<[Hearing; Bench::PLACES]>
        ensures answer { result ≡ sent_of (sending_of frame to (bench_in self.old)) }
        ensures outputs { outs.new ≡ outputs_in (sending_of frame to (bench_in self.old)).said }
        ensures leaves { bench_in self.new ≡ (sending_of frame to (bench_in self.old)).bench }
    {
        if !self.is_live(frame.owner) {
            *outs = [CLEAR; Bench::PLACES];
            return None;
        }
        let mut said = [None; Bench::PLACES];
        // By index: the modules, whom it is to, what is said and what is written go side by side.
        for i in 0..Bench::PLACES {
            said[i] = self.modules[i].hear(to[i], i == frame.owner, frame, &mut outs[i]);
        }
        Some(said)
    }

    // A common tick reaches every live module.
    pub fn tick(&mut self, outs: &mut Outputs) -> [Ticking; Bench::PLACES]
        ensures answer { result ≡ ticked_in (tick_of (bench_in self.old)).said }
        ensures outputs { outs.new ≡ outputs_in (tick_of (bench_in self.old)).said }
        ensures leaves { bench_in self.new ≡ (tick_of (bench_in self.old)).bench }
    {
        let mut said = [None; Bench::PLACES];
        // By index, as in `send`: the modules, what is said and what is written go side by side.
        for i in 0..Bench::PLACES {
            said[i] = self.modules[i].tick(&mut outs[i]);
        }
        said
    }

    // A module dies.
    pub fn death(&mut self, who: usize)
        ensures modules { self.new.modules ≡ at died who self.old.modules }
        ensures leaves { bench_in self.new ≡ on_module dead who (bench_in self.old) }
    {
        if who < Bench::PLACES {
            self.modules[who].live = false;
        }
    }
}
