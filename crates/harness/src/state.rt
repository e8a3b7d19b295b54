// The state that the lines drive.
use bench_in_code::outbox::Frames;
use bench_in_code::stations::CLEAR;
use bench_in_code::{Bench, Outputs};

#[derive(Clone, Copy)]
pub struct State {
    pub bench: Bench,
    pub outs: Outputs,
    // The frames given out.
    pub frames: Frames,
    // How many modules the bench has; 0 before there is one. Kept as a number: no module is below it then, so a line that names one
    // needs no case for it.
    pub modules: usize,
    // The common ticks since the bench began.
    pub ticks: u64,
}

impl State {
    // The fewest modules of a bench.
    pub const LEAST: usize = 2;

    // A bench of so many fresh modules.
    pub(crate) fn of(modules: usize) -> State {
        State {
            bench: Bench::of(modules),
            outs: [CLEAR; Bench::PLACES],
            frames: Frames::none(),
            modules,
            ticks: 0,
        }
    }
}
