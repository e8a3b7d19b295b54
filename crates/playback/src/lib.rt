// The replay of a recording on one receiving node: the settings first, then step by step. A step is
// lent the next bytes of the recording and an output for what it delivers, so that a recording of
// any length is replayed in bounded memory.
#![tactic(auto)]

ghost use Rattle.std.specs.Prelude.{◌≡◌};
ghost use Rattle.playback.specs.Steps.{fresh_playback};

use node::Node;

pub mod gap;
pub mod quiet;
pub mod set_up;
pub mod step;

#[derive(Clone, Copy)]
pub struct Playback {
    pub node: Node,
    // The ticks so far, modulo 2^64.
    pub ticks: u64,
    // How many bytes of the recording were taken, modulo 2^64.
    pub taken: u64,
}

impl Playback {
    // Before any setting: the fresh node, whose counter is 0.
    pub fn fresh() -> Playback
        ensures { result ≡ fresh_playback }
    {
        Playback {
            node: Node::fresh(),
            ticks: 0,
            taken: 0,
        }
    }
}
