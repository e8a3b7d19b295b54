// Setting up a stream on the node, before the recording is read.
ghost use Rattle.std.specs.Prelude.{◌≡◌};
ghost use Rattle.wire.specs.Answers.{answered};
ghost use Rattle.playback.specs.Steps.{prepared};

use crate::Playback;
use wire::ids::Stream;
use wire::reply::Reply;
use wire::settings::Settings;

impl Playback {
    // As the node does. A refusal ends the replay, at offset 0.
    pub fn set_up(&mut self, stream: Stream, settings: Settings) -> Result<(), Reply>
        ensures { let p = prepared stream settings self.old in
            (result ≡ answered p.reply tt) × (self.new ≡ p.playback) }
    {
        self.node.set_up(stream, settings)
    }
}
