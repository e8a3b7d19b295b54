// Setting up a stream.
ghost use Rattle.std.specs.Prelude.{◌≡◌, ◌<◌, List, length, ltb, position};
ghost use Rattle.std.specs.Option.{IfSome};
ghost use Rattle.node.specs.Nodes.{as_answered};
ghost use Rattle.node.specs.SetUp.{set_up};
ghost use Rattle.node.specs.Clock.{rolled, unbounded};
ghost use Rattle.node.specs.Calls.{Call, after, roll_outcome};

use crate::Node;
use crate::slots::Slot;
use wire::ids::Stream;
use wire::reply::Reply;
use wire::settings::Settings;

// Where the first of these slots stands that has a higher stream.
fn place_above(slots: &[Slot], stream: Stream) -> Option<usize>
    ensures place { result ≡ position (λ y. ltb stream.0 y.stream.0) slots.now }
    ensures within { IfSome result (λ i. i < length slots.now) }
{
    slots.iter().position(|s| stream.0 < s.stream.0)
}

impl Node {
    // Gives a stream a slot, with its settings.
    pub fn set_up(&mut self, stream: Stream, settings: Settings) -> Result<(), Reply>
        ensures exact { (result ≡ as_answered (set_up stream settings self.old))
            × (self.new ≡ (set_up stream settings self.old).node) }
        ensures unbounded { (h : List Call) → self.old ≡ after rolled h
            → (result ≡ as_answered (roll_outcome (set_up stream settings (after unbounded h))))
            × (self.new ≡ (roll_outcome (set_up stream settings (after unbounded h))).node) }
    {
        if !settings.legal(stream) {
            return Err(Reply::BadSettings);
        }
        if self.place_of(stream).is_some() {
            return Err(Reply::Taken);
        }
        let free = self.free_place().ok_or(Reply::TableFull)?;
        // Its slot stands before the first one with a higher stream; those from there on move up, to the free place.
        let place = place_above(&self.slots[..free], stream).unwrap_or(free);
        // By index: of the library's `copy_within` the compiler makes a call of `memmove`, which firmware would have to bring.
        for i in (place..free).rev() {
            self.slots[i + 1] = self.slots[i];
        }
        self.slots[place] = Slot::set_up(stream, settings);
        Ok(())
    }
}
