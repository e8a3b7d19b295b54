// How long a node stays as it is but for its counter, read from its slots.
ghost use Rattle.std.specs.Prelude.{◌≡◌};
ghost use Rattle.node.specs.Clock.{rolled};
ghost use Rattle.node.specs.Reachable.{longest};
ghost use Rattle.playback.specs.Quiet.{with_slot, quiet};

use node::Node;
use node::slots::Slot;
use node::tick::age;
use wire::settings::Settings;

// Of so many ticks at most: all of them, where nothing is held.
pub fn quiet(node: &Node, most: u32) -> u32
    ensures { result ≡ quiet rolled most node.now }
{
    let now = node.counter;
    node.slots
        .iter()
        .rev()
        .fold(most, |least, slot| with_slot(*slot, now, least))
}

// For how many ticks a slot stays as well, where the others stay for so many.
#[tactic(auto, unfolding(crate::specs::Quiet::with_slot))]
fn with_slot(slot: Slot, now: u16, others: u32) -> u32
    ensures { result ≡ with_slot rolled now slot others }
{
    if !slot.message.held {
        return others;
    }
    let held = u32::from(age(now, slot.message.stamp));
    longest(slot).saturating_sub(held).min(others)
}

// The age at which the slot's message is held at the longest.
fn longest(slot: Slot) -> u32
    ensures { result ≡ longest slot.settings slot.message }
{
    let s = slot.settings;
    if s.role == Settings::SEND {
        return u32::from(s.rd) + u32::from(s.dd);
    }
    if s.class == Settings::TWO_MESSAGE && !slot.message.confirmed {
        return u32::from(s.dc);
    }
    u32::from(s.dd)
}
