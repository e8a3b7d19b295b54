// How often the node is ticked before a record is heard. A further kind of record, with a count of
// its own, is added here and in `specs/Gaps.antt`.
ghost use Rattle.std.specs.Prelude.{◌≡◌};
ghost use Rattle.heard.specs.Records.{Heard};
ghost use Rattle.playback.specs.Gaps.{gap_from};

// From so many ticks on, to a record of any kind that holds this count.
#[tactic(auto, unfolding(crate::specs::Gaps::gap_from))]
pub fn gap(ticks: u64, count: u32) -> u32
    ensures { (heard : Heard) → heard.count ≡ count → result ≡ gap_from ticks heard }
{
    let counter = (ticks % 65536) as u16;
    let count = (count % 65536) as u16;
    u32::from(count.wrapping_sub(counter))
}
