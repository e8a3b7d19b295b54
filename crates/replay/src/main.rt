// Replays a recording from standard input on one node, which receives the moments' stream 5, and prints a line for each delivery.
#![tactic(auto)]

use playback::Playback;
use playback::step::Stepped;
use text::output::Printer;
use text::part;
use text::window::Window;
use wire::ids::Stream;
use wire::settings::Settings;

mod lines;

// How many bytes of the recording are at hand at most. A step that has Playback::WINDOW of them asks for no more, so there is
// room to read into whenever one does.
const WIDE: usize = 131072;

fn main(rt: HostRuntime) {
    let mut out = Printer::new(rt.stdout());
    let mut window = Window::<WIDE>::new(rt.stdin());
    let mut playback = receiver();
    for _ in 0..u64::MAX {
        let mut lent = [0; Playback::ROOM];
        match playback.step(window.bytes(), window.ended, &mut lent) {
            Stepped::On { took, written } => {
                lines::put_all(&mut out, playback.ticks, part(&lent, 0, written));
                window.skip(took);
            }
            Stepped::MoreBytes => {
                out.flush();
                window.read();
            }
            Stepped::MoreRoom => return,
            Stepped::Over(end) => {
                if let Err(fault) = end {
                    lines::put_fault(&mut out, fault);
                }
                out.flush();
                return;
            }
        }
    }
}

// The fresh node with the one receive slot.
fn receiver() -> Playback {
    let settings = Settings::of_two_message(Settings::RECEIVE, 2, 3, 2, 6);
    let mut playback = Playback::fresh();
    let _ = playback.set_up(Stream(5), settings);
    playback
}
