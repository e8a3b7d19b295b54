// A store module: its streams, with their numbers in ticks of one millisecond (docs/INTEGRATION.md), and its node and tally.
use module::Module;
use wire::ids::Stream;
use wire::reply::Reply;
use wire::settings::Settings;

// Numbers of files, which every store receives.
const FILES: Stream = Stream(5);

// This store's own state.
pub(crate) const STATE: Stream = Stream(6);

#[derive(Clone, Copy)]
pub struct Store {
    pub module: Module,
    // What the application has to send, while it is still to be requested.
    pub wanted: Option<u8>,
}

impl Store {
    pub(crate) fn new() -> Store {
        Store {
            module: Module::fresh(),
            wanted: None,
        }
    }

    // Sets up every stream.
    pub(crate) fn set_up(&mut self) -> Result<(), Reply> {
        self.module.set_up(
            FILES,
            Settings::of_two_message(Settings::RECEIVE, 6, 6, 7, 14),
        )?;
        self.module
            .set_up(STATE, Settings::of_imd(Settings::SEND, 8, 8))
    }
}
