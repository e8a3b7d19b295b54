// Stands for the controller, the timer and the application: a script of what each turn finds, and a line
// of text for what each is told. Firmware has its registers and queues here.
use module::tally::Tally;
use node::slots::Message;
use std::io::Stdout;
use wire::ids::BusId;

// A frame that the controller has received.
#[derive(Clone, Copy)]
pub struct Frame {
    pub id: BusId,
    pub dlc: u8,
    pub bytes: [u8; Message::MAX_LEN],
}

// What a turn of the loop finds.
#[derive(Clone, Copy)]
pub struct Seen {
    pub received: Option<Frame>,
    // The timer's period is over.
    pub elapsed: bool,
    // What the application has new to send.
    pub wanted: Option<u8>,
    // The controller has no frame left to send.
    pub ready: bool,
}

const TIMER: Seen = Seen {
    received: None,
    elapsed: true,
    wanted: None,
    ready: true,
};

// What a turn finds, until the script is over. File 7 is announced twice, since its first sending failed half way, and confirmed; a
// frame of a stream that this store has not set up comes by; the state changes twice; file 8 is never confirmed.
pub(crate) fn look(turn: u64) -> Option<Seen> {
    let seen = match turn {
        2 | 4 => received(20, 2, 7),
        5 => received(21, 0, 0),
        8 => received(39, 1, 3),
        24 => wanted(1),
        26 => wanted(2),
        45 => received(20, 2, 8),
        60 => return None,
        _ => TIMER,
    };
    Some(seen)
}

fn received(id: u32, dlc: u8, number: u8) -> Seen {
    let mut bytes = [0; Message::MAX_LEN];
    bytes[1] = number;
    Seen {
        received: Some(Frame {
            id: BusId(id),
            dlc,
            bytes,
        }),
        elapsed: false,
        ..TIMER
    }
}

fn wanted(state: u8) -> Seen {
    Seen {
        wanted: Some(state),
        ..TIMER
    }
}

// A delivered record, for the application.
pub(crate) fn delivered(stdout: Stdout, record: &[u8]) {
    put(stdout, b"delivered ");
    hex(stdout, record);
}

// A frame, for the controller.
pub(crate) fn sent(stdout: Stdout, id: BusId, payload: &[u8]) {
    put(stdout, b"sent ");
    number(stdout, id.0);
    if !payload.is_empty() {
        put(stdout, b" ");
    }
    hex(stdout, payload);
}

// The counts of the replies, in the order of their numbers.
pub(crate) fn counted(stdout: Stdout, counts: &[u32; Tally::SIZE]) {
    put(stdout, b"tally");
    for count in counts {
        put(stdout, b" ");
        number(stdout, *count);
    }
    put(stdout, b"\n");
}

// A stream was refused at the start: nothing goes on the bus.
pub(crate) fn halt(stdout: Stdout) {
    put(stdout, b"halted\n");
}

fn hex(stdout: Stdout, bytes: &[u8]) {
    for b in bytes {
        let _ = print!(stdout; "{b:02x}");
    }
    put(stdout, b"\n");
}

fn number(stdout: Stdout, x: u32) {
    let _ = stdout.print(x);
}

// What cannot be printed is lost.
fn put(stdout: Stdout, text: &[u8]) {
    let _ = stdout.write_all(text);
}
