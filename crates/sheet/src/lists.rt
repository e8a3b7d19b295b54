// The list of streams that a line says.
use response::streams::{Errors, StreamRecord};
use text::words::Words;

// The most records of a line.
const MOST: usize = 80;

// How many of them are kept: a list of more is too long, whatever it holds.
const KEPT: usize = 65;

const NONE: StreamRecord = StreamRecord {
    priority: 0,
    c: 0,
    t: 0,
    d: 0,
};

// The first records of a list, and how many there are. Kept as an array with its count: no heap, and `solve_array` is asked with both.
#[derive(Clone, Copy)]
pub(crate) struct List {
    pub streams: [StreamRecord; KEPT],
    pub len: usize,
}

// N PERIOD INACC
pub(crate) fn read_errors(words: &mut Words<'_>) -> Option<Errors> {
    Some(Errors {
        n: words.number(u32::MAX)?,
        period: words.number(u32::MAX)?,
        inaccessibility: words.number(u32::MAX)?,
    })
}

// PRIORITY C T D
fn read_stream(words: &mut Words<'_>) -> Option<StreamRecord> {
    Some(StreamRecord {
        priority: words.number(u32::MAX)?,
        c: words.number(u32::MAX)?,
        t: words.number(u32::MAX)?,
        d: words.number(u32::MAX)?,
    })
}

// The records up to the end of the line.
pub(crate) fn read_list(words: &mut Words<'_>) -> Option<List> {
    let mut streams = [NONE; KEPT];
    for len in 0..=MOST {
        if words.is_done() {
            return Some(List { streams, len });
        }
        let stream = read_stream(words)?;
        if len < KEPT {
            streams[len] = stream;
        }
    }
    None
}
