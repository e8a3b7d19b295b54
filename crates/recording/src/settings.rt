// The list of settings, and the lines that fill it.
ghost use Rattle.std.specs.Prelude.{◌≡◌, IfNone};

use text::output::Printer;
use text::words::Words;
use wire::ids::Stream;
use wire::settings::Settings;

#[derive(Clone, Copy)]
pub struct Entry {
    pub stream: Stream,
    pub settings: Settings,
}

// Kept as an array and a count: the memory is fixed.
#[derive(Clone, Copy)]
pub struct List {
    // The first len of them.
    pub entries: [Entry; List::MOST],
    pub len: usize,
}

impl List {
    pub const MOST: usize = 40;

    pub const EMPTY: List = List {
        entries: [Entry {
            stream: Stream(0),
            settings: Settings::NONE,
        }; List::MOST],
        len: 0,
    };

    // Puts an entry behind the others and answers its index; None, with nothing changed, where there is no room.
    fn push(&mut self, entry: Entry) -> Option<usize>
        ensures unread { IfNone result (self.new ≡ self.old) }
    {
        let at = self.len;
        if at >= List::MOST {
            return None;
        }
        self.entries[at] = entry;
        self.len = at + 1;
        Some(at)
    }
}

// settings
pub(crate) fn settings(list: &mut List, words: &mut Words<'_>, out: &mut Printer) -> Option<()>
    ensures unread { IfNone result (list.new ≡ list.old) }
{
    words.end()?;
    *list = List::EMPTY;
    out.put(b"settings");
    Some(())
}

// setting STREAM ROLE CLASS RD DC RA DD
pub(crate) fn setting(list: &mut List, words: &mut Words<'_>, out: &mut Printer) -> Option<()>
    ensures unread { IfNone result (list.new ≡ list.old) }
{
    let (stream, settings) = words.settings()?;
    words.end()?;
    let at = list.push(Entry { stream, settings })?;
    out.put_decimal(at as u64);
    Some(())
}
