// A line is answered by what its first word names.
ghost use Rattle.std.specs.Prelude.{◌≡◌, IfNone};

use crate::settings::List;
use crate::{replays, settings, writing};
use text::input::Line;
use text::output::Printer;
use text::words::Words;

// None, with nothing printed, where the line can't be read. The list is as it was then.
pub(crate) fn answer(list: &mut List, line: Line<'_>, out: &mut Printer) -> Option<()>
    ensures unread { IfNone result (list.new ≡ list.old) }
{
    let mut words = Words::of(line.ok()?);
    match words.word() {
        b"replay" => replays::replay(list, &mut words, out),
        b"write" => writing::write(&mut words, out),
        b"setting" => settings::setting(list, &mut words, out),
        b"settings" => settings::settings(list, &mut words, out),
        _ => None,
    }
}
