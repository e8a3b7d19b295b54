// The line at hand is answered by what its first word asks for.
ghost use Rattle.std.specs.Prelude.{◌≡◌, IfNone};

use crate::state::State;
use crate::{asking, giving, sending, ticking};
use text::input::Line;
use text::output::Printer;
use text::words::Words;

// None, with nothing printed and nothing changed, where the line can't be read.
pub(crate) fn answer(state: &mut State, line: Line<'_>, out: &mut Printer) -> Option<()>
    ensures unread { IfNone result (state.new ≡ state.old) }
{
    let mut words = Words::of(line.ok()?);
    match words.word() {
        b"tick" => ticking::tick(state, &mut words, out),
        b"give" => giving::give(state, &mut words, out),
        b"full" => sending::full(state, &mut words, out),
        b"short" => sending::short(state, &mut words, out),
        b"request" => asking::request(state, &mut words, out),
        b"ticks" => ticking::ticks(state, &mut words, out),
        b"setup" => asking::set_up(state, &mut words, out),
        b"death" => asking::death(state, &mut words, out),
        b"modules" => giving::modules(state, &mut words, out),
        _ => None,
    }
}
