//! The line of an ending.

ghost use Rattle.std.specs.Prelude.{◌≡◌};
ghost use Rattle.program_top.specs.Notes.{Notes};
ghost use Rattle.sessions_top.specs.Statuses.{line_of};

use crate::ending::SessionsEnding;
use outside::Sink;
use program_top::notes::note;
use resp_frames::put_all;

/// Writes the line of an ending to the notes: none for status 0. A fault of the notes changes nothing else.
pub fn note_sessions<N: Sink>(notes: &mut N, ending: SessionsEnding)
    ensures { Notes (N.seen notes.old) (N.seen notes.new) (line_of ending) }
{
    match ending {
        SessionsEnding::Run(ending) => note(notes, ending),
        SessionsEnding::UnknownSession => match put_all(notes, b"redis-core: unknown session\n") {
            Ok(()) => {}
            Err(_) => {}
        },
    }
}
