//! How a run of several sessions ends.

ghost use Rattle.std.specs.Prelude.{◌≡◌};
ghost use Rattle.sessions_top.specs.Statuses.{status_of, ending_of};

use program_top::ending::{Ending, served_to};
use sessions::SessionsEnded;

/// What ends a run of several sessions. Each has an exit status.
#[derive(Clone, Copy, Debug, PartialEq, Eq)]
pub enum SessionsEnding {
    /// What ends a run of one stream too: 0, 1 and 3 to 9.
    Run(Ending),
    /// A piece has a number that no session has: 11.
    UnknownSession,
}

impl SessionsEnding {
    /// The exit status.
    pub fn status(self) -> u8
        ensures { result ≡ status_of self }
    {
        match self {
            SessionsEnding::Run(ending) => ending.status(),
            SessionsEnding::UnknownSession => 11,
        }
    }
}

/// The ending of a run whose sessions were served to this end.
pub fn sessions_served_to(ended: SessionsEnded) -> SessionsEnding
    ensures { result ≡ ending_of ended }
{
    match ended {
        SessionsEnded::Plain(ended) => SessionsEnding::Run(served_to(ended)),
        SessionsEnded::Unknown => SessionsEnding::UnknownSession,
    }
}
