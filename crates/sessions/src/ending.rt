//! How the serving of sessions ends.

use serving::Ended;

/// What ends the serving. Each has an exit status.
#[derive(Clone, Copy, Debug, PartialEq, Eq)]
pub enum SessionsEnded {
    /// As the serving of one stream ends. `Ended::Quit` and `Ended::Protocol` don't occur: they end a session, and not the run.
    Plain(Ended),
    /// A piece has a number that no session has: 11.
    Unknown,
}
