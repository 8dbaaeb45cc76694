//! Databases that a command empties.

ghost use Rattle.std.specs.Prelude.{◌≡◌};
ghost use Rattle.written_keys.specs.Written.{emptied};

use plain_model::{Command, ConnectionCommand};

/// The databases that a command empties.
#[derive(Clone, Copy, Debug)]
pub enum Emptied {
    Nothing,
    /// The selected one.
    Selected,
    All,
}

/// The databases that a command empties (Redis command reference, "FLUSHDB", "FLUSHALL").
pub fn emptied_by(command: &Command<'_>) -> Emptied
    ensures { result ≡ emptied command.now }
{
    match command {
        Command::Connection(ConnectionCommand::FlushDb) => Emptied::Selected,
        Command::Connection(ConnectionCommand::FlushAll) => Emptied::All,
        _ => Emptied::Nothing,
    }
}
