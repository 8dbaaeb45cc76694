//! The words of commands on the connection and the server.

ghost use Rattle.std.specs.Prelude.{◌≡◌, ◌<◌, ◌∷◌, [], length, drop, Ok};
ghost use Rattle.plain_model.specs.Shapes.{Database, Steps, by_second, fixed};
ghost use Rattle.plain_model.specs.ConnectionWords.{ping_words, flush_words, memory_rows, debug_rows, connection_rows};
ghost use Rattle.plain_model.specs.declared.command.Command.TheVariants as commands;
ghost use Rattle.plain_model.specs.declared.connection.ConnectionCommand.{ConnectionCommand};
ghost use Rattle.command_words.specs.Readings.{Tells, TellsAs, ReadsAs};
ghost use Rattle.command_table.specs.Rows.{by_own, connection_name};

use crate::table::ConnectionName;
use command_words::ReadingFault;
use command_words::kinds::{WRONG_NUMBER, alone, one};
use command_words::options::read_options;
use command_words::words::{database, is_word, plain, steps};
use plain_model::{ConnectionCommand, Refusal};
use resp_frames::Request;

// PING: a text or none.
fn ping<'r>(request: &'r Request<'_>) -> Result<ConnectionCommand<'r>, ReadingFault>
    requires { 0 < length request.now }
    ensures { Tells (ping_words (drop 1 request.now)) result }
{
    match request.len() {
        1 => Ok(ConnectionCommand::Ping(None)),
        2 => Ok(ConnectionCommand::Ping(Some(plain(request, 1)))),
        _ => Err(WRONG_NUMBER),
    }
}

// SELECT: a database.
fn select<'r>(request: &'r Request<'_>) -> Result<ConnectionCommand<'r>, ReadingFault>
    requires { 0 < length request.now }
    ensures { Tells (fixed (Database ∷ []) (λ a. Ok (ConnectionCommand.Select a.0)) (drop 1 request.now)) result }
{
    if request.len() != 2 {
        return Err(WRONG_NUMBER);
    }
    let db = database(request, 1)?;
    Ok(ConnectionCommand::Select(db))
}

// FLUSHDB and FLUSHALL: options that say nothing.
fn flush<'r>(
    request: &'r Request<'_>,
    command: ConnectionCommand<'r>,
) -> Result<ConnectionCommand<'r>, ReadingFault>
    requires { 0 < length request.now }
    ensures { Tells (flush_words command.entry (drop 1 request.now)) result }
{
    read_options(request, (), 1)?;
    Ok(command)
}

// MEMORY: its second word.
fn memory<'r>(request: &'r Request<'_>) -> Result<ConnectionCommand<'r>, ReadingFault>
    requires { 0 < length request.now }
    ensures { Tells (by_second 1 memory_rows (drop 1 request.now)) result }
{
    if request.len() < 2 {
        return Err(WRONG_NUMBER);
    }
    if !is_word(request.word(1), b"slabs") {
        return Err(ReadingFault::Refused(Refusal::Syntax));
    }
    if request.len() != 2 {
        return Err(WRONG_NUMBER);
    }
    Ok(ConnectionCommand::MemorySlabs)
}

// The number of steps behind the second word.
fn own_steps(request: &Request<'_>) -> Result<u32, ReadingFault>
    requires { 1 < length request.now }
    ensures { TellsAs (λ a. (a, tt)) (fixed (Steps ∷ []) (λ a. Ok a) (drop 2 request.now)) result }
{
    if request.len() != 3 {
        return Err(WRONG_NUMBER);
    }
    steps(request, 2)
}

// DEBUG: its second word, and a number of steps.
fn debug<'r>(request: &'r Request<'_>) -> Result<ConnectionCommand<'r>, ReadingFault>
    requires { 0 < length request.now }
    ensures { Tells (by_second 2 debug_rows (drop 1 request.now)) result }
{
    if request.len() < 3 {
        return Err(WRONG_NUMBER);
    }
    if is_word(request.word(1), b"rehash") {
        let steps = own_steps(request)?;
        return Ok(ConnectionCommand::DebugRehash(steps));
    }
    if is_word(request.word(1), b"defrag") {
        let steps = own_steps(request)?;
        return Ok(ConnectionCommand::DebugDefrag(steps));
    }
    Err(ReadingFault::Refused(Refusal::Syntax))
}

/// Turns the words behind the name of a command on the connection or the server into it.
#[tactic(auto, using(crate::proofs::Arms::fixed_made, command_words::proofs::Lifted::lifted))]
pub fn read_connection<'r>(
    name: ConnectionName,
    request: &'r Request<'_>,
) -> Result<ConnectionCommand<'r>, ReadingFault>
    requires { 0 < length request.now }
    ensures { ReadsAs commands.Connection (by_own commands.Connection connection_rows (connection_name name) (drop 1 request.now)) result }
{
    match name {
        ConnectionName::Ping => ping(request),
        ConnectionName::Echo => one(request).map(ConnectionCommand::Echo),
        ConnectionName::Quit => Ok(ConnectionCommand::Quit),
        ConnectionName::Select => select(request),
        ConnectionName::DbSize => alone(request, ConnectionCommand::DbSize),
        ConnectionName::FlushDb => flush(request, ConnectionCommand::FlushDb),
        ConnectionName::FlushAll => flush(request, ConnectionCommand::FlushAll),
        ConnectionName::Memory => memory(request),
        ConnectionName::Debug => debug(request),
    }
}
