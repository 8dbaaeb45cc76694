//! A request as a command.

ghost use Rattle.std.specs.Prelude.{◌<◌, length, drop, IfOk};
ghost use Rattle.plain_model.specs.Meant.{IsAsked};
ghost use Rattle.command_words.specs.Readings.{ReadsAs, ReadsCommand};
ghost use Rattle.command_table.specs.Families.{by_family};

use crate::connection::read_connection;
use crate::hashes::read_hash;
use crate::keys::read_key;
use crate::lists::read_list;
use crate::sets::read_set;
use crate::streams::read_stream;
use crate::strings::read_string;
use crate::table::{Name, find};
use crate::zsets::read_zset;
use command_words::ReadingFault;
use plain_model::{Command, Refusal};
use resp_frames::Request;
use std::alloc::Global;

// Turns the words behind a known name into its command.
fn read_named<'r>(
    alloc: Global,
    name: Name,
    request: &'r Request<'_>,
) -> Result<Command<'r>, ReadingFault>
    requires { 0 < length request.now }
    ensures { ReadsAs (λ command. command) (by_family name (drop 1 request.now)) result }
{
    match name {
        Name::Strings(name) => read_string(alloc, name, request).map(Command::Strings),
        Name::Lists(name) => read_list(alloc, name, request).map(Command::Lists),
        Name::Sets(name) => read_set(alloc, name, request).map(Command::Sets),
        Name::Hashes(name) => read_hash(alloc, name, request).map(Command::Hashes),
        Name::Zsets(name) => read_zset(alloc, name, request).map(Command::Zsets),
        Name::Streams(name) => read_stream(alloc, name, request).map(Command::Streams),
        Name::Keys(name) => read_key(alloc, name, request).map(Command::Keys),
        Name::Connection(name) => read_connection(name, request).map(Command::Connection),
    }
}

/// Reads a request: the command that its words mean, or why they are refused. First the name is looked up, then the
/// number of words is looked at, and then they are read from left to right. The command lends its words from the request.
///
/// `Memory` where there is none for a list of words, in a command that has one.
pub fn read<'r>(alloc: Global, request: &'r Request<'_>) -> Result<Command<'r>, ReadingFault>
    ensures reads { ReadsCommand request.now result }
    ensures asked { IfOk result (λ command. IsAsked command) }
{
    prove!(request.len() > 0);
    match find(request.word(0)) {
        None => Err(ReadingFault::Refused(Refusal::UnknownCommand)),
        Some(name) => read_named(alloc, name, request),
    }
}
