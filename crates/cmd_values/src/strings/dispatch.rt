//! Each command by its own function.

ghost use Rattle.std.specs.Prelude.{◌≡◌, ◌<◌};
ghost use Rattle.plain_model.specs.Meant.{IsAsked};
ghost use Rattle.plain_model.specs.declared.command.Command.TheVariants.{Strings};
ghost use Rattle.keyspace.specs.Commands.{Ready, Runs};

use crate::strings::changing::{append, setrange};
use crate::strings::counting::{decr, decrby, incr, incrby};
use crate::strings::lasting::{getex, psetex, setex};
use crate::strings::reading::{get, getrange, mget, strlen};
use crate::strings::writing::{getdel, getset, mset, msetnx, set, setnx};
use blocks::BlockStore;
use keyspace::Keyspace;
use plain_model::{Ctx, Memory, Reply, StringCommand};

/// Runs a command on strings by its own function.
pub fn run_strings<B: BlockStore>(
    keyspace: &mut Keyspace<B>,
    at: &Ctx,
    command: &StringCommand<'_>,
) -> Result<Reply, Memory>
    requires ready { Ready B.blocks keyspace.old at.now }
    requires asked { IsAsked (Strings command.now) }
    ensures { Runs B.blocks B.step keyspace.old keyspace.new at.now (Strings command.now) result }
{
    match command {
        StringCommand::Get(key) => get(keyspace, at, key.as_slice()),
        StringCommand::Set(key, value, options) => {
            set(keyspace, at, key.as_slice(), value.as_slice(), *options)
        }
        StringCommand::SetNx(key, value) => setnx(keyspace, at, key.as_slice(), value.as_slice()),
        StringCommand::SetEx(key, n, value) => {
            setex(keyspace, at, key.as_slice(), *n, value.as_slice())
        }
        StringCommand::PSetEx(key, n, value) => {
            psetex(keyspace, at, key.as_slice(), *n, value.as_slice())
        }
        StringCommand::GetEx(key, renewal) => getex(keyspace, at, key.as_slice(), *renewal),
        StringCommand::GetSet(key, value) => getset(keyspace, at, key.as_slice(), value.as_slice()),
        StringCommand::GetDel(key) => getdel(keyspace, at, key.as_slice()),
        StringCommand::MGet(keys) => mget(keyspace, at, keys.as_slice()),
        StringCommand::MSet(pairs) => mset(keyspace, at, pairs.as_slice()),
        StringCommand::MSetNx(pairs) => msetnx(keyspace, at, pairs.as_slice()),
        StringCommand::Append(key, tail) => append(keyspace, at, key.as_slice(), tail.as_slice()),
        StringCommand::StrLen(key) => strlen(keyspace, at, key.as_slice()),
        StringCommand::GetRange(key, a, b) => getrange(keyspace, at, key.as_slice(), *a, *b),
        StringCommand::SetRange(key, place, piece) => {
            setrange(keyspace, at, key.as_slice(), *place, piece.as_slice())
        }
        StringCommand::Incr(key) => incr(keyspace, at, key.as_slice()),
        StringCommand::Decr(key) => decr(keyspace, at, key.as_slice()),
        StringCommand::IncrBy(key, n) => incrby(keyspace, at, key.as_slice(), *n),
        StringCommand::DecrBy(key, n) => decrby(keyspace, at, key.as_slice(), *n),
    }
}
