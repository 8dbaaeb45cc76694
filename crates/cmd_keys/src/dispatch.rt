//! Each command by its own function.

ghost use Rattle.std.specs.Prelude.{◌≡◌, ◌<◌};
ghost use Rattle.plain_model.specs.Meant.{IsAsked};
ghost use Rattle.plain_model.specs.declared.command.Command.TheVariants.{Keys, Connection};
ghost use Rattle.keyspace.specs.Commands.{Ready, Runs};
ghost use Rattle.cmd_keys.specs.Found.{IsCommon};

use crate::connection::{dbsize, echo, flushall, flushdb, ping, quit};
use crate::keys::{
    copy, del, exists, expire, expireat, expiretime, keys_like, move_key, object_encoding, persist,
    pexpire, pexpireat, pexpiretime, pttl, randomkey, rename, renamenx, scan, touch, ttl, type_of,
    unlink,
};
use blocks::BlockStore;
use keyspace::Keyspace;
use plain_model::{ConnectionCommand, Ctx, KeyCommand, Memory, Reply};
use rand_pcg::Pcg32;

/// Runs a command on keys by its own function. RANDOMKEY draws from the dice.
pub fn run_keys<B: BlockStore>(
    keyspace: &mut Keyspace<B>,
    at: &Ctx,
    command: &KeyCommand<'_>,
    dice: &mut Pcg32,
) -> Result<Reply, Memory>
    requires ready { Ready B.blocks keyspace.old at.now }
    requires asked { IsAsked (Keys command.now) }
    ensures { Runs B.blocks B.step keyspace.old keyspace.new at.now (Keys command.now) result }
{
    match command {
        KeyCommand::Del(names) => del(keyspace, at, names.as_slice()),
        KeyCommand::Unlink(names) => unlink(keyspace, at, names.as_slice()),
        KeyCommand::Exists(names) => exists(keyspace, at, names.as_slice()),
        KeyCommand::Touch(names) => touch(keyspace, at, names.as_slice()),
        KeyCommand::TypeOf(key) => type_of(keyspace, at, key.as_slice()),
        KeyCommand::Expire(key, n, options) => expire(keyspace, at, key.as_slice(), *n, *options),
        KeyCommand::PExpire(key, n, options) => pexpire(keyspace, at, key.as_slice(), *n, *options),
        KeyCommand::ExpireAt(key, n, options) => {
            expireat(keyspace, at, key.as_slice(), *n, *options)
        }
        KeyCommand::PExpireAt(key, n, options) => {
            pexpireat(keyspace, at, key.as_slice(), *n, *options)
        }
        KeyCommand::Ttl(key) => ttl(keyspace, at, key.as_slice()),
        KeyCommand::PTtl(key) => pttl(keyspace, at, key.as_slice()),
        KeyCommand::ExpireTime(key) => expiretime(keyspace, at, key.as_slice()),
        KeyCommand::PExpireTime(key) => pexpiretime(keyspace, at, key.as_slice()),
        KeyCommand::Persist(key) => persist(keyspace, at, key.as_slice()),
        KeyCommand::Rename(from, to) => rename(keyspace, at, from.as_slice(), to.as_slice()),
        KeyCommand::RenameNx(from, to) => renamenx(keyspace, at, from.as_slice(), to.as_slice()),
        KeyCommand::Copy(from, to, options) => {
            copy(keyspace, at, from.as_slice(), to.as_slice(), *options)
        }
        KeyCommand::MoveKey(key, number) => move_key(keyspace, at, key.as_slice(), *number),
        KeyCommand::RandomKey => randomkey(keyspace, at, dice),
        KeyCommand::ObjectEncoding(key) => object_encoding(keyspace, at, key.as_slice()),
        KeyCommand::KeysLike(pattern) => keys_like(keyspace, at, pattern.as_slice()),
        KeyCommand::Scan(cursor, options) => scan(keyspace, at, *cursor, options),
    }
}

/// Runs a command on the connection or the server by its own function. SELECT is none of them: whoever keeps the number of
/// the selected database answers it. Nor are MEMORY and DEBUG, which tell of slabs, and leave tables and blocks as no other
/// command does.
pub fn run_connection<B: BlockStore>(
    keyspace: &mut Keyspace<B>,
    at: &Ctx,
    command: &ConnectionCommand<'_>,
) -> Result<Reply, Memory>
    requires ready { Ready B.blocks keyspace.old at.now }
    requires common { IsCommon command.now }
    ensures { Runs B.blocks B.step keyspace.old keyspace.new at.now (Connection command.now) result }
{
    match command {
        ConnectionCommand::Ping(text) => ping(keyspace.alloc(), text),
        ConnectionCommand::Echo(text) => echo(keyspace.alloc(), text.as_slice()),
        ConnectionCommand::Quit => quit(keyspace.alloc()),
        ConnectionCommand::Select(_) => unreachable!(),
        ConnectionCommand::DbSize => dbsize(keyspace, at),
        ConnectionCommand::FlushDb => flushdb(keyspace, at),
        ConnectionCommand::FlushAll => flushall(keyspace, at),
        ConnectionCommand::MemorySlabs => unreachable!(),
        ConnectionCommand::DebugRehash(_) => unreachable!(),
        ConnectionCommand::DebugDefrag(_) => unreachable!(),
    }
}
