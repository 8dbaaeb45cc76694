//! Each command by its own function.

ghost use Rattle.plain_model.specs.Meant.{IsAsked};
ghost use Rattle.plain_model.specs.declared.command.Command.TheVariants.{Hashes};
ghost use Rattle.keyspace.specs.Commands.{Ready, Runs};

use crate::paging::hscan;
use crate::{
    hdel, hexists, hget, hgetall, hincrby, hkeys, hlen, hmget, hmset, hrandfield, hset, hsetnx,
    hstrlen, hvals,
};
use blocks::BlockStore;
use keyspace::Keyspace;
use plain_model::{Ctx, HashCommand, Memory, Reply};
use rand_pcg::Pcg32;

/// Runs a command on hashes by its own function.
pub fn run_hashes<B: BlockStore>(
    keyspace: &mut Keyspace<B>,
    at: &Ctx,
    command: &HashCommand<'_>,
    dice: &mut Pcg32,
) -> Result<Reply, Memory>
    requires ready { Ready B.blocks keyspace.old at.now }
    requires asked { IsAsked (Hashes command.now) }
    ensures { Runs B.blocks B.step keyspace.old keyspace.new at.now (Hashes command.now) result }
{
    match command {
        HashCommand::HSet(key, own) => hset(keyspace, at, key.as_slice(), own.as_slice()),
        HashCommand::HMSet(key, own) => hmset(keyspace, at, key.as_slice(), own.as_slice()),
        HashCommand::HSetNx(key, field, value) => hsetnx(
            keyspace,
            at,
            key.as_slice(),
            field.as_slice(),
            value.as_slice(),
        ),
        HashCommand::HGet(key, field) => hget(keyspace, at, key.as_slice(), field.as_slice()),
        HashCommand::HMGet(key, own) => hmget(keyspace, at, key.as_slice(), own.as_slice()),
        HashCommand::HDel(key, own) => hdel(keyspace, at, key.as_slice(), own.as_slice()),
        HashCommand::HExists(key, field) => hexists(keyspace, at, key.as_slice(), field.as_slice()),
        HashCommand::HLen(key) => hlen(keyspace, at, key.as_slice()),
        HashCommand::HStrLen(key, field) => hstrlen(keyspace, at, key.as_slice(), field.as_slice()),
        HashCommand::HKeys(key) => hkeys(keyspace, at, key.as_slice()),
        HashCommand::HVals(key) => hvals(keyspace, at, key.as_slice()),
        HashCommand::HGetAll(key) => hgetall(keyspace, at, key.as_slice()),
        HashCommand::HIncrBy(key, field, n) => hincrby(
            keyspace,
            at,
            key.as_slice(),
            field.as_slice(),
            *n,
        ),
        HashCommand::HRandField(key, n, with_values) => hrandfield(
            keyspace,
            at,
            key.as_slice(),
            *n,
            *with_values,
            dice,
        ),
        HashCommand::HScan(key, cursor, options) => {
            hscan(keyspace, at, key.as_slice(), *cursor, options)
        }
    }
}
