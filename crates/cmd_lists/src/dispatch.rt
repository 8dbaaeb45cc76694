//! Each command by its own function.

ghost use Rattle.plain_model.specs.Meant.{IsAsked};
ghost use Rattle.plain_model.specs.declared.command.Command.TheVariants.{Lists};
ghost use Rattle.keyspace.specs.Commands.{Ready, Runs};

use crate::{
    lindex, linsert, llen, lmove, lpop, lpos, lpush, lpushx, lrange, lrem, lset, ltrim, rpop,
    rpoplpush, rpush, rpushx,
};
use blocks::BlockStore;
use keyspace::Keyspace;
use plain_model::{Ctx, ListCommand, Memory, Reply};

/// Runs a command on lists by its own function.
pub fn run_lists<B: BlockStore>(
    keyspace: &mut Keyspace<B>,
    at: &Ctx,
    command: &ListCommand<'_>,
) -> Result<Reply, Memory>
    requires ready { Ready B.blocks keyspace.old at.now }
    requires asked { IsAsked (Lists command.now) }
    ensures { Runs B.blocks B.step keyspace.old keyspace.new at.now (Lists command.now) result }
{
    match command {
        ListCommand::LPush(key, own) => lpush(keyspace, at, key.as_slice(), own.as_slice()),
        ListCommand::RPush(key, own) => rpush(keyspace, at, key.as_slice(), own.as_slice()),
        ListCommand::LPushX(key, own) => lpushx(keyspace, at, key.as_slice(), own.as_slice()),
        ListCommand::RPushX(key, own) => rpushx(keyspace, at, key.as_slice(), own.as_slice()),
        ListCommand::LPop(key, n) => lpop(keyspace, at, key.as_slice(), *n),
        ListCommand::RPop(key, n) => rpop(keyspace, at, key.as_slice(), *n),
        ListCommand::LLen(key) => llen(keyspace, at, key.as_slice()),
        ListCommand::LIndex(key, index) => lindex(keyspace, at, key.as_slice(), *index),
        ListCommand::LSet(key, index, own) => lset(
            keyspace,
            at,
            key.as_slice(),
            *index,
            own.as_slice(),
        ),
        ListCommand::LRange(key, a, b) => lrange(keyspace, at, key.as_slice(), *a, *b),
        ListCommand::LTrim(key, a, b) => ltrim(keyspace, at, key.as_slice(), *a, *b),
        ListCommand::LInsert(key, side, pivot, own) => linsert(
            keyspace,
            at,
            key.as_slice(),
            *side,
            pivot.as_slice(),
            own.as_slice(),
        ),
        ListCommand::LRem(key, n, own) => lrem(keyspace, at, key.as_slice(), *n, own.as_slice()),
        ListCommand::LPos(key, own, options) => lpos(
            keyspace,
            at,
            key.as_slice(),
            own.as_slice(),
            *options,
        ),
        ListCommand::LMove(from, to, end, other) => lmove(
            keyspace,
            at,
            from.as_slice(),
            to.as_slice(),
            *end,
            *other,
        ),
        ListCommand::RPopLPush(from, to) => rpoplpush(keyspace, at, from.as_slice(), to.as_slice()),
    }
}
