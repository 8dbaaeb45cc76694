//! Each command by its own function.

ghost use Rattle.plain_model.specs.Meant.{IsAsked};
ghost use Rattle.plain_model.specs.declared.command.Command.TheVariants.{Sets};
ghost use Rattle.keyspace.specs.Commands.{Ready, Runs};

use crate::paging::sscan;
use crate::{
    sadd, scard, sintercard, sismember, sjoin, sjoin_store, smembers, smismember, smove, spop,
    srandmember, srem,
};
use blocks::BlockStore;
use keyspace::Keyspace;
use plain_model::{Ctx, Memory, Reply, SetCommand};
use rand_pcg::Pcg32;

/// Runs a command on sets by its own function.
pub fn run_sets<B: BlockStore>(
    keyspace: &mut Keyspace<B>,
    at: &Ctx,
    command: &SetCommand<'_>,
    dice: &mut Pcg32,
) -> Result<Reply, Memory>
    requires ready { Ready B.blocks keyspace.old at.now }
    requires asked { IsAsked (Sets command.now) }
    ensures { Runs B.blocks B.step keyspace.old keyspace.new at.now (Sets command.now) result }
{
    match command {
        SetCommand::SAdd(key, own) => sadd(keyspace, at, key.as_slice(), own.as_slice()),
        SetCommand::SRem(key, own) => srem(keyspace, at, key.as_slice(), own.as_slice()),
        SetCommand::SIsMember(key, member) => sismember(
            keyspace,
            at,
            key.as_slice(),
            member.as_slice(),
        ),
        SetCommand::SMIsMember(key, own) => smismember(
            keyspace,
            at,
            key.as_slice(),
            own.as_slice(),
        ),
        SetCommand::SMembers(key) => smembers(keyspace, at, key.as_slice()),
        SetCommand::SCard(key) => scard(keyspace, at, key.as_slice()),
        SetCommand::SMove(from, to, member) => smove(
            keyspace,
            at,
            from.as_slice(),
            to.as_slice(),
            member.as_slice(),
        ),
        SetCommand::SPop(key, n) => spop(keyspace, at, key.as_slice(), *n, dice),
        SetCommand::SRandMember(key, n) => srandmember(keyspace, at, key.as_slice(), *n, dice),
        SetCommand::SJoin(how, keys) => sjoin(keyspace, at, *how, keys.as_slice()),
        SetCommand::SJoinStore(how, to, keys) => sjoin_store(
            keyspace,
            at,
            *how,
            to.as_slice(),
            keys.as_slice(),
        ),
        SetCommand::SInterCard(keys, limit) => sintercard(keyspace, at, keys.as_slice(), *limit),
        SetCommand::SScan(key, cursor, options) => {
            sscan(keyspace, at, key.as_slice(), *cursor, options)
        }
    }
}
