//! Each command by its own function.

ghost use Rattle.plain_model.specs.Meant.{IsAsked};
ghost use Rattle.plain_model.specs.declared.command.Command.TheVariants.{Zsets};
ghost use Rattle.keyspace.specs.Commands.{Ready, Runs};

use crate::paging::zscan;
use crate::{
    zadd, zcard, zcount, zincr, zjoin_store, zmscore, zpop, zrandmember, zrange, zrangebyscore,
    zrank, zrem, zremrangebyrank, zremrangebyscore, zscore,
};
use blocks::BlockStore;
use keyspace::Keyspace;
use plain_model::{Ctx, Memory, Reply, ZsetCommand};
use rand_pcg::Pcg32;

/// Runs a command on sorted sets by its own function.
pub fn run_zsets<B: BlockStore>(
    keyspace: &mut Keyspace<B>,
    at: &Ctx,
    command: &ZsetCommand<'_>,
    dice: &mut Pcg32,
) -> Result<Reply, Memory>
    requires ready { Ready B.blocks keyspace.old at.now }
    requires asked { IsAsked (Zsets command.now) }
    ensures { Runs B.blocks B.step keyspace.old keyspace.new at.now (Zsets command.now) result }
{
    match command {
        ZsetCommand::ZScore(key, member) => zscore(keyspace, at, key.as_slice(), member.as_slice()),
        ZsetCommand::ZMScore(key, members) => {
            zmscore(keyspace, at, key.as_slice(), members.as_slice())
        }
        ZsetCommand::ZCard(key) => zcard(keyspace, at, key.as_slice()),
        ZsetCommand::ZCount(key, min, max) => zcount(keyspace, at, key.as_slice(), *min, *max),
        ZsetCommand::ZRank(key, member, from, with_score) => zrank(
            keyspace,
            at,
            key.as_slice(),
            member.as_slice(),
            *from,
            *with_score,
        ),
        ZsetCommand::ZRange(key, a, b, from, with_scores) => zrange(
            keyspace,
            at,
            key.as_slice(),
            *a,
            *b,
            *from,
            *with_scores,
        ),
        ZsetCommand::ZRangeByScore(key, min, max, from, limit, with_scores) => zrangebyscore(
            keyspace,
            at,
            key.as_slice(),
            *min,
            *max,
            *from,
            *limit,
            *with_scores,
        ),
        ZsetCommand::ZAdd(key, rules, ch, own) => zadd(
            keyspace,
            at,
            key.as_slice(),
            *rules,
            *ch,
            own.as_slice(),
        ),
        ZsetCommand::ZIncr(key, rules, by, member) => zincr(
            keyspace,
            at,
            key.as_slice(),
            *rules,
            *by,
            member.as_slice(),
        ),
        ZsetCommand::ZRem(key, members) => zrem(keyspace, at, key.as_slice(), members.as_slice()),
        ZsetCommand::ZRemRangeByRank(key, a, b) => {
            zremrangebyrank(keyspace, at, key.as_slice(), *a, *b)
        }
        ZsetCommand::ZRemRangeByScore(key, min, max) => {
            zremrangebyscore(keyspace, at, key.as_slice(), *min, *max)
        }
        ZsetCommand::ZPop(key, from, most) => zpop(keyspace, at, key.as_slice(), *from, *most),
        ZsetCommand::ZRandMember(key, n, with_scores) => zrandmember(
            keyspace,
            at,
            key.as_slice(),
            *n,
            *with_scores,
            dice,
        ),
        ZsetCommand::ZJoinStore(join, to, keys, how) => zjoin_store(
            keyspace,
            at,
            *join,
            to.as_slice(),
            keys.as_slice(),
            *how,
        ),
        ZsetCommand::ZScan(key, cursor, options) => {
            zscan(keyspace, at, key.as_slice(), *cursor, options)
        }
    }
}
