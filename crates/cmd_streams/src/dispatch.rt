//! Each command by its own function.

ghost use Rattle.plain_model.specs.Meant.{IsAsked};
ghost use Rattle.plain_model.specs.declared.command.Command.TheVariants.{Streams};
ghost use Rattle.keyspace.specs.Commands.{Ready, Runs};

use crate::{
    xack, xadd, xdel, xgroup_create, xgroup_destroy, xlen, xpending, xrange, xread, xreadgroup,
    xtrim,
};
use blocks::BlockStore;
use keyspace::Keyspace;
use plain_model::{Ctx, Memory, Reply, StreamCommand};

/// Runs a command on streams by its own function.
pub fn run_streams<B: BlockStore>(
    keyspace: &mut Keyspace<B>,
    at: &Ctx,
    command: &StreamCommand<'_>,
) -> Result<Reply, Memory>
    requires ready { Ready B.blocks keyspace.old at.now }
    requires asked { IsAsked (Streams command.now) }
    ensures { Runs B.blocks B.step keyspace.old keyspace.new at.now (Streams command.now) result }
{
    match command {
        StreamCommand::XAdd(key, options, id, pairs) => xadd(
            keyspace,
            at,
            key.as_slice(),
            *options,
            *id,
            pairs.as_slice(),
        ),
        StreamCommand::XLen(key) => xlen(keyspace, at, key.as_slice()),
        StreamCommand::XRange(key, from, to, order, limit) => xrange(
            keyspace,
            at,
            key.as_slice(),
            *from,
            *to,
            *order,
            *limit,
        ),
        StreamCommand::XDel(key, ids) => xdel(keyspace, at, key.as_slice(), ids.as_slice()),
        StreamCommand::XTrim(key, trim) => xtrim(keyspace, at, key.as_slice(), *trim),
        StreamCommand::XRead(limit, asked) => xread(keyspace, at, *limit, asked.as_slice()),
        StreamCommand::XGroupCreate(key, name, id, make) => xgroup_create(
            keyspace,
            at,
            key.as_slice(),
            name.as_slice(),
            *id,
            *make,
        ),
        StreamCommand::XGroupDestroy(key, name) => {
            xgroup_destroy(keyspace, at, key.as_slice(), name.as_slice())
        }
        StreamCommand::XReadGroup(name, consumer, limit, asked) => xreadgroup(
            keyspace,
            at,
            name.as_slice(),
            consumer.as_slice(),
            *limit,
            asked.as_slice(),
        ),
        StreamCommand::XAck(key, name, ids) => xack(
            keyspace,
            at,
            key.as_slice(),
            name.as_slice(),
            ids.as_slice(),
        ),
        StreamCommand::XPending(key, name) => {
            xpending(keyspace, at, key.as_slice(), name.as_slice())
        }
    }
}
