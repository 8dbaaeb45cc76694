//! The command that tells a page of a sorted set.

ghost use Rattle.std.specs.Prelude.{◌<◌, true, IfOk};
ghost use Rattle.plain_model.specs.ZsetSteps.{may_zsets};
ghost use Rattle.plain_model.specs.declared.zset_command.ZsetCommand.TheVariants as zsets;
ghost use Rattle.keyspace.specs.Commands.{Ready, visible};
ghost use Rattle.keyspace.specs.Pages.{IsValuePage};

use blocks::BlockStore;
use keyspace::{Keyspace, Value, empty_page, page_of};
use plain_model::{Ctx, Memory, Refusal, Reply, ScanOptions};
use zset_object::Scored;

/// `ZSCAN key cursor [MATCH pattern] [COUNT n]`: the next cursor, and the members, each followed by its score, of the moves
/// from this one on until COUNT of them were met, the cursor is 0 or ten times as many moves were made, without those that
/// MATCH drops. A missing key has an empty page, and the scan ends there (Redis command reference, "ZSCAN").
pub fn zscan<B: BlockStore>(
    keyspace: &Keyspace<B>,
    at: &Ctx,
    key: &[u8],
    cursor: u64,
    options: &ScanOptions<'_>,
) -> Result<Reply, Memory>
    requires ready { Ready B.blocks keyspace.now at.now }
    requires count { 0 < options.now.count }
    ensures gives { IfOk result
        (λ reply. may_zsets keyspace.now.bases.seed (visible B.blocks keyspace.now at.now) (zsets.ZScan key.now cursor options.now) reply (visible B.blocks keyspace.now at.now)) }
    ensures shows { IfOk result (λ reply. IsValuePage keyspace.now.bases (B.blocks keyspace.now.store) at.now key.now cursor options.now true reply) }
{
    let alloc = keyspace.alloc();
    match keyspace.look(at.db, key, at.moment) {
        None => empty_page(alloc),
        Some(value) => match value {
            Value::Zset(zset) => {
                let zset: &Scored = zset;
                page_of(keyspace, zset, cursor, options)
            }
            _ => Reply::refused(alloc, Refusal::WrongType),
        },
    }
}
