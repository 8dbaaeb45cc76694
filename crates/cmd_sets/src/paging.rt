//! The command that tells a page of a set.

ghost use Rattle.std.specs.Prelude.{◌<◌, false, IfOk};
ghost use Rattle.plain_model.specs.SetSteps.{may_sets};
ghost use Rattle.plain_model.specs.declared.set_command.SetCommand.TheVariants as sets;
ghost use Rattle.keyspace.specs.Commands.{Ready, visible};
ghost use Rattle.keyspace.specs.Pages.{IsValuePage};

use blocks::BlockStore;
use keyspace::{Keyspace, Value, empty_page, page_of};
use plain_model::{Ctx, Memory, Refusal, Reply, ScanOptions};
use set_object::Members;

/// `SSCAN key cursor [MATCH pattern] [COUNT n]`: the next cursor, and the members of the moves
/// from this one on until COUNT of them were met, the cursor is 0 or ten times as many moves were made, without those that
/// MATCH drops. A missing key has an empty page, and the scan ends there (Redis command reference, "SSCAN").
pub fn sscan<B: BlockStore>(
    keyspace: &Keyspace<B>,
    at: &Ctx,
    key: &[u8],
    cursor: u64,
    options: &ScanOptions<'_>,
) -> Result<Reply, Memory>
    requires ready { Ready B.blocks keyspace.now at.now }
    requires count { 0 < options.now.count }
    ensures gives { IfOk result
        (λ reply. may_sets keyspace.now.bases.seed (visible B.blocks keyspace.now at.now) (sets.SScan key.now cursor options.now) reply (visible B.blocks keyspace.now at.now)) }
    ensures shows { IfOk result (λ reply. IsValuePage keyspace.now.bases (B.blocks keyspace.now.store) at.now key.now cursor options.now false reply) }
{
    let alloc = keyspace.alloc();
    match keyspace.look(at.db, key, at.moment) {
        None => empty_page(alloc),
        Some(value) => match value {
            Value::Set(set) => {
                let set: &Members = set;
                page_of(keyspace, set, cursor, options)
            }
            _ => Reply::refused(alloc, Refusal::WrongType),
        },
    }
}
