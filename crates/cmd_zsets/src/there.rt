//! The scores of a sorted set that was sought.

ghost use Rattle.std.specs.Prelude.{◌≡◌};
ghost use Rattle.keyspace.specs.Commands.{Ready, visible};
ghost use Rattle.cmd_zsets.specs.Found.{FoundZset};
ghost use Rattle.cmd_zsets.specs.Changed.{ZsetItem, IsZsetThere};
ghost use Rattle.cmd_zsets.specs.Written.{IsScoreOf};

use blocks::BlockStore;
use keyspace::{Keyspace, Value};
use plain_model::Ctx;
use zset_object::Scored;

// The sorted set of an item number.
fn zset_there<'a, B: BlockStore>(
    keyspace: &'a Keyspace<B>,
    at: &Ctx,
    key: &[u8],
    item: usize,
) -> &'a Scored
    requires ready { Ready B.blocks keyspace.now at.now }
    requires there { ZsetItem (visible B.blocks keyspace.now at.now) keyspace.now.bases (B.blocks keyspace.now.store) at.now.db key.now at.now.moment item }
    ensures { FoundZset (visible B.blocks keyspace.now at.now) (B.blocks keyspace.now.store) key.now result.now }
{
    // the item number tells the key
    let _ = key;
    let value = keyspace.value_at(at.db, item);
    match value {
        Value::Zset(zset) => zset,
        _ => unreachable!(),
    }
}

/// The score of a member of the sorted set at a key that was sought, by its item number. `None` where it isn't there.
pub fn score_there<B: BlockStore>(
    keyspace: &Keyspace<B>,
    at: &Ctx,
    key: &[u8],
    there: Option<usize>,
    member: &[u8],
) -> Option<i64>
    requires ready { Ready B.blocks keyspace.now at.now }
    requires there { IsZsetThere (visible B.blocks keyspace.now at.now) keyspace.now.bases (B.blocks keyspace.now.store) at.now.db key.now at.now.moment there }
    ensures { IsScoreOf (visible B.blocks keyspace.now at.now) key.now member.now result }
{
    match there {
        None => None,
        Some(item) => zset_there(keyspace, at, key, item).score(&keyspace.store, member),
    }
}
