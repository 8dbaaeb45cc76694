//! The set at a key.

ghost use Rattle.std.specs.Prelude.{◌≡◌, None};
ghost use Rattle.plain_world.specs.Worlds.{look};
ghost use Rattle.plain_model.specs.HashSteps.{one_if};
ghost use Rattle.keyspace.specs.Commands.{Ready, visible};
ghost use Rattle.keyspace.specs.Looks.{IsLook};
ghost use Rattle.cmd_sets.specs.Found.{FoundSet, FoundOther};

use blocks::BlockStore;
use keyspace::{Keyspace, Look, Value};
use plain_model::Ctx;
use set_object::Members;

/// The set at a key.
pub fn set_at<'a, B: BlockStore>(
    keyspace: &'a Keyspace<B>,
    at: &Ctx,
    key: &[u8],
) -> Look<&'a Members>
    requires ready { Ready B.blocks keyspace.now at.now }
    ensures { IsLook (look (visible B.blocks keyspace.now at.now) key.now ≡ None) (FoundOther (visible B.blocks keyspace.now at.now) key.now)
        (λ set. FoundSet (visible B.blocks keyspace.now at.now) (B.blocks keyspace.now.store) key.now set.now) result }
{
    match keyspace.look(at.db, key, at.moment) {
        None => Look::Missing,
        Some(value) => match value {
            Value::Set(set) => Look::There(set),
            Value::Text(_) | Value::List(_) | Value::Hash(_) | Value::Zset(_) | Value::Stream(_) =>
                Look::Other,
        },
    }
}

/// 1 where something is so, and else 0.
pub fn number_if(is: bool) -> i64
    ensures { result ≡ one_if is }
{
    if is { 1 } else { 0 }
}
