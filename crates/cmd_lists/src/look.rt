//! The list at a key.

ghost use Rattle.std.specs.Prelude.{◌≡◌, None};
ghost use Rattle.plain_world.specs.Worlds.{look};
ghost use Rattle.keyspace.specs.Commands.{Ready, visible};
ghost use Rattle.keyspace.specs.Looks.{IsLook};
ghost use Rattle.cmd_lists.specs.Found.{FoundList, FoundOther};

use blocks::BlockStore;
use keyspace::{Keyspace, Look, Value};
use plain_model::Ctx;
use quicklist::Quick;

/// The list at a key.
pub fn list_at<'a, B: BlockStore>(
    keyspace: &'a Keyspace<B>,
    at: &Ctx,
    key: &[u8],
) -> Look<&'a Quick>
    requires ready { Ready B.blocks keyspace.now at.now }
    ensures { IsLook (look (visible B.blocks keyspace.now at.now) key.now ≡ None) (FoundOther (visible B.blocks keyspace.now at.now) key.now)
        (λ list. FoundList (visible B.blocks keyspace.now at.now) (B.blocks keyspace.now.store) key.now list.now) result }
{
    match keyspace.look(at.db, key, at.moment) {
        None => Look::Missing,
        Some(value) => match value {
            Value::List(list) => Look::There(list),
            Value::Text(_) | Value::Set(_) | Value::Hash(_) | Value::Zset(_) | Value::Stream(_) =>
                Look::Other,
        },
    }
}
