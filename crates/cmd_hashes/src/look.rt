//! The hash at a key.

ghost use Rattle.std.specs.Prelude.{◌≡◌, None};
ghost use Rattle.plain_world.specs.Worlds.{look};
ghost use Rattle.keyspace.specs.Commands.{Ready, visible};
ghost use Rattle.keyspace.specs.Looks.{IsLook};
ghost use Rattle.cmd_hashes.specs.Found.{FoundHash, FoundOther};

use blocks::BlockStore;
use hash_object::Fields;
use keyspace::{Keyspace, Look, Value};
use plain_model::Ctx;

/// The hash at a key.
pub fn hash_at<'a, B: BlockStore>(
    keyspace: &'a Keyspace<B>,
    at: &Ctx,
    key: &[u8],
) -> Look<&'a Fields>
    requires ready { Ready B.blocks keyspace.now at.now }
    ensures { IsLook (look (visible B.blocks keyspace.now at.now) key.now ≡ None) (FoundOther (visible B.blocks keyspace.now at.now) key.now)
        (λ fields. FoundHash (visible B.blocks keyspace.now at.now) (B.blocks keyspace.now.store) key.now fields.now) result }
{
    match keyspace.look(at.db, key, at.moment) {
        None => Look::Missing,
        Some(value) => match value {
            Value::Hash(fields) => Look::There(fields),
            Value::Text(_) | Value::List(_) | Value::Set(_) | Value::Zset(_) | Value::Stream(_) =>
                Look::Other,
        },
    }
}
