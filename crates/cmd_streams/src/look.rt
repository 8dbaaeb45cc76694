//! The stream at a key.

ghost use Rattle.std.specs.Prelude.{◌≡◌, None};
ghost use Rattle.plain_world.specs.Worlds.{look};
ghost use Rattle.keyspace.specs.Commands.{Ready, visible};
ghost use Rattle.keyspace.specs.Looks.{IsLook};
ghost use Rattle.cmd_streams.specs.Found.{FoundStream, FoundOther};

use blocks::BlockStore;
use keyspace::{Keyspace, Look, Value};
use plain_model::Ctx;
use stream_object::Stream;

/// The stream at a key.
pub fn stream_at<'a, B: BlockStore>(
    keyspace: &'a Keyspace<B>,
    at: &Ctx,
    key: &[u8],
) -> Look<&'a Stream>
    requires ready { Ready B.blocks keyspace.now at.now }
    ensures { IsLook (look (visible B.blocks keyspace.now at.now) key.now ≡ None) (FoundOther (visible B.blocks keyspace.now at.now) key.now)
        (λ stream. FoundStream (visible B.blocks keyspace.now at.now) (B.blocks keyspace.now.store) key.now stream.now) result }
{
    match keyspace.look(at.db, key, at.moment) {
        None => Look::Missing,
        Some(value) => match value {
            Value::Stream(stream) => Look::There(stream),
            Value::Text(_) | Value::List(_) | Value::Set(_) | Value::Hash(_) | Value::Zset(_) =>
                Look::Other,
        },
    }
}
