//! The encodings of values.

ghost use Rattle.std.specs.Prelude.{◌≡◌, IfOk};
ghost use Rattle.plain_world.specs.Worlds.{look};
ghost use Rattle.plain_model.specs.KeySteps.{IsEncoding};
ghost use Rattle.keyspace.specs.Commands.{Ready, visible};
ghost use Rattle.keyspace.specs.Shown.{IsActual};

use blocks::BlockStore;
use keyspace::Keyspace;
use plain_model::{Bytes, Ctx, Memory, Reply};

/// `OBJECT ENCODING key`: the name of the encoding of the value, or null where there is none.
pub fn object_encoding<B: BlockStore>(
    keyspace: &Keyspace<B>,
    at: &Ctx,
    key: &[u8],
) -> Result<Reply, Memory>
    requires ready { Ready B.blocks keyspace.now at.now }
    ensures gives { IfOk result (λ reply. IsEncoding (look (visible B.blocks keyspace.now at.now) key.now) reply) }
    ensures actual { IfOk result (λ reply. IsActual keyspace.now.bases (B.blocks keyspace.now.store) at.now key.now reply) }
{
    let alloc = keyspace.alloc();
    match keyspace.look(at.db, key, at.moment) {
        None => Reply::null(alloc),
        Some(value) => {
            let name = value.encoding(&keyspace.store);
            Reply::bulk(alloc, Bytes::new(alloc, name.as_bytes())?)
        }
    }
}
