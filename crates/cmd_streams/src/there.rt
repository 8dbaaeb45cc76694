//! The stream of an item number.

ghost use Rattle.keyspace.specs.Commands.{Ready, visible};
ghost use Rattle.cmd_streams.specs.Found.{FoundStream};
ghost use Rattle.cmd_streams.specs.Changed.{StreamItem};

use blocks::BlockStore;
use keyspace::{Keyspace, Value};
use plain_model::Ctx;
use stream_object::Stream;

/// The stream at a key that was sought, by its item number.
pub fn stream_there<'a, B: BlockStore>(
    keyspace: &'a Keyspace<B>,
    at: &Ctx,
    key: &[u8],
    item: usize,
) -> &'a Stream
    requires ready { Ready B.blocks keyspace.now at.now }
    requires there { StreamItem (visible B.blocks keyspace.now at.now) keyspace.now.bases (B.blocks keyspace.now.store) at.now.db key.now at.now.moment item }
    ensures { FoundStream (visible B.blocks keyspace.now at.now) (B.blocks keyspace.now.store) key.now result.now }
{
    // the item number tells the key
    let _ = key;
    let value = keyspace.value_at(at.db, item);
    match value {
        Value::Stream(stream) => stream,
        _ => unreachable!(),
    }
}
