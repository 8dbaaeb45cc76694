//! Keys with their values, by the types of these.

ghost use Rattle.std.specs.Prelude.{ℕ};
ghost use Rattle.blocks.specs.Blocks.{Owned};
ghost use Rattle.object_codec.specs.declared.limits.Limits.{Limits};
ghost use Rattle.fit_worlds.specs.Fit.{IsShort, IsFitValue};
ghost use Rattle.keyspace.specs.Values.{value_of, value_refs, IsSound};
ghost use Rattle.rdb_writer.specs.Keys.{WritesKey};

use crate::hashes::write_hash;
use crate::lists::write_list;
use crate::sets::write_set;
use crate::sorted::write_scored;
use crate::streams::write_log;
use crate::strings::write_text;
use blocks::BlockStore;
use keyspace::Value;
use outside::{HostFault, Shelf};
use rdb_parts::Pen;

/// Writes a key with its value. The moment, in milliseconds, is that of saving.
pub(crate) fn write_key<F: Shelf, B: BlockStore>(
    shelf: &mut F,
    pen: &mut Pen,
    store: &B,
    name: &[u8],
    value: &Value,
    moment: u64,
) -> Result<(), HostFault>
    requires owned { Owned (value_refs (B.blocks store.now) value.now) (B.blocks store.now) }
    requires sound { (limits : Limits) × (seed : ℕ) × IsSound limits seed (B.blocks store.now) value.now }
    requires short { IsShort name.now }
    requires fit { IsFitValue (value_of (B.blocks store.now) value.now) }
    ensures { WritesKey (F.seen shelf.old) (F.seen shelf.new) pen.old pen.new name.now (value_of (B.blocks store.now) value.now) result }
{
    match value {
        Value::Text(text) => write_text(shelf, pen, store, name, text),
        Value::List(list) => write_list(shelf, pen, store, name, list),
        Value::Set(set) => write_set(shelf, pen, store, name, set),
        Value::Hash(hash) => write_hash(shelf, pen, store, name, hash),
        Value::Zset(scored) => write_scored(shelf, pen, store, name, scored),
        Value::Stream(stream) => write_log(shelf, pen, store, name, stream, moment),
    }
}
