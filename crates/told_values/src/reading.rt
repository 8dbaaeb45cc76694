//! What stands at a key, read out.

ghost use Rattle.std.specs.Prelude.{◌≡◌, ◌<◌, ℕ, [], IfOk};
ghost use Rattle.blocks.specs.Blocks.{Owned};
ghost use Rattle.object_codec.specs.declared.limits.Limits.{Limits};
ghost use Rattle.plain_world.specs.Worlds.{live, look_in};
ghost use Rattle.keyspace.specs.Databases.{means};
ghost use Rattle.keyspace.specs.Sound.{IsIntact};
ghost use Rattle.keyspace.specs.Values.{value_of, value_refs, IsSound};
ghost use Rattle.told_values.specs.Told.{told, IsOrdered};
ghost use Rattle.told_values.specs.Entries.{entry_told};

use crate::hashes::read_hash;
use crate::kind::Kind;
use crate::lists::read_list;
use crate::scores::read_scores;
use crate::sets::read_set;
use crate::streams::read_stream;
use crate::texts::read_text;
use crate::{Entry, Held};
use blocks::{BlockStore, Memory};
use keyspace::{Keyspace, Value};
use std::alloc::Global;

// A value, by its type.
fn read_kind<B: BlockStore>(alloc: Global, store: &B, value: &Value) -> Result<Kind, Memory>
    requires owned { Owned (value_refs (B.blocks store.now) value.now) (B.blocks store.now) }
    requires sound { (limits : Limits) × (seed : ℕ) × IsSound limits seed (B.blocks store.now) value.now }
    ensures told { IfOk result (λ kind. told kind ≡ value_of (B.blocks store.now) value.now) }
    ensures ordered { IfOk result IsOrdered }
{
    match value {
        Value::Text(text) => Ok(Kind::Text(read_text(alloc, store, text)?)),
        Value::List(list) => Ok(Kind::List(read_list(alloc, store, list)?)),
        Value::Set(set) => Ok(Kind::Set(read_set(alloc, store, set)?)),
        Value::Hash(hash) => Ok(Kind::Hash(read_hash(alloc, store, hash)?)),
        Value::Zset(scored) => Ok(Kind::Sorted(read_scores(alloc, store, scored)?)),
        Value::Stream(stream) => Ok(Kind::Stream(read_stream(alloc, store, stream)?)),
    }
}

/// What stands at a key of a database at the moment, in milliseconds, with its deadline where it has one. `None` comes exactly where
/// no key that is there at the moment has the name. `Memory` for want of memory alone.
pub fn read_entry<B: BlockStore>(
    alloc: Global,
    keyspace: &Keyspace<B>,
    db: usize,
    key: &[u8],
    moment: u64,
) -> Result<Option<Entry>, Memory>
    requires db { db < 16 }
    requires intact { IsIntact keyspace.now.bases (B.blocks keyspace.now.store) [] }
    ensures { IfOk result (λ entry. entry_told entry ≡ look_in (live (means 0 keyspace.now.bases (B.blocks keyspace.now.store)) moment) db key.now) }
{
    let found = keyspace.seek_at(db, key, moment);
    match found.there {
        None => Ok(None),
        Some(at) => {
            let value = keyspace.value_at(db, at);
            let kind = read_kind(alloc, &keyspace.store, value)?;
            Ok(Some(Entry {
                value: Held::new(kind),
                deadline: found.deadline,
            }))
        }
    }
}
