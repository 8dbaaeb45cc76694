//! The fields of a hash that was sought.

ghost use Rattle.std.specs.Prelude.{◌≡◌, ℕ, List, Option, is_some};
ghost use Rattle.keyspace.specs.Commands.{Ready, visible};
ghost use Rattle.cmd_hashes.specs.Found.{FoundHash, text_of};
ghost use Rattle.cmd_hashes.specs.Changed.{HashItem, IsHashThere, IsValue};

use blocks::BlockStore;
use hash_object::Fields;
use keyspace::{Keyspace, Value};
use listpack::Element;
use plain_model::Ctx;

// The hash of an item number.
fn hash_there<'a, B: BlockStore>(
    keyspace: &'a Keyspace<B>,
    at: &Ctx,
    key: &[u8],
    item: usize,
) -> &'a Fields
    requires ready { Ready B.blocks keyspace.now at.now }
    requires there { HashItem (visible B.blocks keyspace.now at.now) keyspace.now.bases (B.blocks keyspace.now.store) at.now.db key.now at.now.moment item }
    ensures { FoundHash (visible B.blocks keyspace.now at.now) (B.blocks keyspace.now.store) key.now result.now }
{
    // the item number tells the key
    let _ = key;
    let value = keyspace.value_at(at.db, item);
    match value {
        Value::Hash(hash) => hash,
        _ => unreachable!(),
    }
}

/// The value of a field of the hash at a key that was sought, by its item number. `None` where it isn't there.
pub fn value_there<'a, B: BlockStore>(
    keyspace: &'a Keyspace<B>,
    at: &Ctx,
    key: &[u8],
    there: Option<usize>,
    field: &[u8],
) -> Option<Element<'a>>
    requires ready { Ready B.blocks keyspace.now at.now }
    requires there { IsHashThere (visible B.blocks keyspace.now at.now) keyspace.now.bases (B.blocks keyspace.now.store) at.now.db key.now at.now.moment there }
    ensures { IsValue (visible B.blocks keyspace.now at.now) key.now field.now (text_of result) }
{
    match there {
        None => None,
        Some(item) => hash_there(keyspace, at, key, item).get(&keyspace.store, field),
    }
}

/// Whether a field of the hash at a key that was sought is there.
pub fn has_field<B: BlockStore>(
    keyspace: &Keyspace<B>,
    at: &Ctx,
    key: &[u8],
    there: Option<usize>,
    field: &[u8],
) -> bool
    requires ready { Ready B.blocks keyspace.now at.now }
    requires there { IsHashThere (visible B.blocks keyspace.now at.now) keyspace.now.bases (B.blocks keyspace.now.store) at.now.db key.now at.now.moment there }
    ensures { (value : Option (List ℕ)) × IsValue (visible B.blocks keyspace.now at.now) key.now field.now value × (result ≡ is_some value) }
{
    match value_there(keyspace, at, key, there, field) {
        None => false,
        Some(_) => true,
    }
}
