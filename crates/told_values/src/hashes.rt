//! Hashes, field by field.

ghost use Rattle.std.specs.Prelude.{◌≡◌, ◌↔◌, IfOk, IsTrue};
ghost use Rattle.hash_object.specs.Fields.{IsFields, fields};
ghost use Rattle.told_values.specs.Told.{hash_told};

use crate::texts::owned;
use blocks::{BlockStore, Memory};
use hash_object::Fields;
use std::alloc::Global;
use std::collections::BTreeMap;

/// Fields with their values.
pub(crate) type Pairs = BTreeMap<Vec<u8>, Vec<u8>>;

/// The fields of a hash with their values.
pub(crate) fn read_hash<B: BlockStore>(
    alloc: Global,
    store: &B,
    hash: &Fields,
) -> Result<Pairs, Memory>
    requires sound { IsFields (B.blocks store.now) hash.now }
    ensures { IfOk result (λ pairs. hash_told pairs.entries ≡ fields (B.blocks store.now) hash.now) }
{
    let mut pairs = BTreeMap::new(alloc);
    let count = hash.len();
    let mut place = hash.first(store);
    for index in 0..count {
        match place {
            None => unreachable!(),
            Some(cursor) => {
                let (field, value) = hash.pair(store, cursor);
                let name = owned(alloc, field)?;
                let text = owned(alloc, value)?;
                pairs.insert(name, text)?;
                place = hash.next(store, cursor);
            }
        }
    }
    Ok(pairs)
}

/// Whether both have the same fields with the same values.
pub(crate) fn same_pairs(pairs: &Pairs, other: &Pairs) -> bool
    ensures { IsTrue result ↔ (hash_told pairs.now.entries ≡ hash_told other.now.entries) }
{
    if pairs.len() != other.len() {
        return false;
    }
    pairs == other
}
