//! Sets, member by member.

ghost use Rattle.std.specs.Prelude.{◌≡◌, ◌↔◌, IfOk, IsTrue};
ghost use Rattle.set_object.specs.Members.{IsMembers, members};
ghost use Rattle.told_values.specs.Told.{set_told};

use crate::texts::owned;
use blocks::{BlockStore, Memory};
use set_object::Members;
use std::alloc::Global;
use std::collections::BTreeMap;

/// Names with nothing at each, as std keeps a set.
pub(crate) type Names = BTreeMap<Vec<u8>, ()>;

/// The members of a set.
pub(crate) fn read_set<B: BlockStore>(
    alloc: Global,
    store: &B,
    set: &Members,
) -> Result<Names, Memory>
    requires sound { IsMembers (B.blocks store.now) set.now }
    ensures { IfOk result (λ names. set_told names.entries ≡ members (B.blocks store.now) set.now) }
{
    let mut names = BTreeMap::new(alloc);
    let count = set.len();
    let mut place = set.first(store);
    for index in 0..count {
        match place {
            None => unreachable!(),
            Some(cursor) => {
                let name = owned(alloc, set.element(store, cursor))?;
                names.insert(name, ())?;
                place = set.next(store, cursor);
            }
        }
    }
    Ok(names)
}

/// Whether both have the same members.
pub(crate) fn same_names(names: &Names, other: &Names) -> bool
    ensures { IsTrue result ↔ (set_told names.now.entries ≡ set_told other.now.entries) }
{
    if names.len() != other.len() {
        return false;
    }
    names == other
}
