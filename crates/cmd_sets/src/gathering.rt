//! Members that are gathered beside the store.

ghost use Rattle.std.specs.Prelude.{◌≡◌, IfOk};
ghost use Rattle.set_object.specs.Strings.{set_of, IsOnce};
ghost use Rattle.set_object.specs.Members.{IsMembers, listed};
ghost use Rattle.keyspace.specs.Forms.{set_at};
ghost use Rattle.keyspace.specs.Commands.{Ready, visible};

use blocks::BlockStore;
use keyspace::{Keyspace, Look, bytes_of};
use plain_model::{Bytes, Ctx, Memory};
use set_object::Members;
use std::alloc::Global;

/// All members of a set, each once, in the set's own order. They are met in one pass.
pub fn names_of<B: BlockStore>(
    alloc: Global,
    store: &B,
    set: &Members,
) -> Result<Vec<Bytes>, Memory>
    requires sound { IsMembers (B.blocks store.now) set.now }
    ensures { IfOk result (λ names. names.items ≡ listed (B.blocks store.now) set.now) }
{
    let count = set.len();
    let mut names = Vec::new(alloc);
    let mut place = set.first(store);
    for index in 0..count {
        match place {
            None => unreachable!(),
            Some(cursor) => {
                let name = bytes_of(alloc, set.element(store, cursor))?;
                names.push(name)?;
                place = set.next(store, cursor);
            }
        }
    }
    Ok(names)
}

/// The members of the set at a key, none where no set stands there.
pub fn names_at<B: BlockStore>(
    keyspace: &Keyspace<B>,
    at: &Ctx,
    key: &[u8],
) -> Result<Vec<Bytes>, Memory>
    requires ready { Ready B.blocks keyspace.now at.now }
    ensures members { IfOk result (λ names. set_of names.items ≡ set_at (visible B.blocks keyspace.now at.now) key.now) }
    ensures once { IfOk result (λ names. IsOnce names.items) }
{
    let alloc = keyspace.alloc();
    match crate::look::set_at(keyspace, at, key) {
        Look::Missing => Ok(Vec::new(alloc)),
        Look::Other => Ok(Vec::new(alloc)),
        Look::There(set) => names_of(alloc, &keyspace.store, set),
    }
}
