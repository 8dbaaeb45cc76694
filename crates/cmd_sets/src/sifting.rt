//! Members that are sifted by the set at another key.

ghost use Rattle.std.specs.Prelude.{◌≡◌, IfOk};
ghost use Rattle.set_object.specs.Members.{IsMembers, members};
ghost use Rattle.keyspace.specs.Forms.{set_at};
ghost use Rattle.keyspace.specs.Commands.{Ready, visible};
ghost use Rattle.cmd_sets.specs.Joined.{has_or_lacks, Sifts};

use crate::hashing::{add_members, never_packed};
use blocks::{BlockStore, PlainStore};
use keyspace::{Keyspace, Look};
use object_codec::Form;
use plain_model::{Bytes, Ctx, Memory};
use set_object::Members;
use std::alloc::Global;

// For how many names a packed set is asked one after the other. For more its members are hashed first, so that it is read once.
const FEW: usize = 8;

// Whether a set has a name, or where `there` is false whether it lacks it.
fn is_kept<B: BlockStore>(store: &B, set: &Members, name: &[u8], there: bool) -> bool
    requires sound { IsMembers (B.blocks store.now) set.now }
    ensures { result ≡ has_or_lacks there (members (B.blocks store.now) set.now) name.now }
{
    if there {
        set.has(store, name)
    } else {
        !set.has(store, name)
    }
}

// Those of the names that a set has, or where `there` is false those that it lacks.
fn ask_each<B: BlockStore>(
    alloc: Global,
    store: &B,
    set: &Members,
    names: Vec<Bytes>,
    there: bool,
) -> Result<Vec<Bytes>, Memory>
    requires sound { IsMembers (B.blocks store.now) set.now }
    ensures { IfOk result (λ kept. Sifts there (members (B.blocks store.now) set.now) names.items kept.items) }
{
    let mut kept = Vec::new(alloc);
    for name in names {
        if !is_kept(store, set, name.as_slice(), there) {
            continue;
        }
        kept.push(name)?;
    }
    Ok(kept)
}

// The same as `ask_each`, of a copy of the set whose members are hashed.
fn ask_hashed<B: BlockStore>(
    alloc: Global,
    seed: u64,
    store: &B,
    set: &Members,
    names: Vec<Bytes>,
    there: bool,
) -> Result<Vec<Bytes>, Memory>
    requires sound { IsMembers (B.blocks store.now) set.now }
    ensures { IfOk result (λ kept. Sifts there (members (B.blocks store.now) set.now) names.items kept.items) }
{
    let mut own = PlainStore::new(alloc);
    let mut all = Members::new(alloc, never_packed(), seed);
    add_members(alloc, store, set, &mut own, &mut all)?;
    ask_each(alloc, &own, &all, names, there)
}

// Whether a set is packed as texts, and so is read from its begin for each name that it is asked for.
fn is_slow(set: &Members) -> bool {
    match set.form() {
        Form::Listpack => true,
        _ => false,
    }
}

// Those of the names that a set has, or where `there` is false those that it lacks.
fn sift<B: BlockStore>(
    keyspace: &Keyspace<B>,
    set: &Members,
    names: Vec<Bytes>,
    there: bool,
) -> Result<Vec<Bytes>, Memory>
    requires sound { IsMembers (B.blocks keyspace.now.store) set.now }
    ensures { IfOk result (λ kept. Sifts there (members (B.blocks keyspace.now.store) set.now) names.items kept.items) }
{
    let alloc = keyspace.alloc();
    if names.len() > FEW && is_slow(set) {
        let seed = keyspace.seed();
        return ask_hashed(alloc, seed, &keyspace.store, set, names, there);
    }
    ask_each(alloc, &keyspace.store, set, names, there)
}

/// Those of the names that the set at a key has, or where `there` is false those that it lacks. A key without a set has none.
pub fn sift_at<B: BlockStore>(
    keyspace: &Keyspace<B>,
    at: &Ctx,
    key: &[u8],
    names: Vec<Bytes>,
    there: bool,
) -> Result<Vec<Bytes>, Memory>
    requires ready { Ready B.blocks keyspace.now at.now }
    ensures { IfOk result (λ kept. Sifts there (set_at (visible B.blocks keyspace.now at.now) key.now) names.items kept.items) }
{
    match crate::look::set_at(keyspace, at, key) {
        Look::There(set) => sift(keyspace, set, names, there),
        Look::Missing => {
            let none = Members::new(keyspace.alloc(), never_packed(), keyspace.seed());
            sift(keyspace, &none, names, there)
        }
        Look::Other => {
            let none = Members::new(keyspace.alloc(), never_packed(), keyspace.seed());
            sift(keyspace, &none, names, there)
        }
    }
}
