//! Commands that join sets.

ghost use Rattle.std.specs.Prelude.{◌≡◌, ◌&&◌, ◌||◌, ◌<◌, ℕ, List, not, length, is_some, IfOk, OnOk};
ghost use Rattle.std.specs.List.{filter};
ghost use Rattle.set_object.specs.Members.{IsMembers, members};
ghost use Rattle.set_object.specs.Strings.{set_of, IsOnce};
ghost use Rattle.plain_model.specs.SetSteps.{IsJoin, at_most, has, in_all, in_any, may_sets, sets_at};
ghost use Rattle.plain_model.specs.declared.set_command.SetCommand.TheVariants as sets;
ghost use Rattle.plain_model.specs.declared.set_command.SetJoin.TheVariants as joins;
ghost use Rattle.keyspace.specs.Forms as forms;
ghost use Rattle.keyspace.specs.Commands.{Ready, visible};
ghost use Rattle.cmd_sets.specs.Joined.{sets_here, IsCounted};

use crate::gathering::{names_at, names_of};
use crate::hashing::{add_members, never_packed};
use crate::look::set_at;
use crate::random::names_reply;
use crate::sifting::sift_at;
use blocks::{BlockStore, PlainStore};
use keyspace::{Keyspace, Look, count_reply};
use plain_model::{Bytes, Ctx, Memory, Refusal, Reply, SetJoin, Word};
use set_object::Members;

/// Whether no key has a value of another type.
pub fn are_sets<B: BlockStore>(keyspace: &Keyspace<B>, at: &Ctx, keys: &[Word<'_>]) -> bool
    requires ready { Ready B.blocks keyspace.now at.now }
    ensures { result ≡ is_some (sets_at (visible B.blocks keyspace.now at.now) keys.now) }
{
    for key in keys {
        match set_at(keyspace, at, key.as_slice()) {
            Look::Missing => {}
            Look::Other => return false,
            Look::There(_) => {}
        }
    }
    true
}

// Adds the members of the set at a key to a set over a store of its own.
fn add_at<B: BlockStore, C: BlockStore>(
    keyspace: &Keyspace<B>,
    at: &Ctx,
    key: &[u8],
    own: &mut C,
    all: &mut Members,
) -> Result<(), Memory>
    requires ready { Ready B.blocks keyspace.now at.now }
    requires all { IsMembers (C.blocks own.old) all.old }
    ensures sound { OnOk result (IsMembers (C.blocks own.new) all.new) }
    ensures members { OnOk result
        ((name : List ℕ) → has (members (C.blocks own.new) all.new) name ≡
        (has (members (C.blocks own.old) all.old) name || has (forms.set_at (visible B.blocks keyspace.now at.now) key.now) name)) }
{
    match set_at(keyspace, at, key) {
        Look::Missing => Ok(()),
        Look::Other => Ok(()),
        Look::There(set) => add_members(keyspace.alloc(), &keyspace.store, set, own, all),
    }
}

// The same of the sets at keys.
fn add_each<B: BlockStore, C: BlockStore>(
    keyspace: &Keyspace<B>,
    at: &Ctx,
    keys: &[Word<'_>],
    own: &mut C,
    all: &mut Members,
) -> Result<(), Memory>
    requires ready { Ready B.blocks keyspace.now at.now }
    requires all { IsMembers (C.blocks own.old) all.old }
    ensures sound { OnOk result (IsMembers (C.blocks own.new) all.new) }
    ensures members { OnOk result
        ((name : List ℕ) → has (members (C.blocks own.new) all.new) name ≡
        (has (members (C.blocks own.old) all.old) name || in_any (sets_here (visible B.blocks keyspace.now at.now) keys.now) name)) }
{
    for key in keys {
        add_at(keyspace, at, key.as_slice(), own, all)?;
    }
    Ok(())
}

// Those of the names that none of the sets at keys has.
fn drop_each<B: BlockStore>(
    keyspace: &Keyspace<B>,
    at: &Ctx,
    keys: &[Word<'_>],
    names: Vec<Bytes>,
) -> Result<Vec<Bytes>, Memory>
    requires ready { Ready B.blocks keyspace.now at.now }
    requires once { IsOnce names.items }
    ensures left { IfOk result
        (λ kept. (name : List ℕ) → has (set_of kept.items) name ≡ (has (set_of names.items) name && not (in_any (sets_here (visible B.blocks keyspace.now at.now) keys.now) name))) }
    ensures once { IfOk result (λ kept. IsOnce kept.items) }
{
    let mut kept = names;
    for key in keys {
        kept = sift_at(keyspace, at, key.as_slice(), kept, false)?;
    }
    Ok(kept)
}

// Whether the set at a key has a member.
fn has_at<B: BlockStore>(keyspace: &Keyspace<B>, at: &Ctx, key: &[u8], name: &[u8]) -> bool
    requires ready { Ready B.blocks keyspace.now at.now }
    ensures { result ≡ has (forms.set_at (visible B.blocks keyspace.now at.now) key.now) name.now }
{
    match set_at(keyspace, at, key) {
        Look::Missing => false,
        Look::Other => false,
        Look::There(set) => set.has(&keyspace.store, name),
    }
}

// Whether the sets at all keys have a member.
fn in_each<B: BlockStore>(keyspace: &Keyspace<B>, at: &Ctx, keys: &[Word<'_>], name: &[u8]) -> bool
    requires ready { Ready B.blocks keyspace.now at.now }
    ensures { result ≡ in_all (sets_here (visible B.blocks keyspace.now at.now) keys.now) name.now }
{
    for key in keys {
        if !has_at(keyspace, at, key.as_slice(), name) {
            return false;
        }
    }
    true
}

// How many members the set at a key has.
fn size_at<B: BlockStore>(keyspace: &Keyspace<B>, at: &Ctx, key: &[u8]) -> usize
    requires ready { Ready B.blocks keyspace.now at.now }
{
    match set_at(keyspace, at, key) {
        Look::Missing => 0,
        Look::Other => 0,
        Look::There(set) => set.len(),
    }
}

// Which key has the fewest members.
fn smallest<B: BlockStore>(keyspace: &Keyspace<B>, at: &Ctx, keys: &[Word<'_>]) -> usize
    requires ready { Ready B.blocks keyspace.now at.now }
    requires some { 0 < length keys.now }
    ensures { result < length keys.now }
{
    let mut least = 0;
    let mut size = usize::MAX;
    for index in 0..keys.len() {
        let own = size_at(keyspace, at, keys[index].as_slice());
        if own < size {
            least = index;
            size = own;
        }
    }
    least
}

// The members of the set at one of the keys that the sets at the others have too.
fn share_names<B: BlockStore>(
    keyspace: &Keyspace<B>,
    at: &Ctx,
    keys: &[Word<'_>],
    one: usize,
) -> Result<Vec<Bytes>, Memory>
    requires ready { Ready B.blocks keyspace.now at.now }
    requires inside { one < length keys.now }
    ensures shared { IfOk result (λ kept. (name : List ℕ) → has (set_of kept.items) name ≡ in_all (sets_here (visible B.blocks keyspace.now at.now) keys.now) name) }
    ensures once { IfOk result (λ kept. IsOnce kept.items) }
{
    let mut kept = names_at(keyspace, at, keys[one].as_slice())?;
    for index in 0..keys.len() {
        if index == one {
            continue;
        }
        kept = sift_at(keyspace, at, keys[index].as_slice(), kept, true)?;
    }
    Ok(kept)
}

// The members that the sets at all keys have. Those of the smallest set are met, and the others are asked for them.
fn inter<B: BlockStore>(
    keyspace: &Keyspace<B>,
    at: &Ctx,
    keys: &[Word<'_>],
) -> Result<Vec<Bytes>, Memory>
    requires ready { Ready B.blocks keyspace.now at.now }
    ensures join { IfOk result (λ names. IsJoin joins.Inter (sets_here (visible B.blocks keyspace.now at.now) keys.now) (set_of names.items)) }
    ensures once { IfOk result (λ names. IsOnce names.items) }
{
    if keys.is_empty() {
        return Ok(Vec::new(keyspace.alloc()));
    }
    let least = smallest(keyspace, at, keys);
    share_names(keyspace, at, keys, least)
}

// The members that the set at any key has. They are gathered in a set that is never packed.
fn union<B: BlockStore>(
    keyspace: &Keyspace<B>,
    at: &Ctx,
    keys: &[Word<'_>],
) -> Result<Vec<Bytes>, Memory>
    requires ready { Ready B.blocks keyspace.now at.now }
    ensures join { IfOk result (λ names. IsJoin joins.Union (sets_here (visible B.blocks keyspace.now at.now) keys.now) (set_of names.items)) }
    ensures once { IfOk result (λ names. IsOnce names.items) }
{
    let alloc = keyspace.alloc();
    let mut own = PlainStore::new(alloc);
    let mut all = Members::new(alloc, never_packed(), keyspace.seed());
    add_each(keyspace, at, keys, &mut own, &mut all)?;
    names_of(alloc, &own, &all)
}

// The members of the set at the first key that none of the others has, each of which is asked for them.
fn diff<B: BlockStore>(
    keyspace: &Keyspace<B>,
    at: &Ctx,
    keys: &[Word<'_>],
) -> Result<Vec<Bytes>, Memory>
    requires ready { Ready B.blocks keyspace.now at.now }
    ensures join { IfOk result (λ names. IsJoin joins.Diff (sets_here (visible B.blocks keyspace.now at.now) keys.now) (set_of names.items)) }
    ensures once { IfOk result (λ names. IsOnce names.items) }
{
    match keys.split_first() {
        None => Ok(Vec::new(keyspace.alloc())),
        Some((first, others)) => {
            let names = names_at(keyspace, at, first.as_slice())?;
            drop_each(keyspace, at, others, names)
        }
    }
}

/// The members of the join of the sets at keys, each once. A key without a set counts as one without a member.
pub fn join<B: BlockStore>(
    keyspace: &Keyspace<B>,
    at: &Ctx,
    how: SetJoin,
    keys: &[Word<'_>],
) -> Result<Vec<Bytes>, Memory>
    requires ready { Ready B.blocks keyspace.now at.now }
    ensures join { IfOk result (λ names. IsJoin how (sets_here (visible B.blocks keyspace.now at.now) keys.now) (set_of names.items)) }
    ensures once { IfOk result (λ names. IsOnce names.items) }
{
    match how {
        SetJoin::Inter => inter(keyspace, at, keys),
        SetJoin::Union => union(keyspace, at, keys),
        SetJoin::Diff => diff(keyspace, at, keys),
    }
}

/// `SINTER key..`, `SUNION` and `SDIFF`: an array of the members of the join, each once, in any order. A missing key counts as a
/// set without a member.
pub fn sjoin<B: BlockStore>(
    keyspace: &Keyspace<B>,
    at: &Ctx,
    how: SetJoin,
    keys: &[Word<'_>],
) -> Result<Reply, Memory>
    requires ready { Ready B.blocks keyspace.now at.now }
    ensures gives { IfOk result (λ reply. may_sets keyspace.now.bases.seed (visible B.blocks keyspace.now at.now) (sets.SJoin how keys.now) reply (visible B.blocks keyspace.now at.now)) }
{
    let alloc = keyspace.alloc();
    if !are_sets(keyspace, at, keys) {
        return Reply::refused(alloc, Refusal::WrongType);
    }
    let names = join(keyspace, at, how, keys)?;
    names_reply(alloc, names)
}

// How many of the names the sets at all keys have. The count ends at a limit that isn't 0.
fn count_shared<B: BlockStore>(
    keyspace: &Keyspace<B>,
    at: &Ctx,
    keys: &[Word<'_>],
    names: Vec<Bytes>,
    limit: u64,
) -> usize
    requires ready { Ready B.blocks keyspace.now at.now }
    ensures { result ≡ at_most limit (length (filter (in_all (sets_here (visible B.blocks keyspace.now at.now) keys.now)) names.items)) }
{
    let mut count = 0;
    let mut rest = names;
    'names: while let Some(name) = rest.pop() {
        if !in_each(keyspace, at, keys, name.as_slice()) {
            continue;
        }
        count += 1;
        if count as u64 == limit {
            return count;
        }
    }
    count
}

// How many members the sets at all keys have, at most the limit where it isn't 0. Those of the smallest set are met.
fn count_inter<B: BlockStore>(
    keyspace: &Keyspace<B>,
    at: &Ctx,
    keys: &[Word<'_>],
    limit: u64,
) -> Result<usize, Memory>
    requires ready { Ready B.blocks keyspace.now at.now }
    ensures { IfOk result (IsCounted limit (sets_here (visible B.blocks keyspace.now at.now) keys.now)) }
{
    if keys.is_empty() {
        return Ok(0);
    }
    let least = smallest(keyspace, at, keys);
    let names = names_at(keyspace, at, keys[least].as_slice())?;
    Ok(count_shared(keyspace, at, keys, names, limit))
}

/// `SINTERCARD n key.. [LIMIT m]`: how many members the sets at all keys have, at most the limit where it isn't 0.
pub fn sintercard<B: BlockStore>(
    keyspace: &Keyspace<B>,
    at: &Ctx,
    keys: &[Word<'_>],
    limit: u64,
) -> Result<Reply, Memory>
    requires ready { Ready B.blocks keyspace.now at.now }
    ensures gives { IfOk result (λ reply. may_sets keyspace.now.bases.seed (visible B.blocks keyspace.now at.now) (sets.SInterCard keys.now limit) reply (visible B.blocks keyspace.now at.now)) }
{
    let alloc = keyspace.alloc();
    if !are_sets(keyspace, at, keys) {
        return Reply::refused(alloc, Refusal::WrongType);
    }
    let count = count_inter(keyspace, at, keys, limit)?;
    count_reply(alloc, count)
}
