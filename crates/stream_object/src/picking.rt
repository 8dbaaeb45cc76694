// Entries of one node that are wanted.

ghost use Rattle.std.specs.Prelude.{◌≡◌, ◌&&◌, ◌<◌, ◌≤◌, ◌++◌, ℕ, List, length, map, take, get_or, IfOk, OnOk};
ghost use Rattle.std.specs.List.{filter};
ghost use Rattle.listpack.specs.Pack.{texts};
ghost use Rattle.plain_world.specs.Streams.{StreamEntry};
ghost use Rattle.stream_node.specs.Entries.{entries_of};
ghost use Rattle.stream_node.specs.View.{stored};
ghost use Rattle.stream_object.specs.Parts.{IsNodeOf, is_live, live_of};
ghost use Rattle.stream_object.specs.Ranges.{is_between, seen, taken, turned, wanted_of};

use crate::Memory;
use crate::node::entries;
use crate::owned::Owned;
use crate::wanted::Wanted;
use std::alloc::Global;
use stream_node::{Entry, Id};

// Whether an entry isn't marked deleted and is between two ids.
fn is_picked(entry: &Entry, from: Id, to: Id) -> bool
    ensures { result ≡ (is_live (stored entry.now) && is_between from to (seen entry.now)) }
{
    if entry.deleted() {
        return false;
    }
    let id = entry.id();
    if id.is_below(from) {
        return false;
    }
    !to.is_below(id)
}

// The entries of a node between two ids that aren't marked deleted.
fn picked<'a>(
    alloc: Global,
    key: Id,
    bytes: &'a [u8],
    from: Id,
    to: Id,
) -> Result<Vec<Entry<'a>>, Memory>
    requires { IsNodeOf key bytes.now }
    ensures { IfOk result (λ picked. map seen picked.items ≡ filter (is_between from to) (live_of (entries_of key (texts bytes.now)))) }
{
    let mut picked = Vec::new(alloc);
    for entry in entries(key, bytes) {
        if is_picked(&entry, from, to) {
            picked.push(entry)?;
        }
    }
    Ok(picked)
}

// A copy of an entry.
fn copy_of(alloc: Global, entry: &Entry) -> Result<Owned, Memory>
    ensures { IfOk result (λ one. taken one ≡ seen entry.now) }
{
    let id = entry.id();
    let pairs = entry.to_pairs(alloc)?;
    Ok(Owned { id, pairs })
}

// Puts copies of the entries of a node that are wanted behind what was found, in their order, until there are as many as are
// wanted. It reads at most one entry behind the last one of these.
fn take_forth(
    alloc: Global,
    key: Id,
    bytes: &[u8],
    wanted: Wanted,
    found: &mut Vec<Owned>,
) -> Result<(), Memory>
    requires is_node { IsNodeOf key bytes.now }
    requires within { length found.old.items ≤ wanted.limit }
    ensures found { OnOk result (map taken found.new.items ≡ take wanted.limit (map taken found.old.items ++ filter (is_between wanted.from wanted.to) (live_of (entries_of key (texts bytes.now))))) }
    ensures within { OnOk result (length found.new.items ≤ wanted.limit) }
{
    for entry in entries(key, bytes) {
        if found.len() as u64 >= wanted.limit {
            return Ok(());
        }
        if is_picked(&entry, wanted.from, wanted.to) {
            let one = copy_of(alloc, &entry)?;
            found.push(one)?;
        }
    }
    Ok(())
}

// The place of an entry among so many, by its place in the order that is asked for.
fn place_of(len: usize, index: usize, back: bool) -> usize
    requires { index < len }
    ensures within { result < len }
    ensures place { (es : List StreamEntry) (e : StreamEntry) → length es ≡ len → get_or (turned back es) index e ≡ get_or es result e }
{
    if back { len - 1 - index } else { index }
}

// Puts copies of entries behind what was found, in the order that is asked for, until there are as many as are wanted.
fn take_up(
    alloc: Global,
    picked: &[Entry],
    wanted: Wanted,
    found: &mut Vec<Owned>,
) -> Result<(), Memory>
    requires { length found.old.items ≤ wanted.limit }
    ensures found { OnOk result (map taken found.new.items ≡ take wanted.limit (map taken found.old.items ++ turned wanted.back (map seen picked.now))) }
    ensures within { OnOk result (length found.new.items ≤ wanted.limit) }
{
    for index in 0..picked.len() {
        if found.len() as u64 >= wanted.limit {
            return Ok(());
        }
        let entry = picked[place_of(picked.len(), index, wanted.back)];
        let one = copy_of(alloc, &entry)?;
        found.push(one)?;
    }
    Ok(())
}

/// Puts copies of the entries of a node that are wanted behind what was found, in the order that is asked for, until there are as
/// many as are wanted.
pub(crate) fn take_wanted(
    alloc: Global,
    key: Id,
    bytes: &[u8],
    wanted: Wanted,
    found: &mut Vec<Owned>,
) -> Result<(), Memory>
    requires is_node { IsNodeOf key bytes.now }
    requires within { length found.old.items ≤ wanted.limit }
    ensures found { OnOk result (map taken found.new.items ≡ take wanted.limit (map taken found.old.items ++ wanted_of wanted (live_of (entries_of key (texts bytes.now))))) }
    ensures within { OnOk result (length found.new.items ≤ wanted.limit) }
{
    if wanted.back {
        let picked = picked(alloc, key, bytes, wanted.from, wanted.to)?;
        return take_up(alloc, &picked, wanted, found);
    }
    take_forth(alloc, key, bytes, wanted, found)
}
