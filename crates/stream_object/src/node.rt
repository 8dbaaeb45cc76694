// One node: its entries, one put in behind the others, one found, one marked deleted.

ghost use Rattle.std.specs.Prelude.{◌≡◌, ◌≢◌, ◌<◌, ◌≤◌, [], ℕ, List, true, false, IfOk, IfSome, IfNone, length};
ghost use Rattle.std.specs.List.{AllByRecursion};
ghost use Rattle.listpack.specs.Pack.{texts};
ghost use Rattle.stream_node.specs.declared.id.Id.{Id as AnId};
ghost use Rattle.stream_node.specs.Entry.{Stored};
ghost use Rattle.stream_node.specs.Entries.{entries_of};
ghost use Rattle.stream_node.specs.Ids.{id_number};
ghost use Rattle.stream_node.specs.Room.{alone_len};
ghost use Rattle.stream_node.specs.View.{stored};
ghost use Rattle.stream_node.specs.Views.{left_of};
ghost use Rattle.stream_object.specs.Parts.{IsNodeOf, live_of};
ghost use Rattle.stream_object.specs.Node.{IsGrown, IsGrowth, IsAt, IsFirst, Lacks, Marks};

use crate::Memory;
use listpack::{empty, known};
use std::alloc::Global;
use stream_node::{
    Behind, Entries, Entry, Id, Pairs, append, entry_behind, live_len, mark_deleted, opened,
    with_entry,
};

/// The most entries of a node.
pub(crate) const MOST_ENTRIES: usize = 100;

/// A node of more bytes gets no further entry.
pub(crate) const MOST_BYTES: usize = 4096;

/// The entries of a node, those that are marked deleted among them.
pub(crate) fn entries<'a>(key: Id, bytes: &'a [u8]) -> Entries<'a>
    requires { IsNodeOf key bytes.now }
    ensures { left_of result ≡ entries_of key (texts bytes.now) }
{
    opened(key, &known(bytes)).entries()
}

/// A node of one entry, whose id is its key.
pub(crate) fn begun(alloc: Global, id: Id, pairs: &Pairs) -> Result<Vec<u8>, Memory>
    requires some { 0 < length pairs.now }
    requires short { alone_len id pairs.now ≤ 536870000 }
    ensures { IfOk result (λ pack. IsGrown id [] pack.items id pairs.now) }
{
    let mut pack = empty(alloc)?;
    append(&mut pack, id, id, pairs)?;
    Ok(pack)
}

/// What becomes of a node with one entry more behind all others.
#[derive(Drop)]
pub(crate) enum Growth {
    /// This is written over it.
    Over(Behind),
    /// It gets these bytes.
    Whole(Vec<u8>),
    /// It would have too many entries or bytes.
    Full,
}

// What becomes of a node with one entry more behind all others where it is written anew.
fn written_anew(
    alloc: Global,
    key: Id,
    bytes: &[u8],
    id: Id,
    pairs: &Pairs,
) -> Result<Growth, Memory>
    requires is_node { IsNodeOf key bytes.now }
    requires below { AllByRecursion (λ e. id_number e.id < id_number id) (entries_of key (texts bytes.now)) }
    requires some { 0 < length pairs.now }
    requires short { alone_len id pairs.now ≤ 536870000 }
    requires bytes { length bytes.now ≤ 4096 }
    requires few { length (entries_of key (texts bytes.now)) < 100 }
    ensures { IfOk result (IsGrowth key bytes.now id pairs.now) }
{
    let pack = with_entry(alloc, bytes, key, id, pairs)?;
    if pack.len() > MOST_BYTES {
        return Ok(Growth::Full);
    }
    Ok(Growth::Whole(pack))
}

/// What becomes of a node with one entry more behind all others.
pub(crate) fn joined(
    alloc: Global,
    key: Id,
    bytes: &[u8],
    id: Id,
    pairs: &Pairs,
) -> Result<Growth, Memory>
    requires is_node { IsNodeOf key bytes.now }
    requires below { AllByRecursion (λ e. id_number e.id < id_number id) (entries_of key (texts bytes.now)) }
    requires some { 0 < length pairs.now }
    requires short { alone_len id pairs.now ≤ 536870000 }
    ensures { IfOk result (IsGrowth key bytes.now id pairs.now) }
{
    if bytes.len() > MOST_BYTES {
        return Ok(Growth::Full);
    }
    if entries(key, bytes).len() >= MOST_ENTRIES {
        return Ok(Growth::Full);
    }
    let Some(behind) = entry_behind(alloc, bytes, key, id, pairs)? else {
        return written_anew(alloc, key, bytes, id, pairs);
    };
    let len = bytes.len() + behind.entry.len() - 7;
    if len > MOST_BYTES {
        return written_anew(alloc, key, bytes, id, pairs);
    }
    Ok(Growth::Over(behind))
}

// Whether an entry has this id and isn't marked deleted.
fn is_found(entry: &Entry, id: Id) -> bool
    ensures found { result ≡ true → ((stored entry.now).deleted ≡ false) × ((stored entry.now).id ≡ id) }
    ensures other { result ≡ false → (stored entry.now).deleted ≡ false → (stored entry.now).id ≢ id }
{
    !entry.deleted() && entry.id() == id
}

/// Where the entry of an id stands, and `None` where there is none or it is marked deleted.
pub(crate) fn find(key: Id, bytes: &[u8], id: Id) -> Option<usize>
    requires { IsNodeOf key bytes.now }
    ensures some { IfSome result (λ index. (e : Stored) × IsAt (entries_of key (texts bytes.now)) index e × (e.id ≡ id)) }
    ensures none { IfNone result (Lacks id (entries_of key (texts bytes.now))) }
{
    let mut index = 0;
    for entry in entries(key, bytes) {
        if is_found(&entry, id) {
            return Some(index);
        }
        index += 1;
    }
    None
}

/// Where the first entry of a node stands that isn't marked deleted.
pub(crate) fn first_live(key: Id, bytes: &[u8]) -> usize
    requires { IsNodeOf key bytes.now }
    ensures { IsFirst (entries_of key (texts bytes.now)) result }
{
    let mut index = 0;
    for entry in entries(key, bytes) {
        if !entry.deleted() {
            return index;
        }
        index += 1;
    }
    unreachable!()
}

/// How many entries of a node aren't marked deleted. No entry is read.
pub(crate) fn live_count(bytes: &[u8]) -> usize
    requires { (key : AnId) × IsNodeOf key bytes.now }
    ensures { (key : AnId) → IsNodeOf key bytes.now → result ≡ length (live_of (entries_of key (texts bytes.now))) }
{
    live_len(&known(bytes))
}

/// A node with the entry at an index marked deleted.
pub(crate) fn marked(alloc: Global, bytes: &[u8], index: usize) -> Result<Vec<u8>, Memory>
    requires { (key : AnId) × IsNodeOf key bytes.now × ((e : Stored) × IsAt (entries_of key (texts bytes.now)) index e) }
    ensures { IfOk result (λ pack. (key : AnId) → Marks key bytes.now pack.items index) }
{
    let mut pack = Vec::from_slice(alloc, bytes)?;
    mark_deleted(&mut pack, index)?;
    Ok(pack)
}
