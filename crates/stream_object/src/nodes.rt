// The nodes of a stream, each in a block that a tree names by the node's key.

ghost use Rattle.std.specs.Prelude.{◌≡◌, ◌++◌, ◌+◌, ◌-◌, ◌≤◌, ℕ, List, Ok, IfOk, IfSome, IfNone, OnErr, length, drop};
ghost use Rattle.std.specs.List.{AllByRecursion};
ghost use Rattle.std.specs.Option.{option_map};
ghost use Rattle.blocks.specs.Blocks.{Blocks, Served, bytes_at};
ghost use Rattle.blocks.specs.Slabs.{Stretches};
ghost use Rattle.rax_packed.specs.Maps.{entries_of, IsSound as rax_sound};
ghost use Rattle.rax_packed.specs.Packed.{nearest};
ghost use Rattle.stream_node.specs.Appended.{written_over};
ghost use Rattle.stream_node.specs.Ids.{id_key};
ghost use Rattle.stream_object.specs.Parts.{HasParts, parts_of};
ghost use Rattle.stream_object.specs.Found.{IsNear, IsBeside, Misses, Stands, Comes, Becomes, Exchanges, part_at};

use crate::Memory;
use crate::block::{place_behind, write_behind, write_whole};
use crate::spot::Spot;
use blocks::{BlockRef, BlockStore, put_block};
use rax_packed::PackedTree;
use stream_node::{Behind, Id};

/// The least id.
pub(crate) const LEAST: Id = Id { ms: 0, seq: 0 };

/// The greatest id.
pub(crate) const GREATEST: Id = Id {
    ms: u64::MAX,
    seq: u64::MAX,
};

// The key of a node that is the nearest to an id from the one side or the other.
fn seek<B: BlockStore>(store: &B, tree: &PackedTree, id: Id, up: bool) -> Option<[u8; 16]>
    requires { rax_sound (B.blocks store.now) tree.now }
    ensures { result ≡ option_map (λ e. e.key) (nearest up (entries_of (B.blocks store.now) tree.now) (id_key id)) }
{
    let key = id.key();
    if up {
        tree.seek_at_or_after(store, &key)
    } else {
        tree.seek_at_or_before(store, &key)
    }
}

/// The node whose key is the least that isn't below the id, or where `up` is false the greatest that isn't above it.
pub(crate) fn near<'a, B: BlockStore>(
    store: &'a B,
    tree: &PackedTree,
    id: Id,
    up: bool,
) -> Option<Spot<'a>>
    requires parts { HasParts (B.blocks store.now) tree.now (parts_of (B.blocks store.now) tree.now) }
    ensures some { IfSome result (λ spot. IsNear up (parts_of (B.blocks store.now) tree.now) id (part_at spot)) }
    ensures none { IfNone result (AllByRecursion (Misses up id) (parts_of (B.blocks store.now) tree.now)) }
{
    let Some(key) = seek(store, tree, id, up) else {
        return None;
    };
    match tree.find(store, &key) {
        Some(at) => Some(Spot {
            key: Id::of_key(&key),
            at,
            bytes: store.bytes(at),
        }),
        None => unreachable!(),
    }
}

/// Places a node of these bytes behind all others, and answers its block.
/// `Memory` leaves all as before.
pub(crate) fn put_last<B: BlockStore>(
    store: &mut B,
    tree: &mut PackedTree,
    key: Id,
    bytes: &[u8],
) -> Result<BlockRef, Memory>
    requires parts { HasParts (B.blocks store.old) tree.old (parts_of (B.blocks store.old) tree.old) }
    ensures placed { IfOk result (Comes (B.blocks store.old) (B.blocks store.new) tree.old tree.new key bytes.now) }
    ensures served { Served B.step store.old store.new }
    ensures err_tree { OnErr result (tree.new ≡ tree.old) }
    ensures err_blocks { OnErr result (B.blocks store.new ≡ B.blocks store.old) }
{
    let at = put_block(store, bytes)?;
    match tree.insert(store, &key.key(), at) {
        Ok(_) => Ok(at),
        Err(refused) => {
            store.give_back(at);
            Err(refused)
        }
    }
}

// Names the block beside a node's own in its place, and gives that one back.
fn exchange<B: BlockStore>(
    store: &mut B,
    tree: &mut PackedTree,
    key: Id,
    was: BlockRef,
    at: BlockRef,
)
    requires { (m : Blocks) × (bytes : List ℕ) × IsBeside m (B.blocks store.old) tree.old key was at bytes }
    ensures replaced { (m : Blocks) (bytes : List ℕ) → IsBeside m (B.blocks store.old) tree.old key was at bytes
        → Becomes m (B.blocks store.new) tree.old tree.new key was bytes at }
    ensures served { Served B.step store.old store.new }
{
    tree.set(store, &key.key(), at);
    store.give_back(was);
}

/// Gives a node these bytes, in its block where that can have their length in its place, else in another one. Answers the block.
/// `Memory` leaves all as before.
pub(crate) fn replace<B: BlockStore>(
    store: &mut B,
    tree: &mut PackedTree,
    key: Id,
    was: BlockRef,
    bytes: &[u8],
) -> Result<BlockRef, Memory>
    requires parts { HasParts (B.blocks store.old) tree.old (parts_of (B.blocks store.old) tree.old) }
    requires stands { Stands (parts_of (B.blocks store.old) tree.old) key was }
    ensures in_place { Stretches (B.heap store.old) was (length bytes.now) → result ≡ Ok was }
    ensures replaced { IfOk result (Becomes (B.blocks store.old) (B.blocks store.new) tree.old tree.new key was bytes.now) }
    ensures served { Served B.step store.old store.new }
    ensures err_tree { OnErr result (tree.new ≡ tree.old) }
    ensures err_blocks { OnErr result (B.blocks store.new ≡ B.blocks store.old) }
{
    if write_whole(store, was, bytes) {
        return Ok(was);
    }
    let at = put_block(store, bytes)?;
    exchange(store, tree, key, was, at);
    Ok(at)
}

/// Gives a node an entry more behind all others, in its block where that can have the new length in its place, else in another one.
/// Answers the block. `Memory` leaves all as before.
pub(crate) fn extend<B: BlockStore>(
    store: &mut B,
    tree: &mut PackedTree,
    key: Id,
    was: BlockRef,
    behind: &Behind,
) -> Result<BlockRef, Memory>
    requires parts { HasParts (B.blocks store.old) tree.old (parts_of (B.blocks store.old) tree.old) }
    requires stands { Stands (parts_of (B.blocks store.old) tree.old) key was }
    requires some { 8 ≤ length (bytes_at (B.blocks store.old) was) }
    requires seven { length behind.now.head ≡ 7 }
    requires header { 7 ≤ length behind.now.entry.items }
    requires within { length (bytes_at (B.blocks store.old) was) + length behind.now.entry.items ≤ 4096 + 7 }
    ensures in_place { Stretches (B.heap store.old) was (length (bytes_at (B.blocks store.old) was) + length behind.now.entry.items - 7) → result ≡ Ok was }
    ensures extended { IfOk result
        (Becomes (B.blocks store.old) (B.blocks store.new) tree.old tree.new key was
        (written_over (bytes_at (B.blocks store.old) was) behind.now.head (drop 6 behind.now.entry.items))) }
    ensures served { Served B.step store.old store.new }
    ensures err_tree { OnErr result (tree.new ≡ tree.old) }
    ensures err_blocks { OnErr result (B.blocks store.new ≡ B.blocks store.old) }
{
    if write_behind(store, was, behind) {
        return Ok(was);
    }
    let at = place_behind(store, was, behind)?;
    exchange(store, tree, key, was, at);
    Ok(at)
}

/// Takes a node out, and gives its block back.
pub(crate) fn drop_node<B: BlockStore>(store: &mut B, tree: &mut PackedTree, key: Id, was: BlockRef)
    requires parts { HasParts (B.blocks store.old) tree.old (parts_of (B.blocks store.old) tree.old) }
    requires stands { Stands (parts_of (B.blocks store.old) tree.old) key was }
    ensures dropped { (s : Stands (parts_of (B.blocks store.old) tree.old) key was) → Exchanges (B.blocks store.old) (B.blocks store.new) tree.old tree.new (s.before ++ s.after) }
    ensures served { Served B.step store.old store.new }
{
    tree.remove(store, &key.key());
    store.give_back(was);
}
