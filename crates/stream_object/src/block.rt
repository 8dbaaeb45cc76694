// The blocks of nodes. Each has exactly the bytes of its node, so a node that gets longer or shorter stays in its block only where that has the new length too.

ghost use Rattle.std.specs.Prelude.{◌≡◌, ◌∷◌, ◌+◌, ◌-◌, ◌<◌, ◌≤◌, [], None, Some, IfOk, OnErr, IsSome, IsTrue, false, length, take, drop};
ghost use Rattle.blocks.specs.Blocks.{Changes, Served, bytes_at, resized, with_block};
ghost use Rattle.blocks.specs.Slabs.{Stretches};
ghost use Rattle.stream_node.specs.Appended.{written_over};
ghost use Rattle.stream_node.specs.Marked.{marked_over};
ghost use Rattle.stream_object.specs.Block.{IsPut};

use crate::Memory;
use blocks::{BlockRef, BlockStore};
use stream_node::{Behind, MarkOver};

// Gives a block this length in its place, where it has it or where its slab's class is the least that holds it: with the bytes that both
// lengths have, and zeros behind them. Else nothing changes.
fn resize<B: BlockStore>(store: &mut B, at: BlockRef, len: usize) -> bool
    requires { IsSome (B.blocks store.old at) }
    ensures in_place { Stretches (B.heap store.old) at len → IsTrue result }
    ensures resized { IsTrue result → B.blocks store.new ≡ with_block (B.blocks store.old) at (Some (resized (bytes_at (B.blocks store.old) at) len)) }
    ensures stays { result ≡ false → store.new ≡ store.old }
    ensures served { Served B.step store.old store.new }
{
    store.bytes(at).len() == len || store.stretch(at, len)
}

/// Writes a node anew in its block, which has these bytes then and no others. False where it can't have their length in its place, and
/// then nothing changes. It takes no memory.
pub(crate) fn write_whole<B: BlockStore>(store: &mut B, at: BlockRef, bytes: &[u8]) -> bool
    requires { IsSome (B.blocks store.old at) }
    ensures in_place { Stretches (B.heap store.old) at (length bytes.now) → IsTrue result }
    ensures put { IsTrue result → IsPut (B.blocks store.old) (B.blocks store.new) at bytes.now }
    ensures stays { result ≡ false → store.new ≡ store.old }
    ensures served { Served B.step store.old store.new }
{
    if !resize(store, at, bytes.len()) {
        return false;
    }
    store.write(at, 0, bytes);
    true
}

// Writes over a node of so many bytes, behind which its block has room for just that, what gives it an entry more behind all others.
fn put_behind<B: BlockStore>(store: &mut B, at: BlockRef, len: usize, behind: &Behind)
    requires live { IsSome (B.blocks store.old at) }
    requires some { 8 ≤ len }
    requires seven { length behind.now.head ≡ 7 }
    requires header { 7 ≤ length behind.now.entry.items }
    requires room { length (bytes_at (B.blocks store.old) at) + 7 ≡ len + length behind.now.entry.items }
    ensures put { IsPut (B.blocks store.old) (B.blocks store.new) at
        (written_over (take len (bytes_at (B.blocks store.old) at)) behind.now.head (drop 6 behind.now.entry.items)) }
    ensures served { Served B.step store.old store.new }
{
    store.write(at, len - 1, behind.tail());
    store.write(at, 0, &behind.head);
}

/// Gives a node an entry more behind all others in its block. False where that can't have the node's new length in its place, and then
/// nothing changes. It takes no memory.
pub(crate) fn write_behind<B: BlockStore>(store: &mut B, at: BlockRef, behind: &Behind) -> bool
    requires live { IsSome (B.blocks store.old at) }
    requires some { 8 ≤ length (bytes_at (B.blocks store.old) at) }
    requires seven { length behind.now.head ≡ 7 }
    requires header { 7 ≤ length behind.now.entry.items }
    requires within { length (bytes_at (B.blocks store.old) at) + length behind.now.entry.items ≤ 4096 + 7 }
    ensures in_place { Stretches (B.heap store.old) at (length (bytes_at (B.blocks store.old) at) + length behind.now.entry.items - 7) → IsTrue result }
    ensures put { IsTrue result → IsPut (B.blocks store.old) (B.blocks store.new) at
        (written_over (bytes_at (B.blocks store.old) at) behind.now.head (drop 6 behind.now.entry.items)) }
    ensures stays { result ≡ false → store.new ≡ store.old }
    ensures served { Served B.step store.old store.new }
{
    let len = store.bytes(at).len();
    if !store.stretch(at, len + behind.entry.len() - 7) {
        return false;
    }
    put_behind(store, at, len, behind);
    true
}

/// Places another block of a node with an entry more behind all others. Its own block stays. `Memory` leaves all as before.
pub(crate) fn place_behind<B: BlockStore>(
    store: &mut B,
    was: BlockRef,
    behind: &Behind,
) -> Result<BlockRef, Memory>
    requires live { IsSome (B.blocks store.old was) }
    requires some { 8 ≤ length (bytes_at (B.blocks store.old) was) }
    requires seven { length behind.now.head ≡ 7 }
    requires header { 7 ≤ length behind.now.entry.items }
    requires within { length (bytes_at (B.blocks store.old) was) + length behind.now.entry.items ≤ 4096 + 7 }
    ensures put { IfOk result (λ at. IsPut (B.blocks store.old) (B.blocks store.new) at
        (written_over (bytes_at (B.blocks store.old) was) behind.now.head (drop 6 behind.now.entry.items))) }
    ensures changes { IfOk result (λ at. Changes (B.blocks store.old) (B.blocks store.new) [] (at ∷ [])) }
    ensures served { Served B.step store.old store.new }
    ensures err_blocks { OnErr result (B.blocks store.new ≡ B.blocks store.old) }
{
    let len = store.bytes(was).len();
    let at = store.place(len + behind.entry.len() - 7)?;
    store.copy_block(was, at);
    put_behind(store, at, len, behind);
    Ok(at)
}

/// Writes over a node in its block what marks an entry of it deleted.
pub(crate) fn write_mark<B: BlockStore>(store: &mut B, at: BlockRef, mark: MarkOver)
    requires live { IsSome (B.blocks store.old at) }
    requires some { 8 < length (bytes_at (B.blocks store.old) at) }
    requires inside { mark.at < length (bytes_at (B.blocks store.old) at) }
    ensures put { IsPut (B.blocks store.old) (B.blocks store.new) at (marked_over (bytes_at (B.blocks store.old) at) mark) }
    ensures served { Served B.step store.old store.new }
{
    store.write(at, 6, &[mark.live]);
    store.write(at, 8, &[mark.deleted]);
    store.write(at, mark.at, &[mark.flags]);
}
