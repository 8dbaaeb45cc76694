// A gap made in a block, in its place where its class holds the new length.

ghost use Rattle.std.specs.Prelude.{◌≡◌, ◌≢◌, ◌↔◌, ◌∷◌, ◌+◌, ◌-◌, ◌<◌, ◌≤◌, ◌^◌, [], None, IsTrue, IsSome, IfOk, OnErr, false, length};
ghost use Rattle.blocks.specs.Blocks.{bytes_at, Changes, Served};
ghost use Rattle.blocks.specs.Slabs.{Stretches};
ghost use Rattle.pack_block.specs.Gap.{HasGap};

use crate::class::is_same_class;
use crate::part::copy_part;
use blocks::{BlockRef, BlockStore, Memory};

// Makes a gap that is as wide as what stood there, or wider, in the block's place. False where its class is another then.
fn widen<B: BlockStore>(store: &mut B, at: BlockRef, from: usize, size: usize, room: usize) -> bool
    requires live { IsSome (B.blocks store.old at) }
    requires inside { from + size ≤ length (bytes_at (B.blocks store.old) at) }
    requires wider { size ≤ room }
    requires small { room < 2 ^ 33 }
    ensures rule { IsTrue result ↔ Stretches (B.heap store.old) at (length (bytes_at (B.blocks store.old) at) - size + room) }
    ensures gap { IsTrue result → HasGap (B.blocks store.new) at (bytes_at (B.blocks store.old) at) from size room }
    ensures changes { Changes (B.blocks store.old) (B.blocks store.new) (at ∷ []) (at ∷ []) }
    ensures stays { result ≡ false → B.blocks store.new ≡ B.blocks store.old }
    ensures slabs { B.heap store.new ≡ B.heap store.old }
    ensures served { Served B.step store.old store.new }
{
    let len = store.bytes(at).len();
    if !store.stretch(at, len - size + room) {
        return false;
    }
    store.shift(at, from + size, from + room, len - from - size);
    true
}

// Whether a block may have so few bytes in its place. Nothing changes.
fn may_shorten<B: BlockStore>(store: &mut B, at: BlockRef, len: usize) -> bool
    requires live { IsSome (B.blocks store.old at) }
    requires shorter { len ≤ length (bytes_at (B.blocks store.old) at) }
    ensures rule { IsTrue result ↔ Stretches (B.heap store.old) at len }
    ensures blocks { B.blocks store.new ≡ B.blocks store.old }
    ensures slabs { B.heap store.new ≡ B.heap store.old }
    ensures served { Served B.step store.old store.new }
{
    let old_len = store.bytes(at).len();
    is_same_class(len, old_len) && store.stretch(at, old_len)
}

// Makes a gap that isn't wider than what stood there, in the block's place. False where its class is another then.
fn narrow<B: BlockStore>(store: &mut B, at: BlockRef, from: usize, size: usize, room: usize) -> bool
    requires live { IsSome (B.blocks store.old at) }
    requires inside { from + size ≤ length (bytes_at (B.blocks store.old) at) }
    requires narrower { room ≤ size }
    ensures rule { IsTrue result ↔ Stretches (B.heap store.old) at (length (bytes_at (B.blocks store.old) at) - size + room) }
    ensures gap { IsTrue result → HasGap (B.blocks store.new) at (bytes_at (B.blocks store.old) at) from size room }
    ensures changes { Changes (B.blocks store.old) (B.blocks store.new) (at ∷ []) (at ∷ []) }
    ensures stays { result ≡ false → B.blocks store.new ≡ B.blocks store.old }
    ensures slabs { B.heap store.new ≡ B.heap store.old }
    ensures served { Served B.step store.old store.new }
{
    let len = store.bytes(at).len();
    let new_len = len - size + room;
    if !may_shorten(store, at, new_len) {
        return false;
    }
    store.shift(at, from + size, from + room, len - from - size);
    store.stretch(at, new_len)
}

// Makes a gap in the block's place. False where its class is another then.
fn make_in_place<B: BlockStore>(
    store: &mut B,
    at: BlockRef,
    from: usize,
    size: usize,
    room: usize,
) -> bool
    requires live { IsSome (B.blocks store.old at) }
    requires inside { from + size ≤ length (bytes_at (B.blocks store.old) at) }
    requires small { room < 2 ^ 33 }
    ensures rule { IsTrue result ↔ Stretches (B.heap store.old) at (length (bytes_at (B.blocks store.old) at) - size + room) }
    ensures gap { IsTrue result → HasGap (B.blocks store.new) at (bytes_at (B.blocks store.old) at) from size room }
    ensures changes { Changes (B.blocks store.old) (B.blocks store.new) (at ∷ []) (at ∷ []) }
    ensures stays { result ≡ false → B.blocks store.new ≡ B.blocks store.old }
    ensures slabs { B.heap store.new ≡ B.heap store.old }
    ensures served { Served B.step store.old store.new }
{
    if room < size {
        narrow(store, at, from, size, room)
    } else {
        widen(store, at, from, size, room)
    }
}

// Places a block of the bytes with a gap, and then gives the old one back.
fn make_anew<B: BlockStore>(
    store: &mut B,
    at: BlockRef,
    from: usize,
    size: usize,
    room: usize,
) -> Result<BlockRef, Memory>
    requires live { IsSome (B.blocks store.old at) }
    requires inside { from + size ≤ length (bytes_at (B.blocks store.old) at) }
    requires small { room < 2 ^ 33 }
    ensures fresh { IfOk result (λ new. B.blocks store.old new ≡ None) }
    ensures gap { IfOk result (λ new. HasGap (B.blocks store.new) new (bytes_at (B.blocks store.old) at) from size room) }
    ensures changes { IfOk result (λ new. Changes (B.blocks store.old) (B.blocks store.new) (at ∷ []) (new ∷ [])) }
    ensures served { Served B.step store.old store.new }
    ensures err_blocks { OnErr result (B.blocks store.new ≡ B.blocks store.old) }
    ensures err_slabs { OnErr result (B.heap store.new ≡ B.heap store.old) }
{
    let len = store.bytes(at).len();
    let new = store.place(len - size + room)?;
    copy_part(store, at, 0, new, 0, from);
    copy_part(store, at, from + size, new, from + room, len - from - size);
    store.give_back(at);
    Ok(new)
}

/// Makes room for `room` bytes in a live block in the place of `size` of its bytes from `from` on. The answer names the block from
/// then on. It stays in its place where the least class that holds the new length is that of its slab, or where both are as many;
/// else the new block is placed before the old one is given back. What stands in the gap isn't told.
///
/// `Memory` leaves all blocks and slabs.
pub fn gap<B: BlockStore>(
    store: &mut B,
    at: BlockRef,
    from: usize,
    size: usize,
    room: usize,
) -> Result<BlockRef, Memory>
    requires live { IsSome (B.blocks store.old at) }
    requires inside { from + size ≤ length (bytes_at (B.blocks store.old) at) }
    requires small { room < 2 ^ 33 }
    ensures gap { IfOk result (λ new. HasGap (B.blocks store.new) new (bytes_at (B.blocks store.old) at) from size room) }
    ensures changes { IfOk result (λ new. Changes (B.blocks store.old) (B.blocks store.new) (at ∷ []) (new ∷ [])) }
    ensures stays { Stretches (B.heap store.old) at (length (bytes_at (B.blocks store.old) at) - size + room) → result ≡ Ok at }
    ensures same { size ≡ room → result ≡ Ok at }
    ensures moves { size ≢ room → (Stretches (B.heap store.old) at (length (bytes_at (B.blocks store.old) at) - size + room) → ⊥)
        → IfOk result (λ new. B.blocks store.old new ≡ None) }
    ensures served { Served B.step store.old store.new }

    // Want of memory changes nothing.
    ensures err_blocks { OnErr result (B.blocks store.new ≡ B.blocks store.old) }
    ensures err_slabs { OnErr result (B.heap store.new ≡ B.heap store.old) }
{
    if size == room {
        return Ok(at);
    }
    if make_in_place(store, at, from, size, room) {
        return Ok(at);
    }
    make_anew(store, at, from, size, room)
}
