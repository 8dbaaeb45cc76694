// Edits of a listpack that is a block.

ghost use Rattle.std.specs.Prelude.{◌≡◌, ◌∷◌, ◌++◌, ◌+◌, ◌-◌, ◌<◌, ◌≤◌, ◌^◌, ℕ, List, [], Some, IsSome, IfOk, OnErr, length, take, drop};
ghost use Rattle.std.specs.List.{insert as inserted, remove_range as range_removed};
ghost use Rattle.blocks.specs.Blocks.{bytes_at, overwritten, with_block, Changes, Served};
ghost use Rattle.listpack.specs.Edits.{IsEdited, fewer, one_more};
ghost use Rattle.listpack.specs.Pack.{IsPack, spellings_of, texts, told};
ghost use Rattle.listpack.specs.Writing.{entry, spelling, Fits};
ghost use Rattle.pack_block.specs.Gap.{headed};

use crate::gaps::gap;
use crate::header::{fewer_told, offset_in, told_count, write_header};
use blocks::{BlockRef, BlockStore, Memory};
use listpack::entry_parts;

// Takes `size` bytes out at an offset, and writes the header anew with this count.
fn cut<B: BlockStore>(
    store: &mut B,
    at: BlockRef,
    from: usize,
    size: usize,
    count: u16,
) -> Result<BlockRef, Memory>
    requires live { IsSome (B.blocks store.old at) }
    requires inside { from + size ≤ length (bytes_at (B.blocks store.old) at) }
    requires long { 6 + size ≤ length (bytes_at (B.blocks store.old) at) }
    requires small { length (bytes_at (B.blocks store.old) at) < 2 ^ 32 }
    ensures cut { IfOk result (λ new. bytes_at (B.blocks store.new) new
        ≡ headed count (take from (bytes_at (B.blocks store.old) at) ++ drop (from + size) (bytes_at (B.blocks store.old) at))) }
    ensures changes { IfOk result (λ new. Changes (B.blocks store.old) (B.blocks store.new) (at ∷ []) (new ∷ [])) }
    ensures served { Served B.step store.old store.new }
    ensures err_blocks { OnErr result (B.blocks store.new ≡ B.blocks store.old) }
    ensures err_slabs { OnErr result (B.heap store.new ≡ B.heap store.old) }
{
    let new = gap(store, at, from, size, 0)?;
    write_header(store, new, count);
    Ok(new)
}

/// Takes the elements from the index `from` to below `to` out of the listpack that a block is. The answer names the block from then
/// on.
///
/// `Memory` leaves all blocks and slabs.
pub fn remove_range<B: BlockStore>(
    store: &mut B,
    at: BlockRef,
    from: usize,
    to: usize,
) -> Result<BlockRef, Memory>
    requires live { IsSome (B.blocks store.old at) }
    requires packed { IsPack (bytes_at (B.blocks store.old) at) }
    requires order { from ≤ to }
    requires inside { to ≤ length (texts (bytes_at (B.blocks store.old) at)) }
    ensures entries { IfOk result (λ new. IsEdited (bytes_at (B.blocks store.new) new)
        (range_removed (spellings_of (bytes_at (B.blocks store.old) at)) from to) (fewer (told (bytes_at (B.blocks store.old) at)) (to - from))) }
    ensures list { IfOk result (λ new. texts (bytes_at (B.blocks store.new) new) ≡ range_removed (texts (bytes_at (B.blocks store.old) at)) from to) }
    ensures changes { IfOk result (λ new. Changes (B.blocks store.old) (B.blocks store.new) (at ∷ []) (new ∷ [])) }
    ensures served { Served B.step store.old store.new }

    // Want of memory changes nothing.
    ensures err_blocks { OnErr result (B.blocks store.new ≡ B.blocks store.old) }
    ensures err_slabs { OnErr result (B.heap store.new ≡ B.heap store.old) }
{
    let bytes = store.bytes(at);
    let count = fewer_told(told_count(bytes), to - from);
    let start = offset_in(bytes, from);
    let end = offset_in(bytes, to);
    cut(store, at, start, end - start, count)
}

// Writes three pieces into a block, one behind the other.
fn write_pieces<B: BlockStore>(
    store: &mut B,
    at: BlockRef,
    from: usize,
    a: &[u8],
    b: &[u8],
    c: &[u8],
)
    requires live { IsSome (B.blocks store.old at) }
    requires room { from + (length a.now + length b.now + length c.now) ≤ length (bytes_at (B.blocks store.old) at) }
    requires small { length (bytes_at (B.blocks store.old) at) < 2 ^ 64 }
    ensures written { B.blocks store.new ≡ with_block (B.blocks store.old) at (Some (overwritten (bytes_at (B.blocks store.old) at) from (a.now ++ (b.now ++ c.now)))) }
    ensures served { Served B.step store.old store.new }
{
    store.write(at, from, a);
    store.write(at, from + a.len(), b);
    store.write(at, from + a.len() + b.len(), c);
}

// Puts the entry of an element in at an offset, and writes the header anew with this count.
fn put<B: BlockStore>(
    store: &mut B,
    at: BlockRef,
    from: usize,
    element: &[u8],
    count: u16,
) -> Result<BlockRef, Memory>
    requires live { IsSome (B.blocks store.old at) }
    requires inside { from ≤ length (bytes_at (B.blocks store.old) at) }
    requires long { 6 ≤ length (bytes_at (B.blocks store.old) at) }
    requires fits { Fits (bytes_at (B.blocks store.old) at) element.now }
    ensures put { IfOk result (λ new. bytes_at (B.blocks store.new) new
        ≡ headed count (take from (bytes_at (B.blocks store.old) at) ++ (entry element.now ++ drop from (bytes_at (B.blocks store.old) at)))) }
    ensures changes { IfOk result (λ new. Changes (B.blocks store.old) (B.blocks store.new) (at ∷ []) (new ∷ [])) }
    ensures served { Served B.step store.old store.new }
    ensures err_blocks { OnErr result (B.blocks store.new ≡ B.blocks store.old) }
    ensures err_slabs { OnErr result (B.heap store.new ≡ B.heap store.old) }
{
    let (head, content, back) = entry_parts(element);
    let room = head.len() + content.len() + back.len();
    let new = gap(store, at, from, 0, room)?;
    write_pieces(store, new, from, head.as_slice(), content, back.as_slice());
    write_header(store, new, count);
    Ok(new)
}

/// Puts an element before the one at `index` of the listpack that a block is, or behind all others where `index` is their number. The
/// answer names the block from then on. Nothing is put on the heap but the block, where it is placed anew.
///
/// `Memory` leaves all blocks and slabs.
pub fn insert<B: BlockStore>(
    store: &mut B,
    at: BlockRef,
    index: usize,
    element: &[u8],
) -> Result<BlockRef, Memory>
    requires live { IsSome (B.blocks store.old at) }
    requires packed { IsPack (bytes_at (B.blocks store.old) at) }
    requires index { index ≤ length (texts (bytes_at (B.blocks store.old) at)) }
    requires fits { Fits (bytes_at (B.blocks store.old) at) element.now }
    ensures entries { IfOk result (λ new. IsEdited (bytes_at (B.blocks store.new) new)
        (inserted (spellings_of (bytes_at (B.blocks store.old) at)) index (spelling element.now)) (one_more (told (bytes_at (B.blocks store.old) at)))) }
    ensures list { IfOk result (λ new. texts (bytes_at (B.blocks store.new) new) ≡ inserted (texts (bytes_at (B.blocks store.old) at)) index element.now) }
    ensures changes { IfOk result (λ new. Changes (B.blocks store.old) (B.blocks store.new) (at ∷ []) (new ∷ [])) }
    ensures served { Served B.step store.old store.new }

    // Want of memory changes nothing.
    ensures err_blocks { OnErr result (B.blocks store.new ≡ B.blocks store.old) }
    ensures err_slabs { OnErr result (B.heap store.new ≡ B.heap store.old) }
{
    let bytes = store.bytes(at);
    let count = told_count(bytes).saturating_add(1);
    let from = offset_in(bytes, index);
    put(store, at, from, element, count)
}
