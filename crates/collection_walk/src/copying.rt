// Blocks copied.

ghost use Rattle.std.specs.Prelude.{◌≡◌, [], ◌∷◌, Some, IfOk, OnErr, IsSome};
ghost use Rattle.blocks.specs.Blocks.{Changes, Served, with_block, bytes_at};

use blocks::{BlockRef, BlockStore, Memory, put_block};
use std::alloc::Global;

/// Places a block of the same bytes as another. `Memory` leaves all blocks.
pub fn copy_block<B: BlockStore>(
    alloc: Global,
    store: &mut B,
    at: BlockRef,
) -> Result<BlockRef, Memory>
    requires { IsSome (B.blocks store.old at) }
    ensures placed { IfOk result (λ new. B.blocks store.new ≡ with_block (B.blocks store.old) new (Some (bytes_at (B.blocks store.old) at))) }
    ensures changes { IfOk result (λ new. Changes (B.blocks store.old) (B.blocks store.new) [] (new ∷ [])) }
    ensures served { Served B.step store.old store.new }
    ensures err_blocks { OnErr result (B.blocks store.new ≡ B.blocks store.old) }
{
    let bytes = Vec::from_slice(alloc, store.bytes(at))?;
    put_block(store, &bytes)
}
