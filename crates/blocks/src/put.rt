ghost use Rattle.std.specs.Prelude.{◌≡◌, Some, None, [], ◌∷◌, IfOk, OnErr, false};
ghost use Rattle.blocks.specs.Blocks.{with_block, Changes, Served};
ghost use Rattle.blocks.specs.Slabs.{wants};

use crate::{BlockRef, BlockStore, Memory};

/// Places a block of these bytes. `Memory` leaves all blocks and slabs.
pub fn put_block<B: BlockStore>(store: &mut B, bytes: &[u8]) -> Result<BlockRef, Memory>
    ensures fresh { IfOk result (λ at. B.blocks store.old at ≡ None) }
    ensures placed { IfOk result (λ at. B.blocks store.new ≡ with_block (B.blocks store.old) at (Some bytes.now)) }
    ensures changes { IfOk result (λ at. Changes (B.blocks store.old) (B.blocks store.new) [] (at ∷ [])) }
    ensures calm { IfOk result (λ at. wants (B.heap store.new) at ≡ false) }
    ensures served { Served B.step store.old store.new }
    ensures err_blocks { OnErr result (B.blocks store.new ≡ B.blocks store.old) }
    ensures err_slabs { OnErr result (B.heap store.new ≡ B.heap store.old) }
{
    let at = store.place(bytes.len())?;
    store.write(at, 0, bytes);
    Ok(at)
}
