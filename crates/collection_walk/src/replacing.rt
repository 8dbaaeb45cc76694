// Blocks whose bytes give way to others.

ghost use Rattle.std.specs.Prelude.{◌≡◌, [], ◌∷◌, Some, Ok, IfOk, OnErr, IsSome, length};
ghost use Rattle.blocks.specs.Blocks.{Changes, Served, bytes_at};

use blocks::{BlockRef, BlockStore, Memory, put_block};

/// Puts bytes in the place of those of a block: over them where they are as many, and else in a block of their own, for which the old
/// one is given back. The answer is the block that has them. `Memory` leaves all blocks.
pub fn replace_block<B: BlockStore>(
    store: &mut B,
    at: BlockRef,
    bytes: &[u8],
) -> Result<BlockRef, Memory>
    requires { IsSome (B.blocks store.old at) }
    ensures bytes { IfOk result (λ new. B.blocks store.new new ≡ Some bytes.now) }
    ensures changes { IfOk result (λ new. Changes (B.blocks store.old) (B.blocks store.new) (at ∷ []) (new ∷ [])) }
    ensures over { length (bytes_at (B.blocks store.old) at) ≡ length bytes.now → result ≡ Ok at }
    ensures served { Served B.step store.old store.new }
    ensures err_blocks { OnErr result (B.blocks store.new ≡ B.blocks store.old) }
{
    if store.bytes(at).len() == bytes.len() {
        store.write(at, 0, bytes);
        return Ok(at);
    }
    let new = put_block(store, bytes)?;
    store.give_back(at);
    Ok(new)
}
