// The two blocks of a field and its value.

ghost use Rattle.std.specs.Prelude.{◌≡◌, ◌∷◌, [], Some, IfOk, OnErr};
ghost use Rattle.blocks.specs.Blocks.{Changes, Owned, Served};

use blocks::{BlockRef, BlockStore, Memory, put_block};

/// Places the blocks of a field and of its value. `Memory` leaves all blocks.
pub(crate) fn place_entry<B: BlockStore>(
    store: &mut B,
    field: &[u8],
    value: &[u8],
) -> Result<(BlockRef, BlockRef), Memory>
    ensures field { IfOk result (λ pair. B.blocks store.new pair.0 ≡ Some field.now) }
    ensures value { IfOk result (λ pair. B.blocks store.new pair.1 ≡ Some value.now) }
    ensures changes { IfOk result (λ pair. Changes (B.blocks store.old) (B.blocks store.new) [] (pair.0 ∷ pair.1 ∷ [])) }
    ensures served { Served B.step store.old store.new }
    ensures err_blocks { OnErr result (B.blocks store.new ≡ B.blocks store.old) }
{
    let key = put_block(store, field)?;
    match put_block(store, value) {
        Ok(at) => Ok((key, at)),
        Err(error) => {
            store.give_back(key);
            Err(error)
        }
    }
}

/// Gives back the blocks of a field and of its value.
pub(crate) fn end_entry<B: BlockStore>(store: &mut B, key: BlockRef, value: BlockRef)
    requires { Owned (key ∷ value ∷ []) (B.blocks store.old) }
    ensures changes { Changes (B.blocks store.old) (B.blocks store.new) (key ∷ value ∷ []) [] }
    ensures served { Served B.step store.old store.new }
{
    store.give_back(key);
    store.give_back(value);
}
