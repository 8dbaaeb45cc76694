ghost use Rattle.std.specs.Prelude.{◌≡◌, ◌≢◌, ℕ, ◌<◌, Some, None, [], ◌∷◌, IfOk, OnErr, IsSome, IsTrue, false, replicate, length, ◌+◌, ◌≤◌};
ghost use Rattle.blocks.specs.declared.BlockRef.{BlockRef};
ghost use Rattle.blocks.specs.Blocks.{with_block, overwritten, Changes, Served};
ghost use Rattle.blocks.specs.Slabs.{wants, Calmer, Swept, slabs_of, used_of, needed};
ghost use Rattle.blocks.specs.Laws.{ChangesLaws, ServedLaws};

use crate::{BlockRef, BlockStore, Memory};

/// Law: changes hold of a store and itself, go on from call to call, compose where their references
/// are disjoint, and leave what is outside.
pub fn changes_laws()
    ensures { ChangesLaws }
{}

/// Law: what a store was served goes on from call to call, and each call is a placing, a return, a
/// write or a stretch.
pub fn served_laws<B: BlockStore>(_store: &B)
    ensures { ServedLaws B.blocks B.heap B.step }
{}

/// Law: what is written into a placed block is read back, and no other block changes. The answer is
/// the block, and whether the bytes read are those written.
pub fn written_is_read<B: BlockStore>(
    store: &mut B,
    len: usize,
    from: usize,
    piece: &[u8],
) -> Result<(BlockRef, bool), Memory>
    requires { from + length piece.now ≤ len }
    ensures read { IfOk result (λ answer. IsTrue answer.1) }
    ensures fresh { IfOk result (λ answer. B.blocks store.old answer.0 ≡ None) }
    ensures placed { IfOk result (λ answer. B.blocks store.new ≡ with_block (B.blocks store.old) answer.0 (Some (overwritten (replicate len 0) from piece.now))) }
    ensures served { Served B.step store.old store.new }
    ensures err { OnErr result (B.blocks store.new ≡ B.blocks store.old) }
{
    let at = store.place(len)?;
    store.write(at, from, piece);
    let same = &store.bytes(at)[from..from + piece.len()] == piece;
    Ok((at, same))
}

/// Law: a block that is given back and one placed after it never share a reference with a third.
pub fn placed_anew<B: BlockStore>(
    store: &mut B,
    at: BlockRef,
    len: usize,
) -> Result<BlockRef, Memory>
    requires { IsSome (B.blocks store.old at) }
    ensures others { IfOk result (λ new. (r : BlockRef) → IsSome (B.blocks store.old r) → r ≢ at → r ≢ new) }
    ensures blocks { IfOk result (λ new. B.blocks store.new ≡ with_block (with_block (B.blocks store.old) at None) new (Some (replicate len 0))) }
    ensures changes { IfOk result (λ new. Changes (B.blocks store.old) (B.blocks store.new) (at ∷ []) (new ∷ [])) }
    ensures err { OnErr result (B.blocks store.new ≡ with_block (B.blocks store.old) at None) }
{
    store.give_back(at);
    store.place(len)
}

/// Moves a block where it wants that, and answers the reference that names it from then on.
pub fn settle<B: BlockStore>(store: &mut B, at: BlockRef) -> BlockRef
    requires { IsSome (B.blocks store.old at) }
    ensures bytes { B.blocks store.new result ≡ B.blocks store.old at }
    ensures changes { Changes (B.blocks store.old) (B.blocks store.new) (at ∷ []) (result ∷ []) }
    ensures calm { wants (B.heap store.new) result ≡ false }
    ensures calmer { Calmer (B.heap store.old) (B.heap store.new) }
{
    match store.move_block(at) {
        Some(new) => new,
        None => at,
    }
}

/// Law: a pass begins with as many kept slabs as are needed.
pub fn start_sweep<B: BlockStore>(store: &mut B)
    ensures blocks { B.blocks store.new ≡ B.blocks store.old }
    ensures swept { Swept (B.heap store.new) (λ r. ⊥) }
    ensures used { (class : ℕ) → used_of (B.heap store.new) class ≡ used_of (B.heap store.old) class }
{
    store.begin_pass();
}

/// Law: a pass in which no live block wants to move any longer, with as many slabs kept as are needed,
/// leaves each class the least number of slabs that hold its blocks.
pub fn finish_sweep<B: BlockStore>(store: &mut B)
    requires { Swept (B.heap store.old) (λ r. IsSome (B.blocks store.old r)) }
    ensures blocks { B.blocks store.new ≡ B.blocks store.old }
    ensures closed { (B.heap store.new).passing ≡ false }
    ensures least { (class : ℕ) → class < 36 → slabs_of (B.heap store.new) class ≡ needed (B.heap store.new) class }
    ensures used { (class : ℕ) → used_of (B.heap store.new) class ≡ used_of (B.heap store.old) class }
{
    store.end_pass();
}
