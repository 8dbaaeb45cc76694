//! A store of blocks that refuses placings when it is told to: what programs of rows try want of memory on.
#![tactic(auto)]

ghost use Rattle.std.specs.Prelude.{◌≡◌, ◌-◌, ℕ, Some, None, false, replicate, IfOk, OnErr, IsErr};
ghost use Rattle.blocks.specs.Blocks.{with_block, no_blocks};
ghost use Rattle.blocks.specs.Slabs.{wants, no_slabs};
ghost use Rattle.blocks.specs.Plain.{plain_blocks, plain_heap, IsPlainStep};

use blocks::{BlockRef, BlockStore, ClassUse, Memory, PlainStore};
use std::alloc::{AllocError, Global};

/// A plain store that has memory for so many further placings, and refuses each later one.
#[derive(Drop)]
pub struct ScarceStore {
    pub plain: PlainStore,

    /// How many placings it has memory for.
    pub left: usize,
}

impl ScarceStore {
    /// A store without a block, which refuses nothing yet.
    pub fn new(alloc: Global) -> ScarceStore
        ensures blocks { plain_blocks result.plain ≡ no_blocks }
        ensures slabs { plain_heap result.plain ≡ no_slabs }
        ensures left { result.left ≡ 18446744073709551615 }
    {
        ScarceStore {
            plain: PlainStore::new(alloc),
            left: usize::MAX,
        }
    }

    /// From now on there is memory for so many placings.
    pub fn allow(&mut self, placings: usize)
        ensures plain { self.new.plain ≡ self.old.plain }
        ensures left { self.new.left ≡ placings }
    {
        self.left = placings;
    }

    /// From now on no placing is refused.
    pub fn allow_all(&mut self)
        ensures plain { self.new.plain ≡ self.old.plain }
        ensures left { self.new.left ≡ 18446744073709551615 }
    {
        self.left = usize::MAX;
    }
}

impl BlockStore for ScarceStore {
    ghost use Rattle.blocks.specs.PlainFinite.{plain_finite, plain_sound};

    ghost blocks = { λ s. plain_blocks s.plain };

    ghost heap = { λ s. plain_heap s.plain };

    ghost step = { λ before after. IsPlainStep before.plain after.plain };

    ghost finite = { λ s. plain_finite s.plain.places };

    ghost sound = { λ s. plain_sound (plain_blocks s.plain) s.plain.passing };

    ghost steps = { λ _ _ step. step };

    /// Each placing takes one of those that are left; where none is, it is refused.
    fn place(&mut self, len: usize) -> Result<BlockRef, Memory>
        ensures fresh { IfOk result (λ at. plain_blocks self.old.plain at ≡ None) }
        ensures placed { IfOk result (λ at. plain_blocks self.new.plain ≡ with_block (plain_blocks self.old.plain) at (Some (replicate len 0))) }
        ensures calm { IfOk result (λ at. wants (plain_heap self.new.plain) at ≡ false) }
        ensures pass { (plain_heap self.new.plain).passing ≡ (plain_heap self.old.plain).passing }
        ensures step { IsPlainStep self.old.plain self.new.plain }
        ensures err_blocks { OnErr result (plain_blocks self.new.plain ≡ plain_blocks self.old.plain) }
        ensures err_slabs { OnErr result (plain_heap self.new.plain ≡ plain_heap self.old.plain) }
        ensures refused { self.old.left ≡ 0 → IsErr result }
        ensures left { self.new.left ≡ self.old.left - 1 }
    {
        if self.left == 0 {
            return Err(AllocError);
        }
        self.left -= 1;
        self.plain.place(len)
    }

    fn bytes(&self, at: BlockRef) -> &[u8] {
        self.plain.bytes(at)
    }

    fn write(&mut self, at: BlockRef, from: usize, piece: &[u8]) {
        self.plain.write(at, from, piece);
    }

    fn shift(&mut self, at: BlockRef, from: usize, to: usize, count: usize) {
        self.plain.shift(at, from, to, count);
    }

    fn stretch(&mut self, at: BlockRef, len: usize) -> bool {
        self.plain.stretch(at, len)
    }

    fn give_back(&mut self, at: BlockRef) {
        self.plain.give_back(at);
    }

    fn begin_pass(&mut self) {
        self.plain.begin_pass();
    }

    fn wants_move(&self, at: BlockRef) -> bool {
        self.plain.wants_move(at)
    }

    fn is_calm(&self) -> bool {
        self.plain.is_calm()
    }

    fn move_block(&mut self, at: BlockRef) -> Option<BlockRef> {
        self.plain.move_block(at)
    }

    fn end_pass(&mut self) {
        self.plain.end_pass();
    }

    fn use_of(&self, class: usize) -> ClassUse {
        self.plain.use_of(class)
    }
}
