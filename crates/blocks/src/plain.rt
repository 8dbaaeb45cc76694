ghost use Rattle.std.specs.Prelude.{◌≡◌, Option, None, true, false, ◌+◌, ◌≤◌, length};
ghost use Rattle.blocks.specs.Blocks.{overwritten, shifted, no_blocks};
ghost use Rattle.blocks.specs.Slabs.{no_slabs};
ghost use Rattle.blocks.specs.Plain.{plain_blocks, plain_heap, IsPlainStep};

use crate::{BlockRef, BlockStore, CLASS_SIZES, ClassUse, Memory};
use slab::Slab;
use std::alloc::Global;
use std::marker::Model;

/// A store with one vector a block. It counts no slabs, so no block in it wants to move, and none has another length in its place.
#[derive(Drop)]
pub struct PlainStore {
    alloc: Global,
    vectors: Slab<Vec<u8>>,
    passing: bool,
}

impl Model for PlainStore {
    ghost use Rattle.std.specs.Prelude.{map};
    ghost use Rattle.blocks.specs.Plain.{Plain, bytes_of};

    ghost Value = { Plain };

    ghost view = { λ s. record { places = map bytes_of s.vectors.slots; passing = s.passing } };
}

fn put_piece(bytes: &mut Vec<u8>, from: usize, piece: &[u8])
    requires { from + length piece.now ≤ length bytes.old.items }
    ensures { bytes.new.items ≡ overwritten bytes.old.items from piece.now }
{
    bytes[from..from + piece.len()].copy_from_slice(piece);
}

fn shift_part(bytes: &mut Vec<u8>, from: usize, to: usize, count: usize)
    requires inside { from + count ≤ length bytes.old.items }
    requires room { to + count ≤ length bytes.old.items }
    ensures { bytes.new.items ≡ shifted bytes.old.items from to count }
{
    bytes.copy_within(from..from + count, to);
}

impl PlainStore {
    /// A store without a block. It takes no memory.
    pub fn new(alloc: Global) -> Self
        ensures blocks { plain_blocks result ≡ no_blocks }
        ensures slabs { plain_heap result ≡ no_slabs }
    {
        PlainStore {
            alloc,
            vectors: Slab::new(alloc),
            passing: false,
        }
    }
}

impl BlockStore for PlainStore {
    ghost blocks = { plain_blocks };

    ghost heap = { plain_heap };

    ghost step = { IsPlainStep };

    ghost use Rattle.blocks.specs.PlainFinite.{plain_finite, plain_sound};

    ghost finite = { λ s. plain_finite s.places };

    ghost sound = { λ s. plain_sound (plain_blocks s) s.passing };

    ghost steps = { λ _ _ step. step };

    fn place(&mut self, len: usize) -> Result<BlockRef, Memory> {
        self.vectors.reserve(1)?;
        let zeros = vec![in self.alloc; 0u8; len]?;
        let slab = self.vectors.insert_reserved(zeros);
        Ok(BlockRef { slab, slot: 0 })
    }

    fn bytes(&self, at: BlockRef) -> &[u8] {
        match self.vectors.get(at.slab) {
            Some(bytes) => bytes,
            None => unreachable!(),
        }
    }

    fn write(&mut self, at: BlockRef, from: usize, piece: &[u8]) {
        let Some(bytes) = self.vectors.get_mut(at.slab) else {
            unreachable!()
        };
        put_piece(bytes, from, piece);
    }

    fn shift(&mut self, at: BlockRef, from: usize, to: usize, count: usize) {
        let Some(bytes) = self.vectors.get_mut(at.slab) else {
            unreachable!()
        };
        shift_part(bytes, from, to, count);
    }

    fn stretch(&mut self, _at: BlockRef, _len: usize) -> bool {
        false
    }

    fn give_back(&mut self, at: BlockRef) {
        self.vectors.try_remove(at.slab);
    }

    fn begin_pass(&mut self) {
        self.passing = true;
    }

    fn wants_move(&self, _at: BlockRef) -> bool {
        false
    }

    fn is_calm(&self) -> bool {
        true
    }

    fn move_block(&mut self, _at: BlockRef) -> Option<BlockRef> {
        None
    }

    fn end_pass(&mut self) {
        self.passing = false;
    }

    fn use_of(&self, class: usize) -> ClassUse {
        ClassUse {
            size: CLASS_SIZES[class],
            slabs: 0,
            used: 0,
        }
    }
}
