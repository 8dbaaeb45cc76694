ghost use Rattle.std.specs.Prelude.{◌≡◌, ℕ, ◌+◌, ◌≤◌, List, length, take, drop, replicate, IfOk};
ghost use Rattle.blocks.specs.Blocks.{overwritten, shifted};

use crate::held::Held;
use blocks::Memory;
use std::alloc::Global;
use std::marker::Model;

/// A region of 65,536 bytes behind a raw pointer. Its block goes back when it is dropped.
pub struct SlabMem {
    held: Held<[u8; 65_536], Global>,
}

impl Model for SlabMem {
    ghost use Rattle.std.specs.Prelude.{List, ℕ};

    ghost Value = { List ℕ };

    ghost view = { λ m. m.held.value };
}

impl SlabMem {
    /// A region of zeros; `Memory` where there is none for it.
    pub fn make(alloc: Global) -> Result<SlabMem, Memory>
        ensures { IfOk result (λ m. m ≡ replicate 65536 0) }
    {
        let region = Box::new(alloc, [0; 65_536])?;
        Ok(SlabMem {
            held: Held::of(region),
        })
    }

    /// The `len` bytes from `at` on.
    pub fn part(&self, at: usize, len: usize) -> &[u8]
        requires { at + len ≤ 65536 }
        ensures { result.now ≡ take len (drop at self.now) }
    {
        &self.held.get()[at..at + len]
    }

    /// Writes a piece over the bytes from `at` on.
    pub fn put(&mut self, at: usize, piece: &[u8])
        requires { at + length piece.now ≤ 65536 }
        ensures { self.new ≡ overwritten self.old at piece.now }
    {
        self.held.get_mut()[at..at + piece.len()].copy_from_slice(piece);
    }

    /// Puts the `len` bytes from `at` on over those from `to` on. The two places may overlap.
    pub fn shift(&mut self, at: usize, to: usize, len: usize)
        requires from { at + len ≤ 65536 }
        requires room { to + len ≤ 65536 }
        ensures { self.new ≡ shifted self.old at to len }
    {
        self.held.get_mut().copy_within(at..at + len, to);
    }

    /// Copies the `len` bytes from `at` on to the place `to` of another region.
    pub fn copy_across(&self, at: usize, other: &mut SlabMem, to: usize, len: usize)
        requires from { at + len ≤ 65536 }
        requires room { to + len ≤ 65536 }
        ensures { other.new ≡ overwritten other.old to (take len (drop at self.now)) }
    {
        other.put(to, self.part(at, len));
    }
}

impl Drop for SlabMem {
    fn drop(self) {
        let SlabMem { held } = self;
        drop(held.into_box());
    }
}
