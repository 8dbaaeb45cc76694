ghost use Rattle.std.specs.Prelude.{◌≡◌, ◌↔◌, ℕ, ◌+◌, ◌<◌, ◌≤◌, ◌&&◌, Bool, false, Some, None, IsSome, is_some, IsTrue, length, replicate, unwrap_or, [], IfSome, OnOk, map};
ghost use Rattle.blocks.specs.Blocks.{overwritten, widened, resized, shifted};
ghost use Rattle.blocks.specs.Slabs.{per_slab, IsSlabFor, is_of, is_other, released, used_in};
ghost use Rattle.class_heap.specs.Placing.{returned};
ghost use Rattle.class_heap.specs.declared.entry.Entry.TheVariants.{Vacant};

use crate::class::{is_class_of, slots_in};
use crate::slab::{Leftovers, Slab};
use blocks::Memory;
use std::mem::replace;

/// The label of a number without a slab and without a large block.
pub(crate) const VACANT: u32 = 36;

/// What stands at a slab number.
#[derive(Drop)]
pub(crate) enum Entry {
    /// Nothing.
    Vacant,
    /// A block that no class holds.
    Large(Vec<u8>),
    /// A slab of a class.
    Classed(Slab),
}

impl Entry {
    ghost use Rattle.class_heap.specs.Slab.{with_slot};
    ghost use Rattle.class_heap.specs.Marks.{holds_at_least, marked, equal_after};
    ghost use Rattle.class_heap.specs.Entries.{use_in, block_in, labels_of, class_in, fuller, IsRoomFor, HasRoom, IsLarge};

    /// The label under which a number is found: that of a vacant one, or the class whose blocks its slab takes.
    pub(crate) fn labels(&self, passing: bool) -> u64
        ensures { result ≡ labels_of passing self.now }
    {
        match self {
            Entry::Vacant => 1 << VACANT,
            Entry::Large(_) => 0,
            Entry::Classed(slab) => slab.label(passing),
        }
    }

    /// The class of a slab.
    pub(crate) fn class(&self) -> Option<usize>
        ensures { result ≡ class_in (use_in self.now) }
    {
        match self {
            Entry::Classed(slab) => Some(slab.class),
            _ => None,
        }
    }

    /// Whether there is a slab that isn't kept.
    pub(crate) fn is_other(&self) -> bool
        ensures { result ≡ is_other (use_in self.now) }
    {
        match self {
            Entry::Classed(slab) => !slab.kept,
            _ => false,
        }
    }

    /// Whether a block stands in the slot.
    pub(crate) fn is_live(&self, slot: u32) -> bool
        ensures { result ≡ is_some (block_in self.now slot) }
    {
        match self {
            Entry::Vacant => false,
            Entry::Large(_) => slot == 0,
            Entry::Classed(slab) => slab.is_live(slot as usize),
        }
    }

    /// The bytes of a block.
    pub(crate) fn bytes(&self, slot: u32) -> &[u8]
        requires { IsSome (block_in self.now slot) }
        ensures { block_in self.now slot ≡ Some result.now }
    {
        match self {
            Entry::Vacant => unreachable!(),
            Entry::Large(bytes) => bytes,
            Entry::Classed(slab) => slab.bytes(slot as usize),
        }
    }

    /// Puts a piece into a block, from the byte `from` on.
    pub(crate) fn write(&mut self, slot: u32, from: usize, piece: &[u8])
        requires live { IsSome (block_in self.old slot) }
        requires room { from + length piece.now ≤ length (unwrap_or (block_in self.old slot) []) }
        ensures written { (other : ℕ) → block_in self.new other ≡ with_slot (block_in self.old) slot (Some (overwritten (unwrap_or (block_in self.old slot) []) from piece.now)) other }
        ensures same { use_in self.new ≡ use_in self.old }
        ensures labels { (passing : Bool) → labels_of passing self.new ≡ labels_of passing self.old }
    {
        match self {
            Entry::Vacant => unreachable!(),
            Entry::Large(bytes) => bytes[from..from + piece.len()].copy_from_slice(piece),
            Entry::Classed(slab) => slab.write(slot as usize, from, piece),
        }
    }

    /// Puts bytes of a block, from the byte `from` on, over those from the byte `to` on.
    pub(crate) fn shift(&mut self, slot: u32, from: usize, to: usize, count: usize)
        requires live { IsSome (block_in self.old slot) }
        requires inside { from + count ≤ length (unwrap_or (block_in self.old slot) []) }
        requires room { to + count ≤ length (unwrap_or (block_in self.old slot) []) }
        ensures shifted { (other : ℕ) → block_in self.new other ≡ with_slot (block_in self.old) slot (Some (shifted (unwrap_or (block_in self.old slot) []) from to count)) other }
        ensures same { use_in self.new ≡ use_in self.old }
        ensures labels { (passing : Bool) → labels_of passing self.new ≡ labels_of passing self.old }
    {
        match self {
            Entry::Vacant => unreachable!(),
            Entry::Large(bytes) => bytes.copy_within(from..from + count, to),
            Entry::Classed(slab) => slab.shift(slot as usize, from, to, count),
        }
    }

    /// Whether there is a slab of the least class that holds a block of `len` bytes.
    pub(crate) fn is_slab_for(&self, len: usize) -> bool
        ensures { IsTrue result ↔ IsSlabFor len (use_in self.now) }
    {
        match self {
            Entry::Classed(slab) => is_class_of(len, slab.class),
            _ => false,
        }
    }

    /// Gives a block of a slab another length of the class. Zero bytes stand behind those that stay.
    pub(crate) fn stretch(&mut self, slot: u32, len: usize)
        requires live { IsSome (block_in self.old slot) }
        requires class { IsSlabFor len (use_in self.old) }
        ensures stretched { (other : ℕ) → block_in self.new other ≡ with_slot (block_in self.old) slot (Some (resized (unwrap_or (block_in self.old slot) []) len)) other }
        ensures same { use_in self.new ≡ use_in self.old }
        ensures labels { (passing : Bool) → labels_of passing self.new ≡ labels_of passing self.old }
    {
        let Entry::Classed(slab) = self else {
            unreachable!()
        };
        slab.stretch(slot as usize, len);
    }

    /// Makes room for a large block to have so many bytes. Where its memory grows it gets room to spare, so that many small
    /// steps take linear time. `Memory` where there is none.
    pub(crate) fn reserve(&mut self, len: usize) -> Result<(), Memory>
        requires live { IsSome (block_in self.old 0) }
        requires alone { class_in (use_in self.old) ≡ None }
        requires longer { length (unwrap_or (block_in self.old 0) []) ≤ len }
        ensures blocks { (slot : ℕ) → block_in self.new slot ≡ block_in self.old slot }
        ensures same { use_in self.new ≡ use_in self.old }
        ensures labels { (passing : Bool) → labels_of passing self.new ≡ labels_of passing self.old }
        ensures room { OnOk result (HasRoom len self.new) }
    {
        let Entry::Large(bytes) = self else {
            unreachable!()
        };
        bytes.reserve(len - bytes.len())
    }

    /// Puts zero bytes behind those of a large block that has room for them.
    pub(crate) fn lengthen(&mut self, len: usize)
        requires room { HasRoom len self.old }
        requires longer { length (unwrap_or (block_in self.old 0) []) ≤ len }
        ensures lengthened { IsLarge (widened (unwrap_or (block_in self.old 0) []) len) self.new }
    {
        let Entry::Large(bytes) = self else {
            unreachable!()
        };
        let filled = bytes.resize(len, 0).is_ok();
        prove!(filled);
    }

    /// Places a block of zeros into a slab.
    pub(crate) fn place(&mut self, len: usize) -> u32
        requires { IsRoomFor len (use_in self.old) }
        ensures fresh { block_in self.old result ≡ None }
        ensures placed { (other : ℕ) → block_in self.new other ≡ with_slot (block_in self.old) result (Some (replicate len 0)) other }
        ensures more { use_in self.new ≡ fuller (use_in self.old) }
    {
        let Entry::Classed(slab) = self else {
            unreachable!()
        };
        slab.place(len) as u32
    }

    /// Copies a block of a slab into another of its class.
    pub(crate) fn carry(&self, slot: u32, other: &mut Entry) -> u32
        requires live { IsSome (block_in self.now slot) }
        requires slab { IsSome (use_in self.now) }
        requires class { class_in (use_in other.old) ≡ class_in (use_in self.now) }
        requires room { IfSome (use_in other.old) (λ s. s.used < per_slab s.class) }
        ensures fresh { block_in other.old result ≡ None }
        ensures carried { (at : ℕ) → block_in other.new at ≡ with_slot (block_in other.old) result (block_in self.now slot) at }
        ensures more { use_in other.new ≡ fuller (use_in other.old) }
    {
        match (self, other) {
            (Entry::Classed(slab), Entry::Classed(other)) => {
                slab.carry(slot as usize, other) as u32
            }
            _ => unreachable!(),
        }
    }

    /// Leaves nothing here. The memory of a slab is left over.
    fn vacate(&mut self, leftovers: &mut Leftovers)
        ensures { self.new ≡ Vacant }
    {
        if let Entry::Classed(slab) = replace(self, Entry::Vacant) {
            leftovers.keep(slab.into_leftover());
        }
    }

    /// Ends a block. A large one goes, and so does a slab that isn't kept with its last.
    pub(crate) fn give_back(&mut self, slot: u32, leftovers: &mut Leftovers)
        requires { IsSome (block_in self.old slot) }
        ensures ended { (other : ℕ) → block_in self.new other ≡ with_slot (block_in self.old) slot None other }
        ensures left { use_in self.new ≡ returned (use_in self.old) }
    {
        match self {
            Entry::Classed(slab) => {
                slab.give_back(slot as usize);
                if slab.used == 0 && !slab.kept {
                    self.vacate(leftovers);
                }
            }
            _ => *self = Entry::Vacant,
        }
    }

    /// Ends the keeping of a slab, which goes where it has no block.
    pub(crate) fn release(&mut self, leftovers: &mut Leftovers)
        ensures blocks { (slot : ℕ) → block_in self.new slot ≡ block_in self.old slot }
        ensures released { use_in self.new ≡ released (use_in self.old) }
    {
        if let Entry::Classed(slab) = self {
            if slab.used == 0 {
                self.vacate(leftovers);
            } else {
                slab.kept = false;
            }
        }
    }

    /// Whether there is a slab of the class.
    pub(crate) fn is_of(&self, class: usize) -> bool
        ensures { result ≡ is_of class (use_in self.now) }
    {
        match self {
            Entry::Classed(slab) => slab.class == class,
            _ => false,
        }
    }

    /// How many blocks of the class stand here.
    pub(crate) fn used_in(&self, class: usize) -> usize
        ensures used { result ≡ used_in class (use_in self.now) }
        ensures most { result ≤ 8192 }
    {
        match self {
            Entry::Classed(slab) if slab.class == class => slab.used,
            _ => 0,
        }
    }

    /// Whether there is a slab of the class with at least so many blocks.
    pub(crate) fn holds_at_least(&self, class: usize, least: usize) -> bool
        ensures { result ≡ holds_at_least class least (use_in self.now) }
    {
        match self {
            Entry::Classed(slab) => slab.class == class && slab.used >= least,
            _ => false,
        }
    }

    /// Keeps a slab of the class with more blocks than `least`; one with as many where `equal` isn't 0. The answer
    /// is how many with as many are then left to keep.
    pub(crate) fn keep(&mut self, class: usize, least: usize, equal: usize) -> usize
        ensures blocks { (slot : ℕ) → block_in self.new slot ≡ block_in self.old slot }
        ensures marked { use_in self.new ≡ marked class least equal (use_in self.old) }
        ensures left { result ≡ equal_after class least equal (use_in self.old) }
    {
        let Entry::Classed(slab) = self else {
            return equal;
        };
        if slab.class != class || slab.used < least {
            return equal;
        }
        if slab.used > least {
            slab.kept = true;
            return equal;
        }
        if equal == 0 {
            return 0;
        }
        slab.kept = true;
        equal - 1
    }
}
