ghost use Rattle.std.specs.Prelude.{◌≡◌, ◌≢◌, ℕ, ◌+◌, ◌*◌, ◌^◌, ◌<◌, ◌≤◌, Some, None, IsSome, is_some, IfOk, length, replicate, take, drop, unwrap_or, [], if◌then◌else◌};
ghost use Rattle.blocks.specs.Blocks.{overwritten, resized, shifted};
ghost use Rattle.blocks.specs.Slabs.{per_slab, IsClassOf, one_more_in};
ghost use Rattle.class_heap.specs.Slots.{IsSlab};

use crate::SlabMem;
use crate::class::{size_in, slots_in};
use blocks::Memory;
use std::alloc::Global;

/// The word of a free slot, less the number of the slot that is free after it.
const FREE: u16 = 0x8000;

/// The label of a slab whose blocks want to move.
pub(crate) const WAITING: u32 = 37;

/// As many zeros as the longest block of a class has bytes.
const ZEROS: [u8; 14_336] = [0; 14_336];

fn zeros(len: usize) -> &'static [u8]
    requires { len ≤ 14336 }
    ensures { result.now ≡ replicate len 0 }
{
    &ZEROS[..len]
}

/// How many regions are kept back at most, 1.5 MiB. A block that grows leaves a slab in most of the classes that it passes, and in a
/// pass these stand until it ends.
const MOST_LEFT: usize = 24;

/// The memory of a slab that went, for the next one that is made: its bytes are what they were.
#[derive(Drop)]
pub(crate) struct Leftover {
    mem: SlabMem,
    ghost long: { length mem ≡ 65536 },
}

/// The memory of slabs that went, at most 24 regions. Those that go beyond these go back to the allocator.
#[derive(Drop)]
pub(crate) struct Leftovers {
    regions: Vec<Leftover>,
    ghost few: { length regions.items ≤ 24 },
}

impl Leftovers {
    /// None. It takes no memory.
    pub(crate) fn new(alloc: Global) -> Leftovers {
        Leftovers {
            regions: Vec::new(alloc),
        }
    }

    /// The region that was left last, or else new memory, and with it room to keep regions back.
    fn take(&mut self, alloc: Global) -> Result<Leftover, Memory> {
        match self.regions.pop() {
            Some(left) => Ok(left),
            None => {
                self.regions.reserve(MOST_LEFT)?;
                let mem = SlabMem::make(alloc)?;
                Ok(Leftover { mem })
            }
        }
    }

    /// Keeps a region back, unless there are as many as may be. It takes no memory.
    pub(crate) fn keep(&mut self, left: Leftover) {
        let count = self.regions.len();
        if count < MOST_LEFT && count < self.regions.capacity() {
            self.regions.push_reserved(left);
        }
    }
}

/// A region of 65,536 bytes, cut into slots for the blocks of one class.
#[derive(Drop)]
pub(crate) struct Slab {
    pub(crate) class: usize,
    pub(crate) used: usize,
    pub(crate) kept: bool,
    size: usize,
    // the first free slot, and a word for each: the length of its block, or `FREE` and the next free slot
    head: u16,
    words: Vec<u16>,
    mem: SlabMem,
    ghost sound: { IsSlab class size used head words.items mem },
}

impl Slab {
    ghost use Rattle.class_heap.specs.Slab.{block_at, bytes_in, slab_label, use_of, with_slot};

    /// A slab without a block. It takes memory that is left over, where there is some.
    pub(crate) fn make(
        alloc: Global,
        class: usize,
        kept: bool,
        leftovers: &mut Leftovers,
    ) -> Result<Slab, Memory>
        requires { class < 36 }
        ensures empty { IfOk result (λ s. (slot : ℕ) → block_at s slot ≡ None) }
        ensures made { IfOk result (λ s. use_of s ≡ record { class = class; used = 0; kept = kept }) }
    {
        let count = slots_in(class);
        let mut words = Vec::with_capacity(alloc, count)?;
        'fill: for slot in 0..count {
            words.push_reserved(FREE + 1 + slot as u16);
        }
        let Leftover { mem } = leftovers.take(alloc)?;
        Ok(Slab {
            class,
            used: 0,
            kept,
            size: size_in(class),
            head: 0,
            words,
            mem,
        })
    }

    /// The slab's memory alone.
    pub(crate) fn into_leftover(self) -> Leftover
        ensures { result.mem ≡ self.mem }
    {
        let Slab { mem, .. } = self;
        Leftover { mem }
    }

    /// A mask of the slab's class where it takes blocks: it has room, and is kept while a pass is open. Where its blocks want to
    /// move, a mask of `WAITING`.
    pub(crate) fn label(&self, passing: bool) -> u64
        ensures { result ≡ slab_label passing (use_of self.now) }
    {
        if passing && !self.kept {
            return 1 << WAITING;
        }
        if self.used < slots_in(self.class) {
            return 1 << self.class;
        }
        0
    }

    /// Whether a block stands in the slot.
    pub(crate) fn is_live(&self, slot: usize) -> bool
        ensures { result ≡ is_some (block_at self.now slot) }
    {
        slot < self.words.len() && self.words[slot] < FREE
    }

    /// The bytes of a block.
    pub(crate) fn bytes(&self, slot: usize) -> &[u8]
        requires { IsSome (block_at self.now slot) }
        ensures { block_at self.now slot ≡ Some result.now }
    {
        self.mem.part(slot * self.size, self.words[slot] as usize)
    }

    /// Puts a piece into a block, from the byte `from` on.
    pub(crate) fn write(&mut self, slot: usize, from: usize, piece: &[u8])
        requires live { IsSome (block_at self.old slot) }
        requires room { from + length piece.now ≤ length (bytes_in self.old slot) }
        ensures written { (other : ℕ) → block_at self.new other ≡ with_slot (block_at self.old) slot (Some (overwritten (bytes_in self.old slot) from piece.now)) other }
        ensures same { use_of self.new ≡ use_of self.old }
    {
        self.mem.put(slot * self.size + from, piece);
    }

    /// Puts bytes of a block, from the byte `from` on, over those from the byte `to` on.
    pub(crate) fn shift(&mut self, slot: usize, from: usize, to: usize, count: usize)
        requires live { IsSome (block_at self.old slot) }
        requires inside { from + count ≤ length (bytes_in self.old slot) }
        requires room { to + count ≤ length (bytes_in self.old slot) }
        ensures shifted { (other : ℕ) → block_at self.new other ≡ with_slot (block_at self.old) slot (Some (shifted (bytes_in self.old slot) from to count)) other }
        ensures same { use_of self.new ≡ use_of self.old }
    {
        let start = slot * self.size;
        self.mem.shift(start + from, start + to, count);
    }

    /// Gives a block another length of the class, and whatever bytes stand in its slot.
    fn resize(&mut self, slot: usize, len: usize)
        requires live { IsSome (block_at self.old slot) }
        requires class { IsClassOf len self.old.class }
        ensures resized { (other : ℕ) → block_at self.new other ≡ with_slot (block_at self.old) slot (Some (take len (drop (slot * self.old.size) self.old.mem))) other }
        ensures same { use_of self.new ≡ use_of self.old }
    {
        self.words[slot] = len as u16;
    }

    /// Gives a block another length of the class. Zero bytes stand behind those that stay.
    pub(crate) fn stretch(&mut self, slot: usize, len: usize)
        requires live { IsSome (block_at self.old slot) }
        requires class { IsClassOf len self.old.class }
        ensures stretched { (other : ℕ) → block_at self.new other ≡ with_slot (block_at self.old) slot (Some (resized (bytes_in self.old slot) len)) other }
        ensures same { use_of self.new ≡ use_of self.old }
    {
        let old_len = self.words[slot] as usize;
        self.resize(slot, len);
        if old_len < len {
            self.write(slot, old_len, zeros(len - old_len));
        }
    }

    /// Takes a free slot for a block of `len` bytes, whatever they are.
    fn take_slot(&mut self, len: usize) -> usize
        requires room { self.old.used < per_slab self.old.class }
        requires class { IsClassOf len self.old.class }
        ensures fresh { block_at self.old result ≡ None }
        ensures taken { IsSome (block_at self.new result) }
        ensures long { length (bytes_in self.new result) ≡ len }
        ensures others { (other : ℕ) → other ≢ result → block_at self.new other ≡ block_at self.old other }
        ensures more { use_of self.new ≡ one_more_in (use_of self.old) }
    {
        let slot = self.head as usize;
        self.head = self.words[slot] - FREE;
        self.words[slot] = len as u16;
        self.used += 1;
        slot
    }

    /// Places a block of zeros.
    pub(crate) fn place(&mut self, len: usize) -> usize
        requires room { self.old.used < per_slab self.old.class }
        requires class { IsClassOf len self.old.class }
        ensures fresh { block_at self.old result ≡ None }
        ensures placed { (other : ℕ) → block_at self.new other ≡ with_slot (block_at self.old) result (Some (replicate len 0)) other }
        ensures more { use_of self.new ≡ one_more_in (use_of self.old) }
    {
        let slot = self.take_slot(len);
        self.write(slot, 0, zeros(len));
        slot
    }

    /// Copies a block into another slab of its class.
    pub(crate) fn carry(&self, slot: usize, other: &mut Slab) -> usize
        requires live { IsSome (block_at self.now slot) }
        requires class { other.old.class ≡ self.now.class }
        requires room { other.old.used < per_slab other.old.class }
        ensures fresh { block_at other.old result ≡ None }
        ensures carried { (at : ℕ) → block_at other.new at ≡ with_slot (block_at other.old) result (block_at self.now slot) at }
        ensures more { use_of other.new ≡ one_more_in (use_of other.old) }
    {
        let len = self.words[slot] as usize;
        let new = other.take_slot(len);
        self.mem
            .copy_across(slot * self.size, &mut other.mem, new * other.size, len);
        new
    }

    /// Ends a block.
    pub(crate) fn give_back(&mut self, slot: usize)
        requires { IsSome (block_at self.old slot) }
        ensures ended { (other : ℕ) → block_at self.new other ≡ with_slot (block_at self.old) slot None other }
        ensures class { self.new.class ≡ self.old.class }
        ensures kept { self.new.kept ≡ self.old.kept }
        ensures fewer { self.new.used + 1 ≡ self.old.used }
    {
        self.words[slot] = FREE + self.head;
        self.head = slot as u16;
        self.used -= 1;
    }
}
