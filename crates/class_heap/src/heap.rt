ghost use Rattle.std.specs.Prelude.{◌≡◌, ◌≢◌, ℕ, ◌+◌, ◌<◌, ◌≤◌, Bool, true, false, Some, None, IsSome, is_some, IfSome, IfOk, OnOk, OnErr, length, slice_index_or};
ghost use Rattle.blocks.specs.declared.BlockRef.{BlockRef};
ghost use Rattle.blocks.specs.Blocks.{no_blocks, with_block, bytes_at};
ghost use Rattle.blocks.specs.Slabs.{no_slabs, slab_at, IsClassOf, Moves, spare_of, waiting_of, wants};
ghost use Rattle.class_heap.specs.Tree.{IsLeastWith};
ghost use Rattle.class_heap.specs.Entries.{IsHeap, IsLeastVacant, entry_at, use_in, class_in, labels_of, HasRoom};
ghost use Rattle.class_heap.specs.Placing.{takes};

use crate::class::{class_of, slots_in};
use crate::directory::Directory;
use crate::entry::{Entry, VACANT};
use crate::marks::{label_all, mark_all, release_all, slabs_of, used_of};
use crate::slab::{Leftovers, Slab, WAITING};
use blocks::{BlockRef, BlockStore, CLASS_SIZES, ClassUse, Memory};
use std::alloc::Global;
use std::mem::replace;

/// A store of blocks in slabs of 65,536 bytes by size classes. A block that no class holds stands alone.
///
/// A block goes into the lowest-numbered slab of its class that has room, else into a new slab, which takes the least
/// number that is free. While a pass is open, only kept slabs take blocks, and no more than leave room for all blocks
/// that want to move: so a move takes no memory. Placing and giving back take time in the logarithm of the number of
/// slabs, reading takes none. Beside its slabs the heap keeps two bytes a slot and some fifteen words a number, and the
/// memory of at most 24 slabs that went, so that the next ones have some at once.
///
/// A block that stands alone is lengthened in its memory, which at least doubles where it is full: so many short steps
/// take time linear in the length. A block in a slab gets another length of its class in its place, and is copied where the
/// length is of another class.
#[derive(Drop)]
pub struct ClassHeap {
    alloc: Global,
    passing: bool,
    // what stands at each number, and under which label it is found
    entries: Vec<Entry>,
    directory: Directory,
    // in a pass, by how many the free places of a class's kept slabs are more than the blocks in its others
    margins: [usize; 36],
    // memory for the next slabs that are made
    leftovers: Leftovers,
    ghost sound: { IsHeap passing entries.items directory margins },
}

/// Makes the list as long as the bound, with nothing at the further numbers.
fn extend(entries: &mut Vec<Entry>, bound: usize) -> Result<(), Memory>
    requires { length entries.old.items ≤ bound }
    ensures same { (n : ℕ) → entry_at entries.new.items n ≡ entry_at entries.old.items n }
    ensures long { OnOk result (length entries.new.items ≡ bound) }
    ensures err { OnErr result (entries.new.items ≡ entries.old.items) }
{
    entries.reserve(bound - entries.len())?;
    'fill: for _number in entries.len()..bound {
        entries.push_reserved(Entry::Vacant);
    }
    Ok(())
}

impl ClassHeap {
    ghost use Rattle.class_heap.specs.Heap.{Places, Lengthens, heap_blocks, heap_slabs};

    /// A heap without a block. It takes no memory.
    pub fn new(alloc: Global) -> Self
        ensures blocks { heap_blocks result ≡ no_blocks }
        ensures slabs { heap_slabs result ≡ no_slabs }
    {
        ClassHeap {
            alloc,
            passing: false,
            entries: Vec::new(alloc),
            directory: Directory::new(alloc),
            margins: [0; 36],
            leftovers: Leftovers::new(alloc),
        }
    }

    /// Whether the reference names a live block, for callers that keep no account of their blocks.
    pub fn is_live(&self, at: BlockRef) -> bool
        ensures { result ≡ is_some (heap_blocks self.now at) }
    {
        at.slab < self.entries.len() && self.entries[at.slab].is_live(at.slot)
    }

    /// The class of the slab that has this number, below 36. `None` comes exactly where no slab has it: the number is free, or a block
    /// stands alone there.
    pub fn class_at(&self, slab: usize) -> Option<usize>
        ensures class { result ≡ class_in (slab_at (heap_slabs self.now) slab) }
        ensures few { IfSome result (λ class. class < 36) }
    {
        if slab < self.entries.len() {
            self.entries[slab].class()
        } else {
            None
        }
    }

    /// Makes room for twice as many numbers.
    fn widen(&mut self) -> Result<(), Memory>
        ensures entries { (n : ℕ) → entry_at self.new.entries.items n ≡ entry_at self.old.entries.items n }
        ensures passing { self.new.passing ≡ self.old.passing }
        ensures margins { self.new.margins ≡ self.old.margins }
        ensures wider { OnOk result (length self.old.entries.items < length self.new.entries.items) }
        ensures err { OnErr result (self.new.entries.items ≡ self.old.entries.items) }
    {
        let wider = self.directory.wider(self.alloc, 1 << VACANT)?;
        extend(&mut self.entries, wider.bound)?;
        self.directory = wider;
        Ok(())
    }

    /// The least number that has neither a slab nor a large block, with room made for it.
    fn vacant(&mut self) -> Result<usize, Memory>
        ensures vacant { IfOk result (IsLeastVacant self.new.entries.items) }
        ensures entries { (n : ℕ) → entry_at self.new.entries.items n ≡ entry_at self.old.entries.items n }
        ensures passing { self.new.passing ≡ self.old.passing }
        ensures margins { self.new.margins ≡ self.old.margins }
        ensures err { OnErr result (self.new.entries.items ≡ self.old.entries.items) }
    {
        if let Some(number) = self.directory.first(VACANT) {
            return Ok(number);
        }
        let number = self.entries.len();
        self.widen()?;
        Ok(number)
    }

    /// Places a block that no class holds.
    fn place_alone(&mut self, len: usize) -> Result<BlockRef, Memory>
        requires { 14336 < len }
        ensures placed { IfOk result (Places self.old self.new len) }
        ensures err_blocks { OnErr result (heap_blocks self.new ≡ heap_blocks self.old) }
        ensures err_slabs { OnErr result (heap_slabs self.new ≡ heap_slabs self.old) }
    {
        let bytes = vec![in self.alloc; 0u8; len]?;
        let slab = self.vacant()?;
        self.entries[slab] = Entry::Large(bytes);
        self.directory.set(slab, 0);
        Ok(BlockRef { slab, slot: 0 })
    }

    /// Makes room for a block that stands alone to have so many bytes. No block and no slab changes.
    fn reserve_alone(&mut self, at: BlockRef, len: usize) -> Result<(), Memory>
        requires live { IsSome (heap_blocks self.old at) }
        requires alone { class_in (use_in (entry_at self.old.entries.items at.slab)) ≡ None }
        requires longer { length (bytes_at (heap_blocks self.old) at) ≤ len }
        ensures blocks { heap_blocks self.new ≡ heap_blocks self.old }
        ensures slabs { heap_slabs self.new ≡ heap_slabs self.old }
        ensures room { OnOk result (HasRoom len (entry_at self.new.entries.items at.slab)) }
    {
        self.entries[at.slab].reserve(len)
    }

    /// Lengthens a block that stands alone and has room for that. It gets the number that one placed beside it would get.
    fn lengthen_reserved(&mut self, at: BlockRef, len: usize) -> Result<BlockRef, Memory>
        requires live { IsSome (heap_blocks self.old at) }
        requires room { HasRoom len (entry_at self.old.entries.items at.slab) }
        requires longer { length (bytes_at (heap_blocks self.old) at) ≤ len }
        requires large { 14336 < len }
        ensures lengthened { IfOk result (Lengthens self.old self.new at len) }
        ensures err_blocks { OnErr result (heap_blocks self.new ≡ heap_blocks self.old) }
        ensures err_slabs { OnErr result (heap_slabs self.new ≡ heap_slabs self.old) }
    {
        let slab = self.vacant()?;
        let mut block = replace(&mut self.entries[at.slab], Entry::Vacant);
        block.lengthen(len);
        self.entries[slab] = block;
        self.directory.set(slab, 0);
        self.directory.set(at.slab, 1 << VACANT);
        Ok(BlockRef { slab, slot: 0 })
    }

    /// Lengthens a block that stands alone, in its memory.
    fn lengthen_alone(&mut self, at: BlockRef, len: usize) -> Result<BlockRef, Memory>
        requires live { IsSome (heap_blocks self.old at) }
        requires alone { class_in (use_in (entry_at self.old.entries.items at.slab)) ≡ None }
        requires longer { length (bytes_at (heap_blocks self.old) at) ≤ len }
        requires large { 14336 < len }
        ensures lengthened { IfOk result (Lengthens self.old self.new at len) }
        ensures err_blocks { OnErr result (heap_blocks self.new ≡ heap_blocks self.old) }
        ensures err_slabs { OnErr result (heap_slabs self.new ≡ heap_slabs self.old) }
    {
        self.reserve_alone(at, len)?;
        self.lengthen_reserved(at, len)
    }

    /// Places a block into a slab that takes it.
    fn place_in(&mut self, slab: usize, class: usize, len: usize) -> BlockRef
        requires class { class < 36 }
        requires holds { IsClassOf len class }
        requires first { IsLeastWith self.old.directory.bound self.old.directory.nodes.items class slab }
        requires room { self.old.passing ≡ true → 0 < slice_index_or self.old.margins class 0 }
        ensures { Places self.old self.new len result }
    {
        let entry = &mut self.entries[slab];
        let slot = entry.place(len);
        let labels = entry.labels(self.passing);
        self.directory.set(slab, labels);
        if self.passing {
            self.margins[class] -= 1;
        }
        BlockRef { slab, slot }
    }

    /// Places a block into a new slab.
    fn place_anew(&mut self, class: usize, len: usize) -> Result<BlockRef, Memory>
        requires class { class < 36 }
        requires holds { IsClassOf len class }
        requires none { self.old.passing ≡ false → (n : ℕ) → takes false class (use_in (entry_at self.old.entries.items n)) ≡ false }
        requires full { self.old.passing ≡ true → spare_of (heap_slabs self.old) class ≤ waiting_of (heap_slabs self.old) class }
        ensures placed { IfOk result (Places self.old self.new len) }
        ensures err_blocks { OnErr result (heap_blocks self.new ≡ heap_blocks self.old) }
        ensures err_slabs { OnErr result (heap_slabs self.new ≡ heap_slabs self.old) }
    {
        let mut entry = Entry::Classed(Slab::make(
            self.alloc,
            class,
            self.passing,
            &mut self.leftovers,
        )?);
        let slab = self.vacant()?;
        let slot = entry.place(len);
        let labels = entry.labels(self.passing);
        self.entries[slab] = entry;
        self.directory.set(slab, labels);
        if self.passing {
            self.margins[class] += slots_in(class) - 1;
        }
        Ok(BlockRef { slab, slot })
    }

    /// Places a block of a class.
    fn place_of(&mut self, class: usize, len: usize) -> Result<BlockRef, Memory>
        requires class { class < 36 }
        requires holds { IsClassOf len class }
        ensures placed { IfOk result (Places self.old self.new len) }
        ensures err_blocks { OnErr result (heap_blocks self.new ≡ heap_blocks self.old) }
        ensures err_slabs { OnErr result (heap_slabs self.new ≡ heap_slabs self.old) }
    {
        if self.passing && self.margins[class] == 0 {
            return self.place_anew(class, len);
        }
        match self.directory.first(class as u32) {
            Some(slab) => Ok(self.place_in(slab, class, len)),
            None => self.place_anew(class, len),
        }
    }

    /// Moves a block that wants it into the lowest-numbered kept slab of its class that has room.
    fn carry(&mut self, at: BlockRef) -> BlockRef
        requires live { IsSome (heap_blocks self.old at) }
        requires wants { wants (heap_slabs self.old) at ≡ true }
        ensures fresh { heap_blocks self.old result ≡ None }
        ensures moved { heap_blocks self.new ≡ with_block (with_block (heap_blocks self.old) at None) result (heap_blocks self.old at) }
        ensures slabs { Moves (heap_slabs self.old) (heap_slabs self.new) at result }
    {
        let class = match self.entries[at.slab].class() {
            Some(class) => class,
            None => unreachable!(),
        };
        let slab = match self.directory.first(class as u32) {
            Some(slab) => slab,
            None => unreachable!(),
        };
        let mut source = replace(&mut self.entries[at.slab], Entry::Vacant);
        let target = &mut self.entries[slab];
        let slot = source.carry(at.slot, target);
        let labels = target.labels(self.passing);
        self.directory.set(slab, labels);
        source.give_back(at.slot, &mut self.leftovers);
        let labels = source.labels(self.passing);
        self.directory.set(at.slab, labels);
        self.entries[at.slab] = source;
        BlockRef { slab, slot }
    }
}

impl BlockStore for ClassHeap {
    ghost use Rattle.class_heap.specs.Heap.{heap_blocks, heap_slabs, IsClassHeapStep};

    ghost blocks = { heap_blocks };

    ghost heap = { heap_slabs };

    ghost step = { IsClassHeapStep };

    ghost use Rattle.class_heap.specs.Laws.{heap_finite, heap_sound, heap_step};

    ghost finite = { λ s. heap_finite s.entries.items };

    ghost sound = { λ s. heap_sound s.sound };

    ghost steps = { λ a b step. heap_step step };

    fn place(&mut self, len: usize) -> Result<BlockRef, Memory> {
        match class_of(len) {
            Some(class) => self.place_of(class, len),
            None => self.place_alone(len),
        }
    }

    fn bytes(&self, at: BlockRef) -> &[u8] {
        self.entries[at.slab].bytes(at.slot)
    }

    fn write(&mut self, at: BlockRef, from: usize, piece: &[u8]) {
        self.entries[at.slab].write(at.slot, from, piece);
    }

    fn shift(&mut self, at: BlockRef, from: usize, to: usize, count: usize) {
        self.entries[at.slab].shift(at.slot, from, to, count);
    }

    fn stretch(&mut self, at: BlockRef, len: usize) -> bool {
        if !self.entries[at.slab].is_slab_for(len) {
            return false;
        }
        self.entries[at.slab].stretch(at.slot, len);
        true
    }

    fn give_back(&mut self, at: BlockRef) {
        let entry = &mut self.entries[at.slab];
        let class = entry.class();
        entry.give_back(at.slot, &mut self.leftovers);
        let labels = entry.labels(self.passing);
        self.directory.set(at.slab, labels);
        if self.passing {
            if let Some(class) = class {
                self.margins[class] += 1;
            }
        }
    }

    fn lengthen(&mut self, at: BlockRef, len: usize) -> Result<BlockRef, Memory> {
        if class_of(len).is_none() && self.entries[at.slab].class().is_none() {
            return self.lengthen_alone(at, len);
        }
        let new = self.place(len)?;
        self.copy_block(at, new);
        self.give_back(at);
        Ok(new)
    }

    fn begin_pass(&mut self) {
        release_all(&mut self.entries, &mut self.directory, &mut self.leftovers);
        mark_all(&mut self.entries, &mut self.margins);
        label_all(&self.entries, &mut self.directory);
        self.passing = true;
    }

    fn wants_move(&self, at: BlockRef) -> bool {
        self.passing && self.entries[at.slab].is_other()
    }

    fn is_calm(&self) -> bool {
        self.directory.first(WAITING).is_none()
    }

    fn move_block(&mut self, at: BlockRef) -> Option<BlockRef> {
        if !self.wants_move(at) {
            return None;
        }
        Some(self.carry(at))
    }

    fn end_pass(&mut self) {
        release_all(&mut self.entries, &mut self.directory, &mut self.leftovers);
        self.passing = false;
    }

    fn use_of(&self, class: usize) -> ClassUse {
        ClassUse {
            size: CLASS_SIZES[class],
            slabs: slabs_of(&self.entries, class) as u64,
            used: used_of(&self.entries, class) as u64,
        }
    }
}
