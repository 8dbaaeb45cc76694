//! The rows of an audit.

ghost use Rattle.std.specs.Prelude.{◌≡◌, ◌<◌, ◌≤◌, ◌+◌, ◌^◌, ◌++◌, ◌∷◌, [], ℕ, List, slice_index, if◌then◌else◌, IfOk, OnOk};
ghost use Rattle.blocks.specs.declared.BlockRef.{BlockRef};
ghost use Rattle.blocks.specs.Slabs.{size_of, slabs_of, used_of, needed};
ghost use Rattle.class_heap.specs.Heap.{heap_slabs};
ghost use Rattle.defrag_rax.specs.Rows.{audit_rows, has_slab, Splits};

use crate::tally::{CLASSES, Tally};
use blocks::{BlockStore, ClassUse, Memory};
use class_heap::ClassHeap;
use std::alloc::Global;

/// What stands in the slabs of a class of lengths.
#[derive(Clone, Copy, Debug, PartialEq, Eq)]
pub struct AuditRow {
    /// The greatest length of its blocks, in bytes.
    pub size: u32,
    /// The number of its slabs.
    pub slabs: u64,
    /// The least number of slabs that its blocks need.
    pub needed: u64,
    /// The number of nodes of streams' trees in them.
    pub tree: u64,
    /// The number of other blocks in them.
    pub other: u64,
}

// How many bytes a slab has.
const SLAB_BYTES: u64 = 65_536;

// The row of a class in whose slabs so many tree nodes stand.
fn row_of(heap: &ClassHeap, class: usize, tree: u64) -> AuditRow
    requires class { class < 36 }
    requires few { tree ≤ used_of (heap_slabs heap.now) class }
    ensures size { result.size ≡ size_of class }
    ensures slabs { result.slabs ≡ slabs_of (heap_slabs heap.now) class }
    ensures needed { result.needed ≡ needed (heap_slabs heap.now) class }
    ensures tree { result.tree ≡ tree }
    ensures other { result.tree + result.other ≡ used_of (heap_slabs heap.now) class }
    ensures fits { used_of (heap_slabs heap.now) class < 2 ^ 64 }
{
    let in_use = heap.use_of(class);
    AuditRow {
        size: in_use.size,
        slabs: in_use.slabs,
        needed: in_use.used.div_ceil(SLAB_BYTES / u64::from(in_use.size)),
        tree,
        other: in_use.used - tree,
    }
}

// Adds a row where its class has a slab.
fn push_row(rows: &mut Vec<AuditRow>, row: AuditRow) -> Result<(), Memory>
    ensures { OnOk result (rows.new.items ≡ rows.old.items ++ (if has_slab row then row ∷ [] else [])) }
{
    if row.slabs > 0 {
        rows.push(row)?;
    }
    Ok(())
}

/// The rows of the classes that have a slab, where so many tree nodes of each class were counted.
pub(crate) fn rows_of(
    alloc: Global,
    heap: &ClassHeap,
    counts: &Tally,
) -> Result<Vec<AuditRow>, Memory>
    requires few { (class : ℕ) → class < 36 → slice_index counts.now class ≤ used_of (heap_slabs heap.now) class }
    ensures { (tree other : List BlockRef) → Splits (heap_slabs heap.now) counts.now tree other → IfOk result (λ rows. rows.items ≡ audit_rows (heap_slabs heap.now) tree other) }
{
    let mut rows = Vec::new(alloc);
    for class in 0..CLASSES {
        push_row(&mut rows, row_of(heap, class, counts[class]))?;
    }
    Ok(rows)
}
