//! What stands in the slabs of a keyspace.

ghost use Rattle.std.specs.Prelude.{◌≡◌, ◌+◌, ℕ, IfOk};
ghost use Rattle.blocks.specs.Slabs.{used_of};
ghost use Rattle.class_heap.specs.Heap.{heap_blocks, heap_slabs};
ghost use Rattle.keyspace.specs.Sound.{Sound};
ghost use Rattle.slab_counts.specs.Counts.{count_in};
ghost use Rattle.defrag_rax.specs.Owned.{other_blocks, tree_nodes};
ghost use Rattle.defrag_rax.specs.Rows.{audit_rows};

use crate::rows::{AuditRow, rows_of};
use crate::tally::{CLASSES, count_keyspace};
use blocks::Memory;
use class_heap::ClassHeap;
use keyspace::Keyspace;
use std::alloc::Global;

/// A row for each class of lengths that has a slab, by rising sizes. It asks for a keyspace that owns each live block of its store.
/// Its memory is that of the rows, at most 36, and its time linear in the item numbers of the databases and in the nodes of their
/// streams. `Memory` for want of memory alone.
pub fn audit(alloc: Global, keyspace: &Keyspace<ClassHeap>) -> Result<Vec<AuditRow>, Memory>
    requires { Sound keyspace.now.bases (heap_blocks keyspace.now.store) }
    ensures rows { IfOk result (λ rows. rows.items ≡ audit_rows (heap_slabs keyspace.now.store)
        (tree_nodes keyspace.now.bases (heap_blocks keyspace.now.store)) (other_blocks keyspace.now.bases (heap_blocks keyspace.now.store))) }
    ensures used { (class : ℕ) → count_in (heap_slabs keyspace.now.store) class (tree_nodes keyspace.now.bases (heap_blocks keyspace.now.store))
        + count_in (heap_slabs keyspace.now.store) class (other_blocks keyspace.now.bases (heap_blocks keyspace.now.store)) ≡ used_of (heap_slabs keyspace.now.store) class }
{
    let mut counts = [0; CLASSES];
    count_keyspace(keyspace, &mut counts);
    rows_of(alloc, &keyspace.store, &counts)
}
