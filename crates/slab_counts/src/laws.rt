//! Laws of the definitions, as contracts of functions that do nothing.

ghost use Rattle.slab_counts.specs.Counts.{SlabCountLaws};

/// Law: a list that has each live reference once, and no other, has as many in the slabs of a class as these count.
pub fn slab_count_laws()
    ensures { SlabCountLaws }
{}
