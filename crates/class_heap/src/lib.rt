//! A store of blocks in slabs of 65,536 bytes by size classes, with passes that pack the blocks into as few slabs as
//! they need.
#![tactic(auto)]

mod class;
mod directory;
mod entry;
mod heap;
mod held;
mod marks;
mod slab;
mod slab_mem;

pub use heap::ClassHeap;
pub use slab_mem::SlabMem;
