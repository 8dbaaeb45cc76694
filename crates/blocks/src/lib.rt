//! Blocks of bytes under references, behind one trait that every store of blocks meets.
#![tactic(auto)]

mod laws;
mod plain;
mod put;
mod store;

pub use laws::{
    changes_laws, finish_sweep, placed_anew, served_laws, settle, start_sweep, written_is_read,
};
pub use plain::PlainStore;
pub use put::put_block;
use std::alloc::AllocError;
pub use store::BlockStore;

/// Want of memory.
pub type Memory = AllocError;

/// Names a block of a store: the number of its slab and its place there.
#[derive(Clone, Copy, Debug, PartialEq, Eq)]
pub struct BlockRef {
    pub slab: usize,
    pub slot: u32,
}

/// What a size class uses: the size of its blocks in bytes, its slabs, and the blocks in them.
#[derive(Clone, Copy, Debug, PartialEq, Eq)]
pub struct ClassUse {
    pub size: u32,
    pub slabs: u64,
    pub used: u64,
}

/// How far a value's blocks were passed by a bounded call that moves those which want it. Each block of a value has a mark, and
/// the marks rise in the order in which the blocks are passed.
#[derive(Clone, Copy, Debug, PartialEq, Eq)]
pub struct Moved {
    /// The mark to go on from: all blocks with a lower one are passed. `None` where the value has no block left.
    pub next: Option<u128>,
    /// How many blocks and vacant places were passed.
    pub used: u32,
}

/// The sizes of the classes in bytes. A block takes the least class that holds it, and a longer one
/// than the last stands alone.
pub const CLASS_SIZES: [u32; 36] = [
    8, 16, 32, 48, 64, 80, 96, 112, 128, 160, 192, 224, 256, 320, 384, 448, 512, 640, 768, 896,
    1024, 1280, 1536, 1792, 2048, 2560, 3072, 3584, 4096, 5120, 6144, 7168, 8192, 10240, 12288,
    14336,
];
