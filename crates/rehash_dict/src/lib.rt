//! Dictionaries from the bytes of key blocks to values, with two tables and incremental rehashing.
#![tactic(auto)]

mod chains;
mod dict;
mod scan;
mod tables;

pub use dict::Dict;

/// Want of memory.
pub type Memory = std::alloc::AllocError;
