//! An ordered map from keys of sixteen bytes to references, as a radix tree that stands in the blocks of a store.
#![tactic(auto)]

mod build;
mod copy;
mod cut;
mod edit;
mod grow;
mod laws;
mod look;
mod node;
mod pass;
mod path;
mod release;
mod relocate;
mod seek;
mod tree;

pub use laws::packed_laws;
pub use pass::Passed;
pub use path::PathNodes;
pub use tree::PackedTree;

/// Want of memory.
pub type Memory = std::alloc::AllocError;
