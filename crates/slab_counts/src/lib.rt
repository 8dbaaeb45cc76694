//! How many blocks of a list stand in the slabs of a class of lengths.
#![tactic(auto)]

mod laws;

pub use laws::slab_count_laws;
