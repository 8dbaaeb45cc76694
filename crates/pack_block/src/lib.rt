//! A listpack that is a block of a store, edited in its place.
#![tactic(auto)]

mod class;
mod edits;
mod gaps;
mod header;
mod part;

pub use edits::{insert, remove_range};
pub use gaps::gap;
