//! Saving: the keys of a keyspace, written onto a shelf as a file of version 11 (RDB file format).
#![tactic(auto)]

mod elements;
mod hashes;
mod keys;
mod lists;
mod saving;
mod sets;
mod sorted;
mod streams;
mod strings;

pub use saving::save;
