//! Patterns of keys, members and fields, as the Redis commands KEYS and SCAN take them.
#![tactic(auto)]

mod class;
mod piece;
mod walk;

pub use walk::matches;
