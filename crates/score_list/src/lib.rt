//! Lists of scores and members, sorted by score and then by the members' bytes.
#![tactic(auto)]

mod cursor;
mod edits;
mod probes;
mod scores;
mod search;
mod towers;

pub use cursor::Cursor;
pub use scores::Scores;

/// Want of memory.
pub type Memory = std::alloc::AllocError;
