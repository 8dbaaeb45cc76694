//! The deadlines of one database: which of its keys end, and when.
#![tactic(auto)]

mod deadlines;
mod gone;

pub use deadlines::Deadlines;
pub use gone::Gone;

/// Want of memory.
pub type Memory = std::alloc::AllocError;
