//! What a server holds, is asked and answers: the definitions in `specs/`, and the types that they speak of.
#![tactic(auto)]

mod bytes;
mod laws;
mod refusal;
mod reply;

pub use bytes::{Bytes, LONGEST};
pub use laws::spellings_are_apart;
pub use refusal::Refusal;
pub use reply::{Line, Part, Parts, Reply};
use std::alloc::AllocError;

/// Want of memory.
pub type Memory = AllocError;
