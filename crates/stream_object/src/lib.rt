//! Streams: entries by rising ids, in nodes that a packed tree names, with consumer groups beside them.
#![tactic(auto)]

mod again;
mod below;
mod block;
mod clearing;
mod copying;
mod delivering;
mod fault;
mod groups;
mod growing;
mod laws;
mod loading;
mod looking;
mod marks;
mod node;
mod nodes;
mod owned;
mod picking;
mod ranging;
mod redelivering;
mod relocating;
mod removing;
mod spot;
mod stream;
mod tail;
mod trimming;
mod wanted;
mod whole;

pub use again::Again;
pub use fault::AddFault;
pub use groups::{Pending, PendingEntry};
pub use laws::stream_laws;
pub use owned::Owned;
pub use stream::Stream;
pub use stream_groups::{Bytes, Group, Owner};
pub use stream_node::{Id, Pairs};

/// Want of memory.
pub type Memory = std::alloc::AllocError;
