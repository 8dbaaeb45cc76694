//! The consumer groups of one stream.
//!
//! [`Groups`] is a finite map from names to groups. A group has the last id that it handed out, its consumers, and the
//! ids that were handed to a consumer and not acknowledged. It knows nothing of the stream: an id is a pair of numbers,
//! milliseconds first.
//!
//! Beside a group's pending ids stands an index of them by consumer, so that a consumer's own are found without passing over
//! those of the others.
#![tactic(auto)]

mod bytes;
mod consumers;
mod entries;
mod group;
mod groups;
mod id_set;
mod index;
mod pendings;
mod waiting;

pub use bytes::Bytes;
pub use group::Group;
pub use groups::Groups;
pub use waiting::{Owner, Waiting, WaitingEntry};

/// Want of memory.
pub type Memory = std::alloc::AllocError;

/// An id: milliseconds, and a number among those of the same millisecond.
pub type Id = (u64, u64);
