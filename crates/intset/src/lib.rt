//! The intset: Redis's packed form of a set of whole numbers.
//!
//! An intset is a string of bytes: the width of a number as a `u32`, how many numbers there are as
//! a `u32`, and then the numbers, signed, each of that width of 2, 4 or 8 bytes, strictly rising,
//! and nothing after them. All stand with the lowest byte first. That is the layout of `intset.h`
//! of Redis 7.2, and of the intset that an RDB file holds.
//!
//! [`check`] reads bytes of unknown origin, [`known`] those that are known to be an intset, and
//! [`add`] and [`remove`] edit one in place.
#![tactic(auto)]

mod edits;
mod ints;

pub use crate::edits::{add, empty, remove};
pub use crate::ints::{Ints, IntsetFault, check, known};

/// Memory was refused.
pub type Memory = std::alloc::AllocError;
