//! Digests of bytes, a module for each.
#![tactic(auto)]

mod crc64;
mod siphash;

pub use crc64::{crc, crc_goes_on};
pub use siphash::sip;
