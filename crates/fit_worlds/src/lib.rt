//! Worlds that an RDB file can hold, and that every request leaves one.
#![tactic(auto)]

mod laws;

pub use laws::{begun_is_fit, live_is_fit, runs_keep_fit, steps_keep_fit};
