//! That what an RDB file says can be written as one.
#![tactic(auto)]

mod laws;

pub use laws::files_are_fit;
