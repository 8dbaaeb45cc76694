//! Requests out of bytes, and replies into bytes.
#![tactic(auto)]

mod fault_lines;
mod feeder;
mod header;
mod laws;
mod lengths;
mod line;
mod number;
mod request;
mod rule;
mod span;
mod spelling;
mod whole;

pub use fault_lines::put_fault;
pub use feeder::{Feeder, FrameFault, Request};
pub use laws::{faults_stay, frames_are_one, frames_are_there, requests_only_grow};
pub use lengths::{fault_len, spelled_len};
pub use rule::Rule;
pub use spelling::{put_all, put_part, spell};
