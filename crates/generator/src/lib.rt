//! Commands that are drawn by a seed, run by an engine, whatever it is.
#![tactic(auto)]

mod commands;
mod drawing;
mod executing;
mod laws;
mod requests;
mod running;
mod spelled;
mod telling;

pub use laws::generated_runs_are_one;
pub use running::{Sums, run_commands};
pub use telling::lines;
