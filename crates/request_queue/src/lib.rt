//! Requests that are kept, and run later one behind the other at one moment: what a transaction queues.
#![tactic(auto)]

mod executing;
mod queue;
mod spelled;

pub use queue::Queue;
