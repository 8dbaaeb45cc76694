//! A run from its words on: loads a file where the words name one, serves a stream of requests or runs commands that it
//! generates, and notes what ended the run.
#![tactic(auto)]

pub mod ending;
mod generating;
pub mod laws;
mod lent;
pub mod notes;
pub mod process;
pub mod starting;
pub mod top_call;
pub mod words;
