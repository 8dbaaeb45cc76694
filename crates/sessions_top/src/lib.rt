//! A run of several sessions from its words on: loads a file where the words name one, serves the sessions of an input of pieces, and
//! notes what ended the run.
#![tactic(auto)]

pub mod ending;
mod noting;
pub mod process;
pub mod top_call;
