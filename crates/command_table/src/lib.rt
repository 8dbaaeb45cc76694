//! What the words of a request ask for: a command, or why they are refused.
#![tactic(auto)]

mod connection;
mod hashes;
mod keys;
mod lists;
mod making;
mod reading;
mod sets;
mod streams;
mod strings;
mod table;
mod zsets;

pub use command_words::ReadingFault;
pub use reading::read;
