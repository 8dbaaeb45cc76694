//! Values of a keyspace read out whole, as data of their own.
#![tactic(auto)]

mod entry;
mod groups;
mod hashes;
mod kind;
mod lists;
mod reading;
mod scores;
mod sets;
mod streams;
mod texts;
mod value;

pub use entry::Entry;
pub use reading::read_entry;
pub use value::Held;
