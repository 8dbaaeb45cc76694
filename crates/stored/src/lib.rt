//! What can stand at a key: a value that owns its blocks in the store that each call is lent.
#![tactic(auto)]

mod value;

pub use blocks::Moved;
pub use value::Stored;
