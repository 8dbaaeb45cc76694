//! The commands on sets, over a keyspace.
//!
//! Each command has a function of its own, named by it in lower case, which takes its words. It is a step of the model on
//! what the keyspace means; the refusals of the world are replies, and change nothing. After want of memory the keyspace
//! is sound, and what it means is not said.
#![tactic(auto)]

mod adding;
mod changing;
mod dispatch;
mod edits;
mod gathering;
mod hashing;
mod joining;
mod listing;
mod look;
mod moving;
mod paging;
mod random;
mod reading;
mod removing;
mod sifting;
mod storing;

pub use adding::sadd;
pub use dispatch::run_sets;
pub use joining::{sintercard, sjoin};
pub use listing::smembers;
pub use moving::smove;
pub use paging::sscan;
pub use random::{spop, srandmember};
pub use reading::{scard, sismember, smismember};
pub use removing::srem;
pub use storing::sjoin_store;
