//! The commands on hashes, over a keyspace.
//!
//! Each command has a function of its own, named by it in lower case, which takes its words. It is a step of the model on
//! what the keyspace means; the refusals of the world are replies, and change nothing. After want of memory the keyspace
//! is sound, and what it means is not said.
#![tactic(auto)]

mod changing;
mod counting;
mod deleting;
mod dispatch;
mod edits;
mod listing;
mod look;
mod paging;
mod random;
mod reading;
mod setting;
mod there;

pub use counting::hincrby;
pub use deleting::hdel;
pub use dispatch::run_hashes;
pub use listing::{hgetall, hkeys, hvals};
pub use paging::hscan;
pub use random::hrandfield;
pub use reading::{hexists, hget, hlen, hmget, hstrlen};
pub use setting::{hmset, hset, hsetnx};
