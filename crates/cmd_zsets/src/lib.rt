//! The commands on sorted sets, over a keyspace.
//!
//! Each command has a function of its own, named by it in lower case, which takes its words. It is a step of the model on
//! what the keyspace means; the refusals of the world are replies, and change nothing. After want of memory the keyspace
//! is sound, and what it means is not said.
#![tactic(auto)]

mod adding;
mod changing;
mod dispatch;
mod edits;
mod gathering;
mod joining;
mod look;
mod paging;
mod popping;
mod raising;
mod random;
mod ranges;
mod ranking;
mod reading;
mod removing;
mod spans;
mod storing;
mod there;

pub use adding::zadd;
pub use dispatch::run_zsets;
pub use paging::zscan;
pub use popping::{zpop, zremrangebyrank, zremrangebyscore};
pub use raising::zincr;
pub use random::zrandmember;
pub use ranges::{zcount, zrange, zrangebyscore};
pub use ranking::zrank;
pub use reading::{zcard, zmscore, zscore};
pub use removing::zrem;
pub use storing::zjoin_store;
