//! The commands on lists, over a keyspace.
//!
//! Each command has a function of its own, named by it in lower case, which takes its words. It is a step of the model on
//! what the keyspace means; the refusals of the world are replies, and change nothing. After want of memory the keyspace
//! is sound, and what it means is not said.
#![tactic(auto)]

mod changing;
mod dispatch;
mod edits;
mod equals;
mod inserting;
mod look;
mod moving;
mod popping;
mod positions;
mod pushing;
mod reading;
mod replacing;
mod trimming;

pub use dispatch::run_lists;
pub use equals::lrem;
pub use inserting::linsert;
pub use moving::{lmove, rpoplpush};
pub use popping::{lpop, rpop};
pub use positions::lpos;
pub use pushing::{lpush, lpushx, rpush, rpushx};
pub use reading::{lindex, llen, lrange};
pub use replacing::lset;
pub use trimming::ltrim;
