//! The commands on streams, over a keyspace.
//!
//! Each command has a function of its own, named by it in lower case, which takes its words. It is a step of the model on
//! what the keyspace means; the refusals of the world are replies, and change nothing. After want of memory the keyspace
//! is sound, and what it means is not said.
#![tactic(auto)]

mod acknowledging;
mod adding;
mod changing;
mod delivering;
mod dispatch;
mod edits;
mod grouping;
mod look;
mod pending;
mod reading;
mod removing;
mod several;
mod telling;
mod there;

pub use acknowledging::xack;
pub use adding::xadd;
pub use delivering::xreadgroup;
pub use dispatch::run_streams;
pub use grouping::{xgroup_create, xgroup_destroy};
pub use pending::xpending;
pub use reading::{xlen, xrange};
pub use removing::{xdel, xtrim};
pub use several::xread;
