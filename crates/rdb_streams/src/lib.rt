//! Streams of a file, built node by node and group by group (RDB types 15, 19 and 21: `rdbLoadObject` in `rdb.c` of Redis 7.2).
#![tactic(auto)]

mod consumers;
mod fault;
mod groups;
mod nodes;
mod stream;
mod unclaimed;

pub use stream::read_stream;
