//! Streams, written as values of an RDB file.
#![tactic(auto)]

mod consumers;
mod groups;
mod ids;
mod marks;
mod nodes;
mod stream;

pub use stream::write_stream;
