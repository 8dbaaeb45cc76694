//! The requests of an input are served by an engine, whatever it is.
#![tactic(auto)]

mod answering;
mod ending;
mod pending;
mod pieces;
mod server;
mod short;
mod writing;

pub use answering::moment_of;
pub use ending::Ended;
pub use pending::{Pending, flush};
pub use pieces::serve_input;
pub use server::{Done, Server};
pub use writing::write_parts;
