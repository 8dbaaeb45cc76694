//! Several sessions of one server, over one input and one output.
#![tactic(auto)]

mod answering;
mod chunk;
mod ending;
mod hearing;
mod pieces;
mod slot;
mod unit;

pub use ending::SessionsEnded;
pub use pieces::serve_sessions;
