//! Sessions at one engine, each with a database of its own, a queue inside MULTI, and watched keys.
#![tactic(auto)]

mod answering;
mod asking;
mod desk;
mod engine;
mod naming;
mod over_engine;
mod session;
mod watching;
mod writing;

pub use desk::Desk;
pub use engine::DeskEngine;
