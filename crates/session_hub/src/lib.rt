//! The input of several sessions, taken apart: of which session each byte is.
#![tactic(auto)]

mod hub;

pub use hub::{Hub, Step, Stopped};
