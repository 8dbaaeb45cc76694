//! Numbers that are kept at keys, in a map that is looked up by them.
#![tactic(auto)]

mod marks;

pub use marks::Marks;
