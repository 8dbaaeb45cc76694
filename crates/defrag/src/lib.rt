//! Walks over a keyspace, in bounded steps, that pack the slabs of its store.
#![tactic(auto)]

mod walk;

pub use walk::{Visit, Walk};
