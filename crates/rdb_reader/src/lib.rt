//! Loading a file: its bytes out of a host, and its keys into a keyspace.
#![tactic(auto)]

mod building;
mod collections;
mod fault;
mod fetch;
mod items;
mod keys;
mod layouts;
mod loading;
mod nodes;
mod pairs;
mod payloads;
mod streams;

pub use fault::LoadFault;
pub use loading::{Loaded, load};
