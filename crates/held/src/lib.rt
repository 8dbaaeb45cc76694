//! The sixteen databases of a server over a block store, whatever type their values have.
#![tactic(auto)]

mod databases;
mod expiring;
mod gone;
mod keyspace;
mod moving;
mod rehash;
mod relocate;
mod seeking;

pub use databases::{Base, Databases};
pub use keyspace::{Keyspace, Lifted};
pub use seeking::{Sought, SoughtAt};
pub use stored::Stored;
