//! Places and cursors: the order in which a scan goes through a table, whatever its size.
#![tactic(auto)]

mod cursor;
mod laws;
mod scan;

pub use cursor::{next, place};
pub use laws::{covering_law, one_table_law};
pub use scan::{BucketScan, Memory};
