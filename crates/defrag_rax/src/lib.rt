//! What stands in the slabs of a keyspace: nodes of the trees of streams, and other blocks.
#![tactic(auto)]

mod auditing;
mod lines;
mod rows;
mod tally;

pub use auditing::audit;
pub use lines::audit_lines;
pub use rows::AuditRow;
