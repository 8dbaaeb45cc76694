//! The engine: requests in, replies out, over a keyspace.
#![tactic(auto)]

mod answering;
mod background;
mod engine;
mod entry;
mod laws;
mod settling;

pub use background::StepsDone;
pub use engine::Engine;
pub use laws::refusals_change_nothing;
pub use serving::Done;
pub use told_values::Entry;
