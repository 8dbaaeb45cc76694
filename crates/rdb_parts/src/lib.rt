//! Parts of a file of the RDB format, gathered and put into a shelf.
#![tactic(auto)]

mod parts;
mod pen;
mod scores;
mod writing;

pub use parts::{write_deadline, write_length, write_name, write_string};
pub use pen::Pen;
pub use scores::write_score;
