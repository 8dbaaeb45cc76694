//! What collections have in common that are packed in one block or stand in a dictionary: their items for walks and scans, the
//! marks of their blocks for bounded moves, copies of a block, and bytes put in the place of others.
#![tactic(auto)]

mod copying;
mod items;
mod marks;
mod replacing;
mod scanning;

pub use blocks::{Memory, Moved};
pub use copying::copy_block;
pub use items::{end_table, next_item};
pub use marks::{Part, answer_at, answer_for, part_from, settle_first};
pub use replacing::replace_block;
pub use scanning::push_all;
