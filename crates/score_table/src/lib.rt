//! Sorted sets as tables over a store of blocks: a dictionary from members to scores, and a list of the scores and members in their
//! order. Each member is one block, which both share.
#![tactic(auto)]

mod copying;
mod items;
mod laws;
mod relocating;
mod removing;
mod setting;
mod table;

pub use blocks::Memory;
pub use laws::score_table_laws;
pub use score_list::Cursor;
pub use table::ScoreTable;
