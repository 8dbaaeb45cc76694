//! Sorted sets over a store of blocks, in one of two forms: a listpack of members and scores in one block, or a dictionary and an ordered
//! list that share the blocks of the members.
#![tactic(auto)]

mod copying;
mod cursor;
mod filling;
mod items;
mod laws;
mod packs;
mod reading;
mod relocating;
mod removing;
mod scanning;
mod scored;
mod setting;

pub use blocks::{Memory, Moved};
pub use cursor::Cursor;
pub use laws::scored_laws;
pub use scored::Scored;
