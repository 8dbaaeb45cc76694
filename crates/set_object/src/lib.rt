//! Sets of byte strings over a store of blocks, in one of three forms: an intset or a listpack in one block, or a dictionary whose
//! members are blocks of their own.
#![tactic(auto)]

mod adding;
mod copying;
mod cursor;
mod hashed;
mod items;
mod laws;
mod members;
mod packs;
mod relocating;
mod removing;
mod scanning;

pub use blocks::{Memory, Moved};
pub use cursor::Cursor;
pub use laws::members_laws;
pub use members::Members;
