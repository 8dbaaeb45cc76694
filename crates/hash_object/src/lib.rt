//! Hashes over a store of blocks, in one of two forms: a listpack of fields and values in one block, or a dictionary whose fields and
//! values are blocks of their own.
#![tactic(auto)]

mod copying;
mod cursor;
mod entries;
mod fields;
mod hashed;
mod items;
mod laws;
mod packs;
mod relocating;
mod removing;
mod scanning;
mod setting;
mod taking;

pub use blocks::{Memory, Moved};
pub use cursor::Cursor;
pub use fields::Fields;
pub use laws::fields_laws;
