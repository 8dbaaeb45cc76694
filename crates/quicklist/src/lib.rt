//! Lists of elements over the blocks of a store: the quicklist of Redis.
#![tactic(auto)]

mod clearing;
mod copies;
mod cursor;
mod edits;
mod equals;
mod exchange;
mod laws;
mod locate;
mod node;
mod packs;
mod piece;
mod quick;
mod ranges;
mod reach;
mod rebuilt;
mod taking;
mod within;

pub use blocks::Memory;
pub use cursor::Cursor;
pub use laws::quick_laws;
pub use node::{Container, Node};
pub use quick::Quick;
pub use reach::{End, is_text};
