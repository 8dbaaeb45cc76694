//! Nodes of streams: listpacks of entries, checked, read, and written.
#![tactic(auto)]

mod appending;
mod behind;
mod body;
mod ending;
mod entries;
mod entry;
mod entry_pairs;
mod fault;
mod head;
mod id;
mod laws;
mod marking;
mod node;
mod pairs;
mod put;
mod rest;
mod room;
mod start;

pub use appending::{append, with_entry};
pub use behind::{Behind, entry_behind};
pub use ending::last_id;
pub use entries::Entries;
pub use entry::Entry;
pub use entry_pairs::EntryPairs;
pub use fault::NodeFault;
pub use id::Id;
pub use laws::{at_most_one, entries_are_read, ids_are_ordered, rows};
pub use listpack::Memory;
pub use marking::{MarkOver, mark_deleted, mark_over};
pub use node::{Node, check, live_len, opened};
pub use pairs::Pairs;
pub use room::{has_room, room_is_enough};
