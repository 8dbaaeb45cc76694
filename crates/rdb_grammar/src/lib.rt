//! The parts of a file in the RDB format, versions 9 to 11, and what a whole file means.
#![tactic(auto)]

mod codes;
mod elements;
mod fault;
mod file;
mod items;
mod lengths;
mod next;
mod opcodes;
mod placing;
mod scores;
mod stream_nodes;
mod streams;
mod strings;
mod texts;
mod values;

pub use elements::{next_container, next_score, next_string};
pub use fault::{FileFault, ItemFault, LoadKind};
pub use file::{check_header, each_file_has_one_world_or_one_fault};
pub use items::Meaning;
pub use next::{Item, next_item};
pub use stream_nodes::{check_node, node_key};
pub use streams::{
    Handed, Marks, next_group, next_handed, next_id, next_key_id, next_length, next_marks,
    next_node, next_times,
};
pub use strings::Chunk;
pub use texts::text;
pub use values::{Collection, Container, FileValue, Layout, Packed, StreamType};

/// Memory was refused.
pub type Memory = std::alloc::AllocError;
