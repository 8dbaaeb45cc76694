//! Packed lists: the listpack format of Redis.
#![tactic(auto)]

mod back;
mod checking;
mod edits;
mod encoding;
mod entry;
mod fault;
mod few;
mod header;
mod sought;
mod spelling;
mod walks;

pub use back::back_lengths_at_limits;
pub use checking::{check, exactly_one, known};
pub use edits::{Memory, append, empty, insert, remove, remove_range, replace};
pub use encoding::Element;
pub use fault::PackFault;
pub use few::FewBytes;
pub use sought::Sought;
pub use spelling::{entry_parts, entry_size, fits, spelling_is_read_back};
pub use walks::Pack;
