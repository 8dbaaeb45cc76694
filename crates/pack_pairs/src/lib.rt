//! Listpacks taken as pairs: a first element, its second, the next first element, and so on.
#![tactic(auto)]

mod edits;
mod once;
mod walks;

pub use edits::{empty, put_pair, with_last, with_pair, with_second, without};
pub use listpack::Memory;
pub use once::are_once;
pub use walks::{
    Both, Place, find, find_second, first, first_place, longest_len, next_place, second, seek,
    step, text,
};
