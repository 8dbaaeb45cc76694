//! String values over a block store: a number without a block, or one block of bytes.
#![tactic(auto)]

mod laws;
mod print;
mod relocate;
mod text;

pub use laws::text_laws;
pub use text::Text;
