//! Elements of a collection picked by chance, under their item numbers (Redis command reference, "SPOP", "SRANDMEMBER",
//! "HRANDFIELD", "ZRANDMEMBER"). Which ones are picked is not said; how many are, that each is there, and that none is picked
//! twice where that is asked, is.
#![tactic(auto)]

mod drawing;
mod items;
mod picks;

pub use items::Items;
pub use picks::{pick, pick_apart};
pub use rev_cursor::Memory;
