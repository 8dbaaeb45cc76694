//! Whole numbers as text: decimal text and score text.
//!
//! Decimal text is the form in which numbers stand in requests, replies and packed forms. A score text is what the Redis
//! command ZADD takes as a score, restricted to whole values.
#![tactic(auto)]

mod decimal;
mod digits;
mod exponent;
mod laws;
mod score;
mod value;

pub use decimal::{Memory, print, read_i64, read_u64};
pub use laws::{printed_text_is_read_back, scores_are_one};
pub use score::{ScoreFault, read_score};
