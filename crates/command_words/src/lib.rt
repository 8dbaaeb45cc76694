//! Words of a request, by their kinds: what each says, or why it is refused.
#![tactic(auto)]

mod fault;
pub mod joins;
pub mod key_options;
pub mod kinds;
pub mod list_options;
pub mod options;
pub mod pages;
pub mod picks;
pub mod stream_appends;
pub mod stream_ids;
pub mod stream_options;
pub mod stream_reads;
pub mod times;
pub mod words;
pub mod zset_options;
pub mod zset_scores;

pub use fault::ReadingFault;
