//! Why a request is not read.

use plain_model::Refusal;
use thiserror::Error;

/// Why a request is not read as a command.
#[derive(Clone, Copy, Debug, PartialEq, Eq, Error)]
pub enum ReadingFault {
    /// Its words are refused.
    #[error("the request is refused")]
    Refused(Refusal),
    /// Want of memory.
    #[error("out of memory")]
    Memory,
}
