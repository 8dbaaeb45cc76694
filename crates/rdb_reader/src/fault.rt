//! Why a file is not loaded.

use rdb_grammar::LoadKind;
use thiserror::Error;

/// Why a file is not loaded.
#[derive(Clone, Copy, Debug, PartialEq, Eq, Error)]
pub enum LoadFault {
    /// The format excludes the file: the kind of its first fault, and the byte of it from the file's start.
    #[error("{kind} at byte {at}")]
    Refused { kind: LoadKind, at: u64 },
    /// The host has no file of this name, or gave a fault while it was read.
    #[error("the file could not be read")]
    Host,
    /// The file has more bytes than the limit.
    #[error("the file is longer than the limit")]
    Limit,
    /// Want of memory.
    #[error("out of memory")]
    Memory,
}
