//! Bytes of one's own.

ghost use Rattle.std.specs.Prelude.{◌≡◌, ℕ, List, IfOk};

use smallvec::SmallVec;
use std::alloc::{AllocError, Global};
use std::marker::Model;

/// The greatest length of a word and of a string, in bytes: 512 MiB.
pub const LONGEST: usize = 536_870_912;

/// Bytes of one's own, which contracts see as a list. Up to 40 of them stand inline.
#[derive(Drop)]
pub struct Bytes {
    bytes: SmallVec<u8, 40>,
}

impl Model for Bytes {
    ghost Value = { List ℕ };

    ghost view = { λ b. b.bytes.items };
}

impl Bytes {
    /// A copy of these bytes.
    pub fn new(alloc: Global, bytes: &[u8]) -> Result<Bytes, AllocError>
        ensures { IfOk result (λ b. b ≡ bytes.now) }
    {
        Ok(Bytes {
            bytes: SmallVec::from_slice(alloc, bytes)?,
        })
    }

    /// The bytes.
    pub fn as_slice(&self) -> &[u8]
        ensures { result.now ≡ self.now }
    {
        self.bytes.as_slice()
    }
}
