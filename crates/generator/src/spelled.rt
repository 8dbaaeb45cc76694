//! Replies that are spelled into memory.

ghost use Rattle.std.specs.Prelude.{◌≡◌, IfOk, Some, None, []};
ghost use Rattle.digests.specs.Crc.{crc_of};
ghost use Rattle.plain_world.specs.Spelling.{spelling};

use digests::crc;
use outside::{Sink, WriteFault};
use plain_world::{Memory, Reply};
use resp_frames::spell;
use std::alloc::{AllocError, Global};

/// A sink that keeps its bytes. A put fails where memory was refused.
#[derive(Drop)]
pub struct Spelled {
    pub bytes: Vec<u8>,
    faults: u64,
}

impl Spelled {
    /// A sink without a byte.
    pub fn new(alloc: Global) -> Spelled {
        Spelled {
            bytes: Vec::new(alloc),
            faults: 0,
        }
    }

    // Drops all bytes.
    fn clear(&mut self)
        ensures { self.new.bytes.items ≡ [] }
    {
        self.bytes.clear();
    }
}

impl Sink for Spelled {
    ghost seen = { λ s. record { told = Some s.bytes.items; faults = s.faults; room = None } };

    fn put(&mut self, piece: &[u8]) -> Result<usize, WriteFault> {
        match self.bytes.extend_from_slice(piece) {
            Ok(()) => Ok(piece.len()),
            Err(_) => {
                self.faults = self.faults.saturating_add(1);
                Err(WriteFault)
            }
        }
    }
}

/// The CRC of a reply's bytes behind those that gave the sum.
pub fn sum_reply(spelled: &mut Spelled, sum: u64, reply: &Reply) -> Result<u64, Memory>
    ensures { IfOk result (λ crc. crc ≡ crc_of sum (spelling reply.now)) }
{
    spelled.clear();
    match spell(reply, spelled) {
        Ok(()) => Ok(crc(sum, &spelled.bytes)),
        Err(_) => Err(AllocError),
    }
}
