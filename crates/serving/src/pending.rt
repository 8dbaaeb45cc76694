//! Replies that are gathered before they are put.

ghost use Rattle.std.specs.Prelude.{◌≡◌, ◌≤◌, ◌+◌, ◌-◌, ◌++◌, [], length, vec_len, take, Some, OnOk, IfOk};
ghost use Rattle.resp_frames.specs.Puts.{Puts};

use outside::{Sink, WriteFault};
use plain_world::Memory;
use resp_frames::put_all;
use std::alloc::Global;

/// So many bytes are gathered at most.
pub const CAPACITY: usize = 65_536;

/// A sink in memory that takes a piece whole, or none of it where it has no room for that.
#[derive(Drop)]
pub struct Pending {
    pub room: Vec<u8>,
    pub len: usize,
    faults: u64,
    ghost within: { len ≤ vec_len room },
}

impl Pending {
    /// Nothing is pending.
    pub fn new(alloc: Global) -> Result<Pending, Memory>
        ensures { IfOk result (λ pending. pending.len ≡ 0) }
    {
        Ok(Pending {
            room: vec![in alloc; 0u8; CAPACITY]?,
            len: 0,
            faults: 0,
        })
    }

    /// Keeps the first n bytes.
    pub fn keep(&mut self, n: usize)
        requires { n ≤ self.old.len }
        ensures room { self.new.room ≡ self.old.room }
        ensures len { self.new.len ≡ n }
    {
        self.len = n;
    }

    /// Lets a piece that has room be pending behind the others.
    #[inline(always)]
    pub fn append(&mut self, piece: &[u8])
        requires { self.old.len + length piece.now ≤ vec_len self.old.room }
        ensures bytes { take self.new.len self.new.room.items ≡ take self.old.len self.old.room.items ++ piece.now }
        ensures len { self.new.len ≡ self.old.len + length piece.now }
        ensures room { vec_len self.new.room ≡ vec_len self.old.room }
        ensures faults { self.new.faults ≡ self.old.faults }
    {
        let end = self.len + piece.len();
        self.room[self.len..end].copy_from_slice(piece);
        self.len = end;
    }
}

impl Sink for Pending {
    ghost seen = { λ p. record { told = Some (take p.len p.room.items); faults = p.faults; room = Some (vec_len p.room - p.len) } };

    fn put(&mut self, piece: &[u8]) -> Result<usize, WriteFault> {
        if piece.len() > self.room.len() - self.len {
            self.faults = self.faults.saturating_add(1);
            return Err(WriteFault);
        }
        self.append(piece);
        Ok(piece.len())
    }
}

/// Puts all that is pending.
pub fn flush<O: Sink>(pending: &mut Pending, output: &mut O) -> Result<(), WriteFault>
    ensures puts { Puts (O.seen output.old) (O.seen output.new) (take pending.old.len pending.old.room.items) result }
    ensures none { OnOk result (pending.new.len ≡ 0) }
{
    match put_all(output, &pending.room[..pending.len]) {
        Ok(()) => {
            pending.len = 0;
            Ok(())
        }
        Err(fault) => Err(fault),
    }
}
