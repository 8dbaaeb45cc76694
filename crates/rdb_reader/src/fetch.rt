//! The bytes of a file.

ghost use Rattle.std.specs.Prelude.{◌≡◌, ◌≤◌, ◌<◌, ◌+◌, ℕ, List, length, vec_len, true};
ghost use Rattle.outside.specs.Files.{IsListed};
ghost use Rattle.rdb_reader.specs.Taken.{TakesUpTo, TakesFile, most_of};
ghost use Rattle.rdb_reader.specs.Fetching.{Takes, Counts, Fetches, FetchesFile, has_failed};

use crate::fault::LoadFault;
use outside::Host;
use std::alloc::Global;

/// At most so many bytes are taken at once.
const TAKEN_AT_ONCE: usize = 65_536;

/// What became of a take.
#[derive(Clone, Copy)]
pub enum Taken {
    /// Bytes were taken and kept.
    Piece,
    /// The file is at its end.
    End,
    Fault,
    /// Want of memory.
    Memory,
}

// Takes the next piece of the file that is begun, and keeps it behind the others.
fn take_piece<H: Host>(host: &mut H, room: &mut [u8], bytes: &mut Vec<u8>) -> Taken
    requires { 0 < length room.old }
    ensures takes { Takes (H.seen host.old).reading (H.seen host.new).reading (length room.old) bytes.old.items bytes.new.items result }
    ensures same { (H.seen host.new).files ≡ (H.seen host.old).files }
    ensures begun { (H.seen host.new).begun ≡ (H.seen host.old).begun }
{
    match host.take(room) {
        Err(_) => Taken::Fault,
        Ok(0) => Taken::End,
        Ok(count) => match bytes.extend_from_slice(&room[..count]) {
            Ok(()) => Taken::Piece,
            Err(_) => Taken::Memory,
        },
    }
}

// Takes the file that is begun to its end, or past the limit.
fn take_all<H: Host>(
    host: &mut H,
    room: &mut [u8],
    bytes: &mut Vec<u8>,
    limit: usize,
) -> Result<(), LoadFault>
    requires room { length room.old ≡ 65536 }
    requires none { vec_len bytes.old ≡ 0 }
    ensures fetches { Fetches (H.seen host.old).reading.told limit bytes.new.items result }
    ensures few { TakesUpTo (H.seen host.old).reading.told (H.seen host.new).reading.told (most_of limit (has_failed result)) }
    ensures same { (H.seen host.new).files ≡ (H.seen host.old).files }
    ensures begun { (H.seen host.new).begun ≡ (H.seen host.old).begun }
    ensures counts { Counts (H.seen host.old).reading.faults (H.seen host.new).reading.faults ((H.seen host.old).reading.sure ≡ true) result }
{
    'pieces: loop {
        // one more than is left, so that a file past the limit is seen
        let most = (limit - bytes.len()).min(TAKEN_AT_ONCE - 1) + 1;
        match take_piece(host, &mut room[..most], bytes) {
            Taken::Piece => {}
            Taken::End => return Ok(()),
            Taken::Fault => return Err(LoadFault::Host),
            Taken::Memory => return Err(LoadFault::Memory),
        }
        if bytes.len() > limit {
            return Err(LoadFault::Limit);
        }
    }
}

/// The bytes of the host's file of this name, at most as many as the limit. One byte more is taken at most, and a fault of
/// the host comes before that one.
#[tactic(none)]
pub fn fetch<H: Host>(
    alloc: Global,
    host: &mut H,
    name: &str,
    limit: u64,
) -> Result<Vec<u8>, LoadFault>
    ensures fetches { FetchesFile (H.seen host.old).files name.now limit result }
    ensures few { TakesFile (H.seen host.old).files name.now limit (H.seen host.new) (has_failed result) }
    ensures counts { Counts (H.seen host.old).reading.faults (H.seen host.new).reading.faults (((H.seen host.old).reading.sure ≡ true) × IsListed (H.seen host.old).files name.now) result }
{
    match host.begin(name) {
        Ok(()) => {}
        Err(_) => return Err(LoadFault::Host),
    }
    let mut room = match vec![in alloc; 0u8; TAKEN_AT_ONCE] {
        Ok(room) => room,
        Err(_) => return Err(LoadFault::Memory),
    };
    let mut bytes = Vec::new(alloc);
    match take_all(host, &mut room, &mut bytes, limit as usize) {
        Ok(()) => Ok(bytes),
        Err(fault) => Err(fault),
    }
}
