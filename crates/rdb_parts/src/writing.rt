//! Bytes gathered before they are put into a shelf, with the sum of those that were put.

ghost use Rattle.std.specs.Prelude.{◌≡◌, ◌≤◌, ◌+◌, ◌++◌, ◌<◌, ◌^◌, [], ℕ, length, OnOk};
ghost use Rattle.std.specs.Int.{w64, to_le_bytes};
ghost use Rattle.rdb_parts.specs.Shelves.{Puts};
ghost use Rattle.rdb_parts.specs.Pens.{gathered, Writes, Closes};

use crate::pen::Pen;
use digests::crc;
use outside::{HostFault, Shelf};

// How many bytes are gathered at most.
const ROOM: usize = 65_536;

// Puts all of the piece.
fn put_all<F: Shelf>(shelf: &mut F, piece: &[u8]) -> Result<(), HostFault>
    ensures { Puts (F.seen shelf.old) (F.seen shelf.new) piece.now result }
{
    let mut at = 0;
    'pieces: while at < piece.len() {
        match shelf.put(&piece[at..]) {
            Ok(n) => at += n,
            Err(fault) => return Err(fault),
        }
    }
    Ok(())
}

// Puts a sum, its lowest byte first.
fn put_sum<F: Shelf>(shelf: &mut F, sum: u64) -> Result<(), HostFault>
    ensures puts { Puts (F.seen shelf.old) (F.seen shelf.new) (to_le_bytes w64 sum) result }
    ensures fits { sum < 2 ^ 64 }
{
    put_all(shelf, &sum.to_le_bytes())
}

impl Pen {
    /// Nothing is gathered, and nothing was put.
    pub fn new() -> Pen
        ensures gathered { gathered result ≡ [] }
        ensures sum { result.sum ≡ 0 }
    {
        Pen {
            room: [0; ROOM],
            used: 0,
            sum: 0,
        }
    }

    /// Puts what is gathered.
    pub(crate) fn flush<F: Shelf>(&mut self, shelf: &mut F) -> Result<(), HostFault>
        ensures writes { Writes (F.seen shelf.old) (F.seen shelf.new) self.old self.new [] result }
        ensures none { OnOk result (self.new.used ≡ 0) }
    {
        match put_all(shelf, &self.room[..self.used]) {
            Ok(()) => {
                self.sum = crc(self.sum, &self.room[..self.used]);
                self.used = 0;
                Ok(())
            }
            Err(fault) => Err(fault),
        }
    }

    // Gathers a piece for which there is room.
    fn gather(&mut self, piece: &[u8])
        requires { self.old.used + length piece.now ≤ 65536 }
        ensures gathered { gathered self.new ≡ gathered self.old ++ piece.now }
        ensures sum { self.new.sum ≡ self.old.sum }
    {
        let end = self.used + piece.len();
        self.room[self.used..end].copy_from_slice(piece);
        self.used = end;
    }

    // Writes a piece where nothing is gathered.
    fn write_first<F: Shelf>(&mut self, shelf: &mut F, piece: &[u8]) -> Result<(), HostFault>
        requires { self.old.used ≡ 0 }
        ensures { Writes (F.seen shelf.old) (F.seen shelf.new) self.old self.new piece.now result }
    {
        if piece.len() <= ROOM {
            self.gather(piece);
            return Ok(());
        }
        match put_all(shelf, piece) {
            Ok(()) => {
                self.sum = crc(self.sum, piece);
                Ok(())
            }
            Err(fault) => Err(fault),
        }
    }

    /// Writes a piece. It takes no memory.
    pub fn write<F: Shelf>(&mut self, shelf: &mut F, piece: &[u8]) -> Result<(), HostFault>
        ensures { Writes (F.seen shelf.old) (F.seen shelf.new) self.old self.new piece.now result }
    {
        if piece.len() <= ROOM - self.used {
            self.gather(piece);
            return Ok(());
        }
        match self.flush(shelf) {
            Ok(()) => self.write_first(shelf, piece),
            Err(fault) => Err(fault),
        }
    }

    /// Puts what is gathered, the end, and the sum of all that was put.
    pub fn close<F: Shelf>(&mut self, shelf: &mut F) -> Result<(), HostFault>
        ensures { Closes (F.seen shelf.old) (F.seen shelf.new) self.old result }
    {
        if let Err(fault) = self.write(shelf, &[255]) {
            return Err(fault);
        }
        match self.flush(shelf) {
            Ok(()) => put_sum(shelf, self.sum),
            Err(fault) => Err(fault),
        }
    }
}
