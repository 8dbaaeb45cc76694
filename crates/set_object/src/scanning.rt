// Moves of a scan over the members.

use crate::Members;
use crate::members::Body;
use blocks::Memory;
use collection_walk::push_all;
use rev_cursor::BucketScan;

impl BucketScan for Members {
    ghost use Rattle.set_object.specs.Scan.{moved, CanStand};

    ghost can_stand = { λ m. CanStand m.body };

    ghost move_at = { λ m cursor. (moved m.body cursor).0 };

    ghost after = { λ m cursor. (moved m.body cursor).1 };

    fn scan_at(&self, cursor: u64, found: &mut Vec<usize>) -> Result<u64, Memory> {
        match &self.body {
            Body::Empty => Ok(0),
            Body::Numbers(packed) => push_all(found, packed.len),
            Body::Pack(packed) => push_all(found, packed.len),
            Body::Table(table) => table.scan_at(cursor, found),
        }
    }
}
