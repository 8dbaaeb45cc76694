// Moves of a scan over the members.

use crate::Scored;
use crate::scored::Body;
use blocks::Memory;
use collection_walk::push_all;
use rev_cursor::BucketScan;

impl BucketScan for Scored {
    ghost use Rattle.zset_object.specs.Scan.{moved, CanStand};

    ghost can_stand = { λ s. CanStand s.body };

    ghost move_at = { λ s cursor. (moved s.body cursor).0 };

    ghost after = { λ s cursor. (moved s.body cursor).1 };

    fn scan_at(&self, cursor: u64, found: &mut Vec<usize>) -> Result<u64, Memory> {
        match &self.body {
            Body::Empty => Ok(0),
            Body::Pack(packed) => push_all(found, packed.len),
            Body::Table(table) => table.table().scan_at(cursor, found),
        }
    }
}
