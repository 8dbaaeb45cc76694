// Moves of a scan over the fields.

use crate::Fields;
use crate::fields::Body;
use blocks::Memory;
use collection_walk::push_all;
use rev_cursor::BucketScan;

impl BucketScan for Fields {
    ghost use Rattle.hash_object.specs.Scan.{moved, CanStand};

    ghost can_stand = { λ f. CanStand f.body };

    ghost move_at = { λ f cursor. (moved f.body cursor).0 };

    ghost after = { λ f cursor. (moved f.body cursor).1 };

    fn scan_at(&self, cursor: u64, found: &mut Vec<usize>) -> Result<u64, Memory> {
        match &self.body {
            Body::Empty => Ok(0),
            Body::Pack(packed) => push_all(found, packed.len),
            Body::Table(table) => table.scan_at(cursor, found),
        }
    }
}
