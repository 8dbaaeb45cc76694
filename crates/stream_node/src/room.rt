// Room for entries and marks.

ghost use Rattle.std.specs.Prelude.{◌↔◌, IsTrue};
ghost use Rattle.stream_node.specs.Room.{IsRoomy, RoomEnough};

use crate::pairs::Pairs;

/// Whether a listpack surely stays below 2^32 bytes when an entry with these pairs is put into it. It may be refused some 20
/// bytes a pair too early.
pub fn has_room(pack: &[u8], pairs: &Pairs) -> bool
    ensures { IsTrue result ↔ IsRoomy pack.now pairs.now }
{
    let limit = 1u128 << 32;
    let mut size = pack.len() as u128 + 640;
    for index in 0..pairs.len() {
        if size >= limit {
            return false;
        }
        let (field, value) = (pairs.field(index), pairs.value(index));
        size += field.len() as u128 + value.len() as u128 + 20;
    }
    size < limit
}

/// What has room by this test is no longer than 2^32 bytes when it is written. An entry takes at most ten bytes for each field and
/// value beside its own, and 640 more; a mark takes 192 bytes at most.
pub fn room_is_enough()
    ensures { RoomEnough }
{}
