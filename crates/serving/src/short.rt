//! Short strings are let be pending at once.

ghost use Rattle.std.specs.Prelude.{◌≡◌, ◌≤◌, ◌<◌, ◌++◌, length};
ghost use Rattle.plain_world.specs.Spelling.{line_end, part_bytes};
ghost use Rattle.serving.specs.Output.{pending_bytes, Gathers};

use crate::pending::Pending;
use plain_world::Part;

// Lets a header, a word and CR LF be pending, if they fit.
#[inline(always)]
fn append_headed(pending: &mut Pending, head: &[u8], word: &[u8]) -> bool
    requires few { length head.now ≤ 5 }
    requires small { length word.now < 100 }
    ensures { Gathers (pending_bytes pending.old) (pending_bytes pending.new) (head.now ++ word.now ++ line_end) result }
{
    if head.len() + word.len() + 2 > pending.room.len() - pending.len {
        return false;
    }
    pending.append(head);
    pending.append(word);
    pending.append(b"\r\n");
    true
}

// Lets a bulk string of fewer than 100 bytes be pending, if it fits.
fn append_bulk(pending: &mut Pending, word: &[u8]) -> bool
    ensures { Gathers (pending_bytes pending.old) (pending_bytes pending.new) (part_bytes (Part.Bulk word.now)) result }
{
    let len = word.len();
    if len < 10 {
        let ones = b'0' + len as u8;
        return append_headed(pending, &[b'$', ones, b'\r', b'\n'], word);
    }
    if len < 100 {
        let tens = b'0' + (len / 10) as u8;
        let ones = b'0' + (len % 10) as u8;
        return append_headed(pending, &[b'$', tens, ones, b'\r', b'\n'], word);
    }
    false
}

/// Lets a bulk string of fewer than 100 bytes be pending behind the others, and says whether the part is one and fitted; else
/// nothing changes.
pub fn gather_short(part: &Part, pending: &mut Pending) -> bool
    ensures { Gathers (pending_bytes pending.old) (pending_bytes pending.new) (part_bytes part.now) result }
{
    match part {
        Part::Bulk(bytes) => append_bulk(pending, bytes.as_slice()),
        _ => false,
    }
}
