// What an entry behind all others changes of a node's bytes, so that they can be written over where they stand.

ghost use Rattle.std.specs.Prelude.{◌≡◌, ◌∷◌, ◌++◌, ◌<◌, ◌≤◌, ◌^◌, [], None, IfOk, IfSome, length, drop};
ghost use Rattle.byteorder.specs.Endian.{little_bytes};
ghost use Rattle.listpack.specs.Edits.{IsEdited};
ghost use Rattle.listpack.specs.Pack.{IsPack, texts};
ghost use Rattle.stream_node.specs.Node.{IsAfter, last_id};
ghost use Rattle.stream_node.specs.Appended.{IsOpen, IsOver, held, appended, pack_len};

use crate::appending::{ROOM, plan};
use crate::id::Id;
use crate::pairs::Pairs;
use crate::put::put_entry;
use byteorder::{ByteOrder, LittleEndian};
use listpack::{Memory, empty, known};
use std::alloc::Global;

/// A count below this takes one byte, and so does the next one.
const MOST_SMALL: usize = 127;

/// A listpack of as many elements doesn't tell how many they are.
const NOT_TOLD: usize = 65535;

/// What is written over a node's bytes, so that it has an entry more: the first seven, its header and its count of live entries, and
/// those from the last byte on. These are those of a listpack of the entry's elements from the seventh on.
#[derive(Debug, Drop)]
pub struct Behind {
    pub head: [u8; 7],
    pub entry: Vec<u8>,
}

impl Behind {
    /// The bytes from the node's last one on.
    pub fn tail(&self) -> &[u8]
        requires { 6 ≤ length self.now.entry.items }
        ensures { result.now ≡ drop 6 self.now.entry.items }
    {
        &self.entry[6..]
    }
}

// The header of a listpack of so many bytes and elements, and a count that takes one byte.
fn head_of(total: u32, count: u16, live: u8) -> [u8; 7]
    ensures { result ≡ little_bytes 4 total ++ (little_bytes 2 count ++ live ∷ []) }
{
    let mut head = [0, 0, 0, 0, 0, 0, live];
    LittleEndian::write_u32(&mut head, total);
    LittleEndian::write_u16(&mut head[4..], count);
    head
}

// An empty listpack with room for most entries.
fn roomy_empty(alloc: Global) -> Result<Vec<u8>, Memory>
    ensures { IfOk result (λ pack. IsEdited pack.items [] 0) }
{
    let mut pack = empty(alloc)?;
    pack.reserve(ROOM)?;
    Ok(pack)
}

/// What is written over a node's bytes to put an entry behind all others. `None` comes where the count of live entries doesn't take
/// one byte before and then, where there is none, and where there are too many elements to be told.
///
/// An entry whose fields are the node's is written without them. No entry of the node is read.
pub fn entry_behind(
    alloc: Global,
    pack: &[u8],
    key: Id,
    id: Id,
    pairs: &Pairs,
) -> Result<Option<Behind>, Memory>
    requires packed { IsPack pack.now }
    requires node { IsOpen key (texts pack.now) }
    requires above { IsAfter (last_id None (held key (texts pack.now))) id }
    requires some { 0 < length pairs.now }
    requires room { pack_len (appended key pack.now id pairs.now) < 2 ^ 32 }
    ensures { IfOk result (λ behind. IfSome behind (λ b. IsOver key pack.now b.head b.entry.items id pairs.now)) }
{
    let Some((live, same)) = plan(pack, pairs) else {
        return Ok(None);
    };
    if live >= MOST_SMALL || usize::from(pack[6]) != live {
        return Ok(None);
    }
    let mut entry = roomy_empty(alloc)?;
    put_entry(&mut entry, key, id, same, pairs)?;
    let count = known(pack).len() + known(&entry).len();
    if count >= NOT_TOLD {
        return Ok(None);
    }
    let total = pack.len() + entry.len() - 7;
    let head = head_of(total as u32, count as u16, live as u8 + 1);
    Ok(Some(Behind { head, entry }))
}
