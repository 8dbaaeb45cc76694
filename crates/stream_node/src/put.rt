// Writing the elements of entries, one behind the other.

ghost use Rattle.std.specs.Prelude.{◌≡◌, ◌∷◌, [], OnOk, true, false};
ghost use Rattle.std.specs.List.{flat_map};
ghost use Rattle.int_text.specs.Decimal.{canonical};
ghost use Rattle.listpack.specs.Pack.{IsPack};
ghost use Rattle.stream_node.specs.Entry.{number, flags, fields_of};
ghost use Rattle.stream_node.specs.Written.{Extends, HasRoom, difference, pair_texts, start_texts, body_texts, entry_texts, head_texts};

use crate::id::Id;
use crate::pairs::Pairs;
use itoa::Buffer;
use listpack::{Memory, append};

fn put_text(pack: &mut Vec<u8>, text: &[u8]) -> Result<(), Memory>
    requires packed { IsPack pack.old.items }
    requires room { HasRoom pack.old.items (text.now ∷ []) }
    ensures { OnOk result (Extends pack.old.items pack.new.items (text.now ∷ [])) }
{
    append(pack, text)
}

fn put_number(pack: &mut Vec<u8>, number: i64) -> Result<(), Memory>
    requires packed { IsPack pack.old.items }
    requires room { HasRoom pack.old.items (canonical number ∷ []) }
    ensures { OnOk result (Extends pack.old.items pack.new.items (canonical number ∷ [])) }
{
    let mut buffer = Buffer::new();
    put_text(pack, buffer.format(number).as_bytes())
}

fn put_count(pack: &mut Vec<u8>, count: usize) -> Result<(), Memory>
    requires packed { IsPack pack.old.items }
    requires room { HasRoom pack.old.items (number count ∷ []) }
    ensures { OnOk result (Extends pack.old.items pack.new.items (number count ∷ [])) }
{
    let mut buffer = Buffer::new();
    put_text(pack, buffer.format(count).as_bytes())
}

fn put_fields(pack: &mut Vec<u8>, pairs: &Pairs) -> Result<(), Memory>
    requires packed { IsPack pack.old.items }
    requires room { HasRoom pack.old.items (fields_of pairs.now) }
    ensures { OnOk result (Extends pack.old.items pack.new.items (fields_of pairs.now)) }
{
    for index in 0..pairs.len() {
        put_text(pack, pairs.field(index))?;
    }
    Ok(())
}

// A value, and before it its field where that isn't the node's.
fn put_pair(pack: &mut Vec<u8>, same: bool, field: &[u8], value: &[u8]) -> Result<(), Memory>
    requires packed { IsPack pack.old.items }
    requires room { HasRoom pack.old.items (pair_texts same (field.now, value.now)) }
    ensures { OnOk result (Extends pack.old.items pack.new.items (pair_texts same (field.now, value.now))) }
{
    if same {
        put_text(pack, value)
    } else {
        put_text(pack, field)?;
        put_text(pack, value)
    }
}

fn put_pairs(pack: &mut Vec<u8>, same: bool, pairs: &Pairs) -> Result<(), Memory>
    requires packed { IsPack pack.old.items }
    requires room { HasRoom pack.old.items (flat_map (pair_texts same) pairs.now) }
    ensures { OnOk result (Extends pack.old.items pack.new.items (flat_map (pair_texts same) pairs.now)) }
{
    for index in 0..pairs.len() {
        put_pair(pack, same, pairs.field(index), pairs.value(index))?;
    }
    Ok(())
}

// The flags of an entry that isn't marked deleted.
fn live_flags(same: bool) -> usize
    ensures { result ≡ flags false same }
{
    if same { 2 } else { 0 }
}

// The difference of a part of an id from the node's key.
fn difference_of(part: u64, base: u64) -> i64
    ensures { result ≡ difference part base }
{
    part.wrapping_sub(base).cast_signed()
}

fn put_start(pack: &mut Vec<u8>, key: Id, id: Id, same: bool) -> Result<(), Memory>
    requires packed { IsPack pack.old.items }
    requires room { HasRoom pack.old.items (start_texts key id same) }
    ensures { OnOk result (Extends pack.old.items pack.new.items (start_texts key id same)) }
{
    put_count(pack, live_flags(same))?;
    put_number(pack, difference_of(id.ms, key.ms))?;
    put_number(pack, difference_of(id.seq, key.seq))
}

// The values, of an entry with the node's fields.
fn put_values(pack: &mut Vec<u8>, pairs: &Pairs) -> Result<(), Memory>
    requires packed { IsPack pack.old.items }
    requires room { HasRoom pack.old.items (body_texts true pairs.now) }
    ensures { OnOk result (Extends pack.old.items pack.new.items (body_texts true pairs.now)) }
{
    put_pairs(pack, true, pairs)?;
    put_count(pack, pairs.len() + 3)
}

// The number of pairs, and these.
fn put_own(pack: &mut Vec<u8>, pairs: &Pairs) -> Result<(), Memory>
    requires packed { IsPack pack.old.items }
    requires room { HasRoom pack.old.items (body_texts false pairs.now) }
    ensures { OnOk result (Extends pack.old.items pack.new.items (body_texts false pairs.now)) }
{
    put_count(pack, pairs.len())?;
    put_pairs(pack, false, pairs)?;
    put_count(pack, 2 * pairs.len() + 4)
}

/// Puts an entry behind all elements. After `Memory` a part of it may stand there.
pub(crate) fn put_entry(
    pack: &mut Vec<u8>,
    key: Id,
    id: Id,
    same: bool,
    pairs: &Pairs,
) -> Result<(), Memory>
    requires packed { IsPack pack.old.items }
    requires room { HasRoom pack.old.items (entry_texts key id same pairs.now) }
    ensures { OnOk result (Extends pack.old.items pack.new.items (entry_texts key id same pairs.now)) }
{
    put_start(pack, key, id, same)?;
    if same {
        put_values(pack, pairs)
    } else {
        put_own(pack, pairs)
    }
}

/// Puts the head of a node of one live entry behind all elements. After `Memory` a part of it may stand there.
pub(crate) fn put_head(pack: &mut Vec<u8>, pairs: &Pairs) -> Result<(), Memory>
    requires packed { IsPack pack.old.items }
    requires room { HasRoom pack.old.items (head_texts pairs.now) }
    ensures { OnOk result (Extends pack.old.items pack.new.items (head_texts pairs.now)) }
{
    put_count(pack, 1)?;
    put_count(pack, 0)?;
    put_count(pack, pairs.len())?;
    put_fields(pack, pairs)?;
    put_count(pack, 0)
}
