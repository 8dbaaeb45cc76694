//! Entries as they are told in replies.

ghost use Rattle.std.specs.Prelude.{◌≡◌, ◌*◌, ◌∷◌, ◌++◌, map, IfOk, OnOk, length};
ghost use Rattle.std.specs.List.{flat_map};
ghost use Rattle.stream_object.specs.Streams.{pair_of};
ghost use Rattle.stream_object.specs.Ranges.{taken};
ghost use Rattle.plain_world.specs.declared.reply.Part.TheVariants as replies;
ghost use Rattle.plain_model.specs.IdTexts as model;
ghost use Rattle.plain_model.specs.StreamSteps.{pair_parts, entry_parts, listed};
ghost use Rattle.cmd_streams.specs.Telling.{both};

use itoa::Buffer;
use plain_model::{Bytes, Memory, Part, Parts};
use smallvec::SmallVec;
use std::alloc::{AllocError, Global};
use stream_object::{Id, Owned, Pairs};

/// The text of an id: its two numbers, and `-` between them.
pub fn id_text(alloc: Global, id: Id) -> Result<Bytes, Memory>
    ensures { IfOk result (λ bytes. bytes ≡ model.id_text (pair_of id)) }
{
    // two numbers of at most 20 digits
    let mut text: SmallVec<u8, 41> = SmallVec::new(alloc);
    text.extend_from_slice(Buffer::new().format(id.ms).as_bytes())?;
    text.push(b'-')?;
    text.extend_from_slice(Buffer::new().format(id.seq).as_bytes())?;
    Bytes::new(alloc, text.as_slice())
}

// How many fields and values there are. 2^64 or more are want of memory.
fn told_size(pairs: &Pairs) -> Result<u64, Memory>
    ensures { IfOk result (λ size. size ≡ 2 * length pairs.now) }
{
    match (pairs.len() as u64).checked_mul(2) {
        Some(size) => Ok(size),
        None => Err(AllocError),
    }
}

// Adds fields and values, alternating.
fn push_each(alloc: Global, pairs: &Pairs, parts: &mut Parts) -> Result<(), Memory>
    ensures { OnOk result (parts.new ≡ parts.old ++ flat_map both pairs.now) }
{
    for index in 0..pairs.len() {
        parts.push(Part::Bulk(Bytes::new(alloc, pairs.field(index))?))?;
        parts.push(Part::Bulk(Bytes::new(alloc, pairs.value(index))?))?;
    }
    Ok(())
}

/// Adds an entry: an array of its id, and of an array of its fields and values.
pub fn push_entry(alloc: Global, entry: &Owned, parts: &mut Parts) -> Result<(), Memory>
    ensures { OnOk result (parts.new ≡ parts.old ++ entry_parts (taken entry.now)) }
{
    parts.push(Part::Array(2))?;
    parts.push(Part::Bulk(id_text(alloc, entry.id)?))?;
    parts.push(Part::Array(told_size(&entry.pairs)?))?;
    push_each(alloc, &entry.pairs, parts)
}

// Adds entries, one after the other.
fn push_all(alloc: Global, entries: &[Owned], parts: &mut Parts) -> Result<(), Memory>
    ensures { OnOk result (parts.new ≡ parts.old ++ flat_map entry_parts (map taken entries.now)) }
{
    for entry in entries {
        push_entry(alloc, entry, parts)?;
    }
    Ok(())
}

/// Adds an array of entries.
pub fn push_entries(alloc: Global, entries: &[Owned], parts: &mut Parts) -> Result<(), Memory>
    ensures { OnOk result (parts.new ≡ parts.old ++ listed (map taken entries.now)) }
{
    parts.push(Part::Array(entries.len() as u64))?;
    push_all(alloc, entries, parts)
}
