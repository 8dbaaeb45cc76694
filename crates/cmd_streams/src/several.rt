//! The command that reads several streams.

ghost use Rattle.std.specs.Prelude.{◌≡◌, ◌++◌, Bool, map, take, IfOk, OnOk};
ghost use Rattle.std.specs.List.{filter, flat_map};
ghost use Rattle.std.specs.Option.{option_map};
ghost use Rattle.blocks.specs.Blocks.{Blocks};
ghost use Rattle.stream_object.specs.Streams.{IsStream, entries, pair_of, stream_of};
ghost use Rattle.stream_object.specs.Ranges.{taken};
ghost use Rattle.plain_world.specs.Streams.{StreamEntry};
ghost use Rattle.plain_world.specs.Worlds.{look};
ghost use Rattle.plain_model.specs.StreamSteps.{all_listed, from_id, is_later, some_listed, up_to};
ghost use Rattle.plain_model.specs.declared.stream_command.StreamCommand.TheVariants as streams;
ghost use Rattle.keyspace.specs.Commands.{Ready, visible};
ghost use Rattle.cmd_streams.specs.Found.{Gives};
ghost use Rattle.cmd_streams.specs.Several.{read_parts, Gathers, IsReadAt};

use crate::look::stream_at;
use crate::reading::id_of;
use crate::telling::push_entries;
use blocks::BlockStore;
use keyspace::{Keyspace, Look};
use plain_model::{Bytes, Ctx, EntryId, Memory, Part, Parts, Refusal, Reply, Word};
use std::alloc::Global;
use stream_object::{Id, Owned, Stream};

/// What is told of one key: its entries, of which there is at least one.
#[derive(Drop)]
pub struct KeyRead<'a> {
    pub key: &'a [u8],
    pub entries: Vec<Owned>,
}

/// As many entries as are asked for, or as there are.
pub fn most_of(stream: &Stream, limit: Option<u64>) -> u64
    ensures { (m : Blocks) → IsStream m stream.now → (test : StreamEntry → Bool) → take result (filter test (entries m stream.now)) ≡ up_to limit (filter test (entries m stream.now)) }
{
    match limit {
        None => stream.len(),
        Some(most) => most,
    }
}

// The entries of a stream above an id, so many at most.
fn above<B: BlockStore>(
    alloc: Global,
    store: &B,
    stream: &Stream,
    last: Id,
    most: u64,
) -> Result<Vec<Owned>, Memory>
    requires sound { IsStream (B.blocks store.now) stream.now }
    ensures { IfOk result (λ found. map taken found.items ≡ take most (filter (is_later (pair_of last)) (entries (B.blocks store.now) stream.now))) }
{
    let greatest = Id {
        ms: u64::MAX,
        seq: u64::MAX,
    };
    match last.next() {
        Some(from) => stream.range(store, from, greatest, false, most),
        None => Ok(Vec::new(alloc)),
    }
}

// The id from which a stream is read: this one, or its last one.
pub fn start_of(stream: &Stream, from: Option<EntryId>) -> Id
    ensures { (m : Blocks) → pair_of result ≡ from_id (stream_of m stream.now) from }
{
    match from {
        None => stream.last_id(),
        Some(id) => id_of(id),
    }
}

// The entries that are told of a key. `None` comes exactly where a value of another type stands there.
fn read_at<B: BlockStore>(
    keyspace: &Keyspace<B>,
    at: &Ctx,
    key: &[u8],
    from: Option<EntryId>,
    limit: Option<u64>,
) -> Result<Option<Vec<Owned>>, Memory>
    requires ready { Ready B.blocks keyspace.now at.now }
    ensures { IfOk result (λ found. IsReadAt (look (visible B.blocks keyspace.now at.now) key.now) limit from (option_map (λ own. map taken own.items) found)) }
{
    let alloc = keyspace.alloc();
    match stream_at(keyspace, at, key) {
        Look::Missing => Ok(Some(Vec::new(alloc))),
        Look::Other => Ok(None),
        Look::There(stream) => {
            let last = start_of(stream, from);
            let most = most_of(stream, limit);
            Ok(Some(above(alloc, &keyspace.store, stream, last, most)?))
        }
    }
}

// Puts what is told of a key behind the others, where it has entries.
fn put_read<'a>(
    found: &mut Vec<KeyRead<'a>>,
    key: &'a [u8],
    entries: Vec<Owned>,
) -> Result<(), Memory>
    ensures { OnOk result (map read_parts found.new.items ≡ map read_parts found.old.items ++ some_listed key.now (map taken entries.items)) }
{
    if entries.is_empty() {
        return Ok(());
    }
    found.push(KeyRead { key, entries })?;
    Ok(())
}

// Puts what is told of each key that has entries behind the others. `false` comes exactly where a value of another type stands at one.
fn gather<'a, B: BlockStore>(
    keyspace: &Keyspace<B>,
    at: &Ctx,
    limit: Option<u64>,
    asked: &[(Word<'a>, Option<EntryId>)],
    found: &mut Vec<KeyRead<'a>>,
) -> Result<bool, Memory>
    requires ready { Ready B.blocks keyspace.now at.now }
    ensures { IfOk result (λ all. Gathers (visible B.blocks keyspace.now at.now) limit asked.now all (map read_parts found.old.items) (map read_parts found.new.items)) }
{
    for one in asked {
        let key = one.0.as_slice();
        match read_at(keyspace, at, key, one.1, limit)? {
            None => return Ok(false),
            Some(entries) => put_read(found, key, entries)?,
        }
    }
    Ok(true)
}

// Adds what is told of one key.
fn push_key(alloc: Global, one: &KeyRead<'_>, parts: &mut Parts) -> Result<(), Memory>
    ensures { OnOk result (parts.new ≡ parts.old ++ read_parts one.now) }
{
    parts.push(Part::Array(2))?;
    parts.push(Part::Bulk(Bytes::new(alloc, one.key)?))?;
    push_entries(alloc, &one.entries, parts)
}

// Adds what is told of each key.
fn push_keys(alloc: Global, found: &[KeyRead<'_>], parts: &mut Parts) -> Result<(), Memory>
    ensures { OnOk result (parts.new ≡ parts.old ++ flat_map read_parts found.now) }
{
    for one in found {
        push_key(alloc, one, parts)?;
    }
    Ok(())
}

/// An array of what is told of keys; the null array where there is none.
pub fn keys_reply(alloc: Global, found: &[KeyRead<'_>]) -> Result<Reply, Memory>
    ensures { IfOk result (λ reply. reply ≡ all_listed (map read_parts found.now)) }
{
    let mut parts = Parts::new(alloc);
    if found.is_empty() {
        parts.push(Part::NullArray)?;
        return Ok(parts.into_reply());
    }
    parts.push(Part::Array(found.len() as u64))?;
    push_keys(alloc, found, &mut parts)?;
    Ok(parts.into_reply())
}

/// `XREAD [COUNT n] STREAMS key.. id..`: an array of each key that has entries above its id, with so many of them at most; the null array
/// where none has.
pub fn xread<B: BlockStore>(
    keyspace: &Keyspace<B>,
    at: &Ctx,
    limit: Option<u64>,
    asked: &[(Word<'_>, Option<EntryId>)],
) -> Result<Reply, Memory>
    requires ready { Ready B.blocks keyspace.now at.now }
    ensures gives { Gives B.blocks keyspace.now keyspace.now at.now (streams.XRead limit asked.now) result }
{
    let alloc = keyspace.alloc();
    let mut found = Vec::new(alloc);
    if !gather(keyspace, at, limit, asked, &mut found)? {
        return Reply::refused(alloc, Refusal::WrongType);
    }
    keys_reply(alloc, &found)
}
