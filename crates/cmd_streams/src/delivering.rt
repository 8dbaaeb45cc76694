//! The command that hands out entries of streams to the consumers of groups.

ghost use Rattle.std.specs.Prelude.{◌≡◌, ◌++◌, ◌≤◌, ℕ, List, None, Some, length, map, take, IfOk, OnErr, OnOk};
ghost use Rattle.std.specs.FinMap.{get, len};
ghost use Rattle.std.specs.List.{flat_map};
ghost use Rattle.stream_groups.specs.Groups.{Id, Group, changed};
ghost use Rattle.stream_object.specs.Handing.{told};
ghost use Rattle.stream_object.specs.Streams.{IsStream, stream_of};
ghost use Rattle.plain_world.specs.Worlds.{look};
ghost use Rattle.plain_model.specs.StreamSteps.{all_listed, stream_there, up_to};
ghost use Rattle.plain_model.specs.GroupSteps.{first_refusal, hand_at, hand_out, left_of, refusal_at, told_in, waits_listed};
ghost use Rattle.plain_model.specs.declared.stream_command.StreamCommand.TheVariants as streams;
ghost use Rattle.keyspace.specs.Scopes.{asked_keys, one_key, some_keys};
ghost use Rattle.keyspace.specs.Forms.{Log, Formed, stream_form};
ghost use Rattle.keyspace.specs.Commands.{KeepsTo, KeepsOrRefuses, Ready, visible};
ghost use Rattle.cmd_streams.specs.Found.{Gives};
ghost use Rattle.cmd_streams.specs.Handed.{again_parts, key_parts, reader, told_of_key, Hands, HandsOut, IsTold};

use crate::changing::{change_stream, stream_sought};
use crate::edits::StreamEdit;
use crate::grouping::has_group;
use crate::look::stream_at;
use crate::reading::id_of;
use crate::several::most_of;
use crate::telling::{id_text, push_entries, push_entry};
use blocks::BlockStore;
use keyspace::{Keyspace, Look, seek};
use plain_model::{Bytes, Ctx, EntryId, Memory, Part, Parts, Refusal, Reply, Word};
use std::alloc::Global;
use stream_object::{Again as AgainEntry, Owned, Stream};

/// Who reads: a consumer of a group, and how many entries at most.
#[derive(Drop)]
pub struct Asker<'a> {
    pub group: &'a [u8],
    pub consumer: &'a [u8],
    pub limit: Option<u64>,
}

/// What a group hands out: entries that it hasn't handed out before, or once more what is pending for the consumer.
#[derive(Drop)]
pub enum Handed {
    Fresh(Vec<Owned>),
    Again(Vec<AgainEntry>),
}

/// What is handed out of the stream at a key.
#[derive(Drop)]
pub struct KeyHanded<'a> {
    pub key: &'a [u8],
    pub handed: Handed,
}

// Why the stream at a key can't be read for a group.
fn refusal_of<B: BlockStore>(
    keyspace: &Keyspace<B>,
    at: &Ctx,
    key: &[u8],
    group: &[u8],
) -> Option<Refusal>
    requires ready { Ready B.blocks keyspace.now at.now }
    ensures { result ≡ refusal_at group.now (look (visible B.blocks keyspace.now at.now) key.now) }
{
    match stream_at(keyspace, at, key) {
        Look::Missing => Some(Refusal::NoSuchGroup),
        Look::Other => Some(Refusal::WrongType),
        Look::There(stream) => {
            if has_group(stream, group) {
                return None;
            }
            Some(Refusal::NoSuchGroup)
        }
    }
}

// Why the first key that can't be read for a group can't be.
fn refusal_among<B: BlockStore>(
    keyspace: &Keyspace<B>,
    at: &Ctx,
    group: &[u8],
    asked: &[(Word<'_>, Option<EntryId>)],
) -> Option<Refusal>
    requires ready { Ready B.blocks keyspace.now at.now }
    ensures { result ≡ first_refusal (visible B.blocks keyspace.now at.now) group.now asked.now }
{
    for one in asked {
        let refusal = refusal_of(keyspace, at, one.0.as_slice(), group);
        if refusal.is_some() {
            return refusal;
        }
    }
    None
}

// As many of the ids that are pending in a group as are asked for, or as there are.
fn most_waiting(stream: &Stream, group: &[u8], limit: Option<u64>) -> Result<u64, Memory>
    ensures { IfOk result (λ most. (own : Group) → get stream.now.groups group.now ≡ Some own → (list : List Id) → length list ≤ len own.pending → take most list ≡ up_to limit list) }
{
    match limit {
        Some(most) => Ok(most),
        None => match stream.pending(group)? {
            None => Ok(0),
            Some(pending) => Ok(pending.count),
        },
    }
}

// Hands out what a group hasn't handed out. `None` comes exactly where there is no such group.
fn hand_fresh<B: BlockStore>(
    stream: &mut Stream,
    store: &B,
    who: &Asker<'_>,
    moment: u64,
) -> Result<Option<Handed>, Memory>
    requires sound { IsStream (B.blocks store.now) stream.old }
    ensures told { IfOk result
        (λ handed. (key : List ℕ) → told_of_key key handed ≡ told_in (reader moment who.now) key None (stream_of (B.blocks store.now) stream.old) (get stream.old.groups who.now.group.now)) }
    ensures ok { OnOk result
        (stream.new ≡ record stream.old { groups = changed stream.old.groups who.now.group.now (left_of (reader moment who.now) None (stream_of (B.blocks store.now) stream.old)) }) }
    ensures err { OnErr result (stream.new ≡ stream.old) }
{
    let most = most_of(stream, who.limit);
    match stream.deliver(store, who.group, who.consumer, most, moment)? {
        None => Ok(None),
        Some(given) => Ok(Some(Handed::Fresh(given))),
    }
}

// Hands out once more what is pending for the consumer above an id. `None` comes exactly where there is no such group.
fn hand_again<B: BlockStore>(
    stream: &mut Stream,
    store: &B,
    who: &Asker<'_>,
    above: EntryId,
    moment: u64,
) -> Result<Option<Handed>, Memory>
    requires sound { IsStream (B.blocks store.now) stream.old }
    ensures told { IfOk result
        (λ handed. (key : List ℕ) → told_of_key key handed ≡ told_in (reader moment who.now) key (Some above) (stream_of (B.blocks store.now) stream.old)
        (get stream.old.groups who.now.group.now)) }
    ensures ok { OnOk result
        (stream.new ≡ record stream.old { groups = changed stream.old.groups who.now.group.now (left_of (reader moment who.now) (Some above) (stream_of (B.blocks store.now) stream.old)) }) }
    ensures err { OnErr result (stream.new ≡ stream.old) }
{
    let most = most_waiting(stream, who.group, who.limit)?;
    match stream.redeliver(store, who.group, who.consumer, id_of(above), most, moment)? {
        None => Ok(None),
        Some(given) => Ok(Some(Handed::Again(given))),
    }
}

/// What is to be handed out of a stream, and what was.
#[derive(Drop)]
pub struct HandOut<'a> {
    pub who: &'a Asker<'a>,
    pub moment: u64,
    pub above: Option<EntryId>,
    pub handed: Option<Handed>,
}

impl<'a> StreamEdit for HandOut<'a> {
    ghost takes = { λ hand stream. Unit {0} };

    ghost makes = { λ first last old new. Hands (reader first.moment first.who.now) first.above last.handed old new };

    fn edit_stream<B: BlockStore>(
        &mut self,
        stream: &mut Stream,
        store: &mut B,
    ) -> Result<(), Memory> {
        match self.above {
            None => {
                let handed = hand_fresh(stream, store, self.who, self.moment)?;
                self.handed = handed;
                Ok(())
            }
            Some(above) => {
                let handed = hand_again(stream, store, self.who, above, self.moment)?;
                self.handed = handed;
                Ok(())
            }
        }
    }
}

// Hands out what there is of the stream at a key.
fn hand_one<B: BlockStore>(
    keyspace: &mut Keyspace<B>,
    at: &Ctx,
    who: &Asker<'_>,
    key: &[u8],
    above: Option<EntryId>,
) -> Result<Option<Handed>, Memory>
    requires ready { Ready B.blocks keyspace.old at.now }
    ensures gives { IfOk result
        (λ handed. hand_at (visible B.blocks keyspace.old at.now) (reader at.now.moment who.now) key.now above (stream_there (look (visible B.blocks keyspace.old at.now) key.now)) ≡
        (told_of_key key.now handed, visible B.blocks keyspace.new at.now)) }
    ensures held { KeepsTo B.blocks B.step (one_key at.now.db key.now) keyspace.old keyspace.new }
    ensures forms { IfOk result (λ handed. Formed B.blocks Log keyspace.old keyspace.new) }
{
    let found = seek(keyspace, at, key);
    match stream_sought(keyspace, at, key, found) {
        Look::Missing => Ok(None),
        Look::Other => Ok(None),
        Look::There(item) => {
            let hand = HandOut {
                who,
                moment: at.moment,
                above,
                handed: None,
            };
            let hand = change_stream(keyspace, at, key, found.sought, Some(item), hand)?;
            Ok(hand.handed)
        }
    }
}

// Whether something is told: entries, or what is pending.
fn is_told(handed: &Handed) -> bool
    ensures { IsTold handed.now result }
{
    match handed {
        Handed::Fresh(list) => !list.is_empty(),
        Handed::Again(_) => true,
    }
}

// Puts what is told of a key behind the others.
fn put_handed<'a>(
    found: &mut Vec<KeyHanded<'a>>,
    key: &'a [u8],
    handed: Option<Handed>,
) -> Result<(), Memory>
    ensures { OnOk result (map key_parts found.new.items ≡ map key_parts found.old.items ++ told_of_key key.now handed) }
{
    match handed {
        None => Ok(()),
        Some(handed) => {
            if !is_told(&handed) {
                return Ok(());
            }
            found.push(KeyHanded { key, handed })?;
            Ok(())
        }
    }
}

// Hands out what there is of the stream at each key, in turn.
fn hand_each<'a, B: BlockStore>(
    keyspace: &mut Keyspace<B>,
    at: &Ctx,
    who: &Asker<'_>,
    asked: &[(Word<'a>, Option<EntryId>)],
    found: &mut Vec<KeyHanded<'a>>,
) -> Result<(), Memory>
    requires ready { Ready B.blocks keyspace.old at.now }
    ensures gives { OnOk result (HandsOut B.blocks keyspace.old keyspace.new at.now (reader at.now.moment who.now) asked.now (map key_parts found.old.items) (map key_parts found.new.items)) }
    ensures held { KeepsTo B.blocks B.step (some_keys at.now.db (asked_keys asked.now)) keyspace.old keyspace.new }
    ensures forms { OnOk result (Formed B.blocks Log keyspace.old keyspace.new) }
{
    for one in asked {
        let key = one.0.as_slice();
        let handed = hand_one(keyspace, at, who, key, one.1)?;
        put_handed(found, key, handed)?;
    }
    Ok(())
}

// Adds an id that was pending, with the fields and values of its entry, or the null array where the entry is gone.
fn push_again(alloc: Global, again: &AgainEntry, parts: &mut Parts) -> Result<(), Memory>
    ensures { OnOk result (parts.new ≡ parts.old ++ again_parts again.now) }
{
    match &again.pairs {
        Some(entry) => push_entry(alloc, entry, parts),
        None => {
            parts.push(Part::Array(2))?;
            parts.push(Part::Bulk(id_text(alloc, again.id)?))?;
            parts.push(Part::NullArray)
        }
    }
}

// Adds ids that were pending, one after the other.
fn push_each_again(alloc: Global, list: &[AgainEntry], parts: &mut Parts) -> Result<(), Memory>
    ensures { OnOk result (parts.new ≡ parts.old ++ flat_map again_parts list.now) }
{
    for again in list {
        push_again(alloc, again, parts)?;
    }
    Ok(())
}

// Adds an array of ids that were pending.
fn push_waiting(alloc: Global, list: &[AgainEntry], parts: &mut Parts) -> Result<(), Memory>
    ensures { OnOk result (parts.new ≡ parts.old ++ waits_listed (map told list.now)) }
{
    parts.push(Part::Array(list.len() as u64))?;
    push_each_again(alloc, list, parts)
}

// Adds what is told of one key.
fn push_key(alloc: Global, one: &KeyHanded<'_>, parts: &mut Parts) -> Result<(), Memory>
    ensures { OnOk result (parts.new ≡ parts.old ++ key_parts one.now) }
{
    parts.push(Part::Array(2))?;
    parts.push(Part::Bulk(Bytes::new(alloc, one.key)?))?;
    match &one.handed {
        Handed::Fresh(list) => push_entries(alloc, list, parts),
        Handed::Again(list) => push_waiting(alloc, list, parts),
    }
}

// Adds what is told of each key.
fn push_keys(alloc: Global, found: &[KeyHanded<'_>], parts: &mut Parts) -> Result<(), Memory>
    ensures { OnOk result (parts.new ≡ parts.old ++ flat_map key_parts found.now) }
{
    for one in found {
        push_key(alloc, one, parts)?;
    }
    Ok(())
}

// An array of what is told of keys; the null array where there is none.
fn handed_reply(alloc: Global, found: &[KeyHanded<'_>]) -> Result<Reply, Memory>
    ensures { IfOk result (λ reply. reply ≡ all_listed (map key_parts found.now)) }
{
    let mut parts = Parts::new(alloc);
    if found.is_empty() {
        parts.push(Part::NullArray)?;
        return Ok(parts.into_reply());
    }
    parts.push(Part::Array(found.len() as u64))?;
    push_keys(alloc, found, &mut parts)?;
    Ok(parts.into_reply())
}

/// `XREADGROUP GROUP group consumer [COUNT n] STREAMS key.. id..`: an array of each key for which something is told, the null array where
/// nothing is. Without an id, of `>`, these are the first entries that the group hasn't handed out, which are pending for the consumer
/// then; above an id those that are pending for it, which are handed out once more. So many of a key at most. The first key that has no
/// such group, or a value of another type, is refused, and nothing changes.
pub fn xreadgroup<B: BlockStore>(
    keyspace: &mut Keyspace<B>,
    at: &Ctx,
    group: &[u8],
    consumer: &[u8],
    limit: Option<u64>,
    asked: &[(Word<'_>, Option<EntryId>)],
) -> Result<Reply, Memory>
    requires ready { Ready B.blocks keyspace.old at.now }
    ensures gives { Gives B.blocks keyspace.old keyspace.new at.now (streams.XReadGroup group.now consumer.now limit asked.now) result }
    ensures kept { KeepsOrRefuses B.blocks B.step (some_keys at.now.db (asked_keys asked.now)) keyspace.old keyspace.new result }
    ensures forms { IfOk result (λ reply. Formed B.blocks (stream_form (streams.XReadGroup group.now consumer.now limit asked.now)) keyspace.old keyspace.new) }
{
    let alloc = keyspace.alloc();
    match refusal_among(keyspace, at, group, asked) {
        Some(refusal) => Reply::refused(alloc, refusal),
        None => {
            let who = Asker {
                group,
                consumer,
                limit,
            };
            let mut found = Vec::new(alloc);
            hand_each(keyspace, at, &who, asked, &mut found)?;
            handed_reply(alloc, &found)
        }
    }
}
