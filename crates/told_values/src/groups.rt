//! The consumer groups of a stream, group by group.

ghost use Rattle.std.specs.Prelude.{◌≡◌, ◌<◌, ◌↔◌, ℕ, List, Some, IsSome, map, slice_get, IfOk, IsTrue};
ghost use Rattle.std.specs.FinMap.{entries, len, values};
ghost use Rattle.stream_groups.specs.Waits.{consumer_at};
ghost use Rattle.stream_object.specs.Streams.{pair_of};
ghost use Rattle.told_values.specs.Told.{texts_told, pending_told, groups_told, AreOrdered};
ghost use Rattle.told_values.specs.Reading.{consumers_in, pending_in, group_listed, TellsGroup};

use crate::lists::same_texts;
use crate::texts::same_bytes;
use blocks::Memory;
use std::alloc::Global;
use stream_object::{Id, PendingEntry, Stream};

/// A pending entry: its id, the consumer that it was handed to, the moment of the last time in milliseconds, and how often it was.
#[derive(Drop)]
pub(crate) struct ToldPending {
    id: Id,
    consumer: Vec<u8>,
    moment: u64,
    count: u64,
}

/// A group: its name, the last id that it handed out, its consumers by rising names, and what is pending by rising ids.
#[derive(Drop)]
pub(crate) struct ToldGroup {
    name: Vec<u8>,
    last: Id,
    consumers: Vec<Vec<u8>>,
    pending: Vec<ToldPending>,
}

// The names of the consumers of a group, by the group's place among rising names.
fn read_consumers(alloc: Global, stream: &Stream, at: usize) -> Result<Vec<Vec<u8>>, Memory>
    ensures { IfOk result (λ names. texts_told names.items ≡ consumers_in (slice_get (values stream.now.groups) at)) }
{
    let mut names = Vec::new(alloc);
    'consumers: while let Some(name) = stream.consumer_name(at, names.len()) {
        let text = Vec::from_slice(alloc, name)?;
        names.push(text)?;
    }
    Ok(names)
}

// A pending entry of a group, with the name of its consumer.
fn read_one(
    alloc: Global,
    stream: &Stream,
    at: usize,
    entry: PendingEntry,
) -> Result<ToldPending, Memory>
    requires { IsSome (consumer_at (slice_get (values stream.now.groups) at) entry.consumer) }
    ensures { IfOk result (λ told. (name : List ℕ) → consumer_at (slice_get (values stream.now.groups) at) entry.consumer ≡ Some name
        → pending_told told ≡ (pair_of entry.id, record { consumer = name; moment = entry.moment; count = entry.count })) }
{
    match stream.consumer_name(at, entry.consumer) {
        None => unreachable!(),
        Some(name) => {
            let consumer = Vec::from_slice(alloc, name)?;
            Ok(ToldPending {
                id: entry.id,
                consumer,
                moment: entry.moment,
                count: entry.count,
            })
        }
    }
}

// What is pending in a group, by the group's place among rising names.
fn read_pending(alloc: Global, stream: &Stream, at: usize) -> Result<Vec<ToldPending>, Memory>
    ensures { IfOk result (λ told. map pending_told told.items ≡ pending_in (slice_get (values stream.now.groups) at)) }
{
    let mut told = Vec::new(alloc);
    let mut next = stream.pending_after(at, None);
    'entries: while let Some(entry) = next {
        let pending = read_one(alloc, stream, at, entry)?;
        told.push(pending)?;
        next = stream.pending_after(at, Some(entry.id));
    }
    Ok(told)
}

// The group at a place among rising names.
fn read_group(alloc: Global, stream: &Stream, at: usize) -> Result<ToldGroup, Memory>
    requires { at < len stream.now.groups }
    ensures { IfOk result (TellsGroup (slice_get (entries stream.now.groups) at)) }
{
    match stream.group_name(at) {
        None => unreachable!(),
        Some(name) => match stream.group_last(name) {
            None => unreachable!(),
            Some(last) => {
                let name = Vec::from_slice(alloc, name)?;
                let consumers = read_consumers(alloc, stream, at)?;
                let pending = read_pending(alloc, stream, at)?;
                Ok(ToldGroup {
                    name,
                    last,
                    consumers,
                    pending,
                })
            }
        },
    }
}

/// All groups of a stream, by rising names.
pub(crate) fn read_groups(alloc: Global, stream: &Stream) -> Result<Vec<ToldGroup>, Memory>
    ensures told { IfOk result (λ told. groups_told told.items ≡ stream.now.groups) }
    ensures ordered { IfOk result (λ told. AreOrdered told.items) }
{
    let mut told = Vec::new(alloc);
    let count = stream.groups();
    for at in 0..count {
        let group = read_group(alloc, stream, at)?;
        told.push(group)?;
    }
    Ok(told)
}

// Whether both are the same pending entry.
fn same_one(pending: &ToldPending, other: &ToldPending) -> bool
    ensures { IsTrue result ↔ (pending_told pending.now ≡ pending_told other.now) }
{
    pending.id == other.id
        && same_bytes(&pending.consumer, &other.consumer)
        && pending.moment == other.moment
        && pending.count == other.count
}

// Whether both are the same pending entries in the same order.
fn same_pending(pending: &[ToldPending], other: &[ToldPending]) -> bool
    ensures { IsTrue result ↔ (map pending_told pending.now ≡ map pending_told other.now) }
{
    if pending.len() != other.len() {
        return false;
    }
    for index in 0..pending.len() {
        if !same_one(&pending[index], &other[index]) {
            return false;
        }
    }
    true
}

// Whether both are the same group, element by element.
fn same_group(group: &ToldGroup, other: &ToldGroup) -> bool
    ensures { IsTrue result ↔ (group_listed group.now ≡ group_listed other.now) }
{
    same_bytes(&group.name, &other.name)
        && group.last == other.last
        && same_texts(&group.consumers, &other.consumers)
        && same_pending(&group.pending, &other.pending)
}

// Whether both are the same groups in the same order.
fn same_listed(groups: &[ToldGroup], other: &[ToldGroup]) -> bool
    ensures { IsTrue result ↔ (map group_listed groups.now ≡ map group_listed other.now) }
{
    if groups.len() != other.len() {
        return false;
    }
    for index in 0..groups.len() {
        if !same_group(&groups[index], &other[index]) {
            return false;
        }
    }
    true
}

/// Whether both are the same groups.
pub(crate) fn same_groups(groups: &[ToldGroup], other: &[ToldGroup]) -> bool
    requires groups { AreOrdered groups.now }
    requires other { AreOrdered other.now }
    ensures { IsTrue result ↔ (groups_told groups.now ≡ groups_told other.now) }
{
    same_listed(groups, other)
}
