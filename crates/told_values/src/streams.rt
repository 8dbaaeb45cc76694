//! Streams: their entries, ids and groups.

ghost use Rattle.std.specs.Prelude.{◌≡◌, ◌↔◌, map, IfOk, IsTrue};
ghost use Rattle.stream_object.specs.Ranges.{taken};
ghost use Rattle.stream_object.specs.Streams.{IsStream, entries, stream_of};
ghost use Rattle.told_values.specs.Told.{log_told, AreOrdered};

use crate::groups::{ToldGroup, read_groups, same_groups};
use crate::texts::same_text;
use blocks::{BlockStore, Memory};
use std::alloc::Global;
use stream_object::{Id, Owned, Pairs, Stream};

const LEAST: Id = Id { ms: 0, seq: 0 };

const GREATEST: Id = Id {
    ms: u64::MAX,
    seq: u64::MAX,
};

/// A stream: its entries by rising ids, the last id that was added, the greatest that was deleted, how many were added, and its
/// groups.
#[derive(Drop)]
pub(crate) struct Log {
    entries: Vec<Owned>,
    last: Id,
    deleted: Id,
    added: u64,
    groups: Vec<ToldGroup>,
}

// All entries of a stream.
fn read_entries<B: BlockStore>(store: &B, stream: &Stream) -> Result<Vec<Owned>, Memory>
    requires { IsStream (B.blocks store.now) stream.now }
    ensures { IfOk result (λ found. map taken found.items ≡ entries (B.blocks store.now) stream.now) }
{
    let count = stream.len();
    stream.range(store, LEAST, GREATEST, false, count)
}

/// What a stream holds.
pub(crate) fn read_stream<B: BlockStore>(
    alloc: Global,
    store: &B,
    stream: &Stream,
) -> Result<Log, Memory>
    requires { IsStream (B.blocks store.now) stream.now }
    ensures told { IfOk result (λ log. log_told log ≡ stream_of (B.blocks store.now) stream.now) }
    ensures ordered { IfOk result (λ log. AreOrdered log.groups.items) }
{
    let entries = read_entries(store, stream)?;
    let groups = read_groups(alloc, stream)?;
    Ok(Log {
        entries,
        last: stream.last_id(),
        deleted: stream.greatest_deleted(),
        added: stream.added(),
        groups,
    })
}

// Whether both are the same fields and values in the same order.
fn same_fields(pairs: &Pairs, other: &Pairs) -> bool
    ensures { IsTrue result ↔ (pairs.now ≡ other.now) }
{
    if pairs.len() != other.len() {
        return false;
    }
    for index in 0..pairs.len() {
        if !same_text(pairs.field(index), other.field(index)) {
            return false;
        }
        if !same_text(pairs.value(index), other.value(index)) {
            return false;
        }
    }
    true
}

// Whether both are the same entry.
fn same_entry(entry: &Owned, other: &Owned) -> bool
    ensures { IsTrue result ↔ (taken entry.now ≡ taken other.now) }
{
    entry.id == other.id && same_fields(&entry.pairs, &other.pairs)
}

// Whether both are the same entries in the same order.
fn same_entries(entries: &[Owned], other: &[Owned]) -> bool
    ensures { IsTrue result ↔ (map taken entries.now ≡ map taken other.now) }
{
    if entries.len() != other.len() {
        return false;
    }
    for index in 0..entries.len() {
        if !same_entry(&entries[index], &other[index]) {
            return false;
        }
    }
    true
}

/// Whether both are the same stream.
pub(crate) fn same_logs(log: &Log, other: &Log) -> bool
    requires log { AreOrdered log.now.groups.items }
    requires other { AreOrdered other.now.groups.items }
    ensures { IsTrue result ↔ (log_told log.now ≡ log_told other.now) }
{
    log.last == other.last
        && log.deleted == other.deleted
        && log.added == other.added
        && same_entries(&log.entries, &other.entries)
        && same_groups(&log.groups, &other.groups)
}
