//! The consumer groups of a stream, each with its pending entries.

ghost use Rattle.std.specs.Prelude.{◌≡◌, ◌<◌, ◌^◌, ◌++◌, slice_get, OnOk};
ghost use Rattle.std.specs.Option.{option_map};
ghost use Rattle.std.specs.List.{AllByRecursion};
ghost use Rattle.std.specs.FinMap.{entries, len};
ghost use Rattle.rdb_parts.specs.Pens.{Writes};
ghost use Rattle.rdb_parts.specs.Words.{length_word};
ghost use Rattle.rdb_stream_writer.specs.Ids.{counted_by, id_word, IsStoredId};
ghost use Rattle.rdb_stream_writer.specs.Consumers.{moment_word};
ghost use Rattle.rdb_stream_writer.specs.Groups.{pending_word, group_word, IsStoredEntry, IsStoredGroup};

use crate::consumers::{write_consumers, write_moment};
use crate::ids::{write_id, write_lengths};
use outside::{HostFault, Shelf};
use rdb_parts::{Pen, write_length, write_string};
use stream_groups::{Group, WaitingEntry};
use stream_object::Stream;

// Writes a pending entry: its id, when it was handed out in milliseconds, and how often.
fn write_pending<F: Shelf>(
    shelf: &mut F,
    pen: &mut Pen,
    entry: WaitingEntry,
) -> Result<(), HostFault>
    ensures writes { Writes (F.seen shelf.old) (F.seen shelf.new) pen.old pen.new (id_word entry.id ++ (moment_word entry.moment ++ length_word entry.count)) result }
    ensures id { IsStoredId entry.id }
    ensures moment { entry.moment < 2 ^ 64 }
    ensures count { entry.count < 2 ^ 64 }
{
    write_id(shelf, pen, entry.id)?;
    write_moment(shelf, pen, entry.moment)?;
    write_length(shelf, pen, entry.count)
}

// Writes how many entries are pending in a group, and these by rising ids.
fn write_pendings<F: Shelf>(shelf: &mut F, pen: &mut Pen, group: &Group) -> Result<(), HostFault>
    ensures writes { Writes (F.seen shelf.old) (F.seen shelf.new) pen.old pen.new (counted_by pending_word (entries group.now.pending)) result }
    ensures few { len group.now.pending < 2 ^ 64 }
    ensures fits { OnOk result (AllByRecursion IsStoredEntry (entries group.now.pending)) }
{
    let count = group.pending_len();
    write_length(shelf, pen, count)?;
    let mut above = None;
    'entries: while let Some(entry) = group.pending_after(above) {
        write_pending(shelf, pen, entry)?;
        above = Some(entry.id);
    }
    Ok(())
}

// Writes a group, whose consumers were seen and active at the moment. It has read 0 entries.
fn write_group<F: Shelf>(
    shelf: &mut F,
    pen: &mut Pen,
    name: &[u8],
    group: &Group,
    moment: u64,
) -> Result<(), HostFault>
    ensures writes { Writes (F.seen shelf.old) (F.seen shelf.new) pen.old pen.new (group_word moment (name.now, group.now)) result }
    ensures fits { OnOk result (IsStoredGroup (name.now, group.now)) }
{
    write_string(shelf, pen, name)?;
    write_lengths(shelf, pen, group.last())?;
    write_length(shelf, pen, 0)?;
    write_pendings(shelf, pen, group)?;
    write_consumers(shelf, pen, group, moment)
}

// The name of a group and the group, by its place among rising names.
fn group_at<'a>(stream: &'a Stream, index: usize) -> Option<(&'a [u8], &'a Group)>
    ensures { option_map (λ found. (found.0.now, found.1.now)) result ≡ slice_get (entries stream.now.groups) index }
{
    match stream.group_name(index) {
        None => None,
        Some(name) => match stream.group_at(index) {
            None => None,
            Some(group) => Some((name, group)),
        },
    }
}

/// Writes how many groups a stream has, and these by rising names.
pub(crate) fn write_groups<F: Shelf>(
    shelf: &mut F,
    pen: &mut Pen,
    stream: &Stream,
    moment: u64,
) -> Result<(), HostFault>
    ensures writes { Writes (F.seen shelf.old) (F.seen shelf.new) pen.old pen.new (counted_by (group_word moment) (entries stream.now.groups)) result }
    ensures few { len stream.now.groups < 2 ^ 64 }
    ensures fits { OnOk result (AllByRecursion IsStoredGroup (entries stream.now.groups)) }
{
    write_length(shelf, pen, stream.groups() as u64)?;
    let mut index = 0;
    'each: while let Some((name, group)) = group_at(stream, index) {
        write_group(shelf, pen, name, group, moment)?;
        index += 1;
    }
    Ok(())
}
