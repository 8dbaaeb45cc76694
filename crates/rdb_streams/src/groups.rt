//! The consumer groups of a stream.

ghost use Rattle.std.specs.Prelude.{◌≡◌, ◌≤◌, None, OnOk, length};
ghost use Rattle.std.specs.FinMap.{empty, get};
ghost use Rattle.blocks.specs.Blocks.{Blocks};
ghost use Rattle.stream_object.specs.Streams.{stream_of};
ghost use Rattle.rdb_grammar.specs.StreamParts.{counted, with_group};
ghost use Rattle.rdb_streams.specs.Grouped.{ChangesGroup, begun_in, behind_name};
ghost use Rattle.rdb_streams.specs.Reading.{Reads};

use crate::consumers::{read_consumers, read_pendings};
use crate::fault::{no_group, refused};
use crate::unclaimed::Unclaimed;
use itoa::Buffer;
use rdb_grammar::{ItemFault, StreamType, next_group, next_length, next_string, text};
use std::alloc::Global;
use stream_object::Stream;

// Reads what follows the name of a new group at an offset: its last id, what is pending in it, and its consumers. The offset behind
// them is answered.
fn read_behind_name(
    stream: &mut Stream,
    unclaimed: &mut Unclaimed,
    name: &[u8],
    bytes: &[u8],
    at: usize,
    stream_type: StreamType,
) -> Result<usize, ItemFault>
    requires at { at ≤ length bytes.now }
    requires free { get stream.old.groups name.now ≡ None }
    requires none { unclaimed.old ≡ empty }
    ensures reads { Reads (behind_name stream_type name.now) bytes.now at (name.now, begun_in stream.new.groups name.now unclaimed.new) result }
    ensures added { OnOk result (ChangesGroup stream.old stream.new name.now) }
    ensures others { stream.new ≡ record stream.old { groups = stream.new.groups } }
{
    let (last, next) = match next_group(bytes, at, stream_type) {
        Ok(read) => read,
        Err(fault) => return Err(refused(fault)),
    };
    let next = match read_pendings(unclaimed, bytes, next) {
        Ok(next) => next,
        Err(fault) => return Err(fault),
    };
    match stream.group_create(name, last) {
        Ok(_) => read_consumers(stream, unclaimed, name, bytes, next, stream_type),
        Err(_) => Err(ItemFault::Memory),
    }
}

// Reads the group at an offset. The offset behind it is answered.
fn read_group(
    alloc: Global,
    stream: &mut Stream,
    bytes: &[u8],
    at: usize,
    stream_type: StreamType,
) -> Result<usize, ItemFault>
    requires { at ≤ length bytes.now }
    ensures reads { Reads (with_group stream_type stream.old.groups) bytes.now at stream.new.groups result }
    ensures others { stream.new ≡ record stream.old { groups = stream.new.groups } }
{
    let (name, next) = match next_string(bytes, at) {
        Ok(read) => read,
        Err(fault) => return Err(refused(fault)),
    };
    let mut buffer = Buffer::new();
    let name = text(&name, &mut buffer);
    if stream.group_last(name).is_some() {
        return Err(no_group(at));
    }
    let mut unclaimed = Unclaimed::new(alloc);
    match read_behind_name(stream, &mut unclaimed, name, bytes, next, stream_type) {
        Ok(next) => {
            if unclaimed.is_empty() {
                Ok(next)
            } else {
                Err(no_group(at))
            }
        }
        Err(fault) => Err(fault),
    }
}

/// Reads the number of a stream's groups at an offset and the groups behind it: their names and last ids, what is pending in them,
/// and their consumers. The offset behind them is answered.
///
/// `Refused` comes exactly by the first fault, and `Memory` for want of memory.
pub(crate) fn read_groups(
    alloc: Global,
    stream: &mut Stream,
    bytes: &[u8],
    at: usize,
    stream_type: StreamType,
) -> Result<usize, ItemFault>
    requires at { at ≤ length bytes.now }
    ensures reads { (m : Blocks) → Reads (counted (with_group stream_type) (stream_of m stream.old).groups) bytes.now at (stream_of m stream.new).groups result }
    ensures others { (m : Blocks) → stream.new ≡ record stream.old { groups = (stream_of m stream.new).groups } }
{
    let (count, start) = match next_length(bytes, at) {
        Ok(read) => read,
        Err(fault) => return Err(refused(fault)),
    };
    let mut next = start;
    'groups: for _ in 0..count {
        match read_group(alloc, stream, bytes, next, stream_type) {
            Ok(behind) => next = behind,
            Err(fault) => return Err(fault),
        }
    }
    Ok(next)
}
