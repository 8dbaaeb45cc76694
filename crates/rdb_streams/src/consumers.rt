//! The consumers of a group, and what is pending for them.

ghost use Rattle.std.specs.Prelude.{◌≡◌, ◌≤◌, IsTrue, IfSome, length};
ghost use Rattle.std.specs.FinMap.{get, contains_key};
ghost use Rattle.stream_groups.specs.Groups.{Group, has_consumer};
ghost use Rattle.rdb_grammar.specs.StreamParts.{counted, with_claim, with_consumer, with_unclaimed};
ghost use Rattle.rdb_streams.specs.Grouped.{ChangesGroup, begun_in};
ghost use Rattle.rdb_streams.specs.Reading.{Reads};

use crate::fault::{no_group, refused};
use crate::unclaimed::Unclaimed;
use itoa::Buffer;
use rdb_grammar::{
    ItemFault, StreamType, next_handed, next_key_id, next_length, next_string, next_times, text,
};
use stream_object::Stream;

// Reads the pending entry at an offset: its id, and how it was handed out. The offset behind it is answered.
fn read_pending(unclaimed: &mut Unclaimed, bytes: &[u8], at: usize) -> Result<usize, ItemFault>
    requires { at ≤ length bytes.now }
    ensures { (group : Group) → Reads (with_unclaimed (record { group = group; unclaimed = unclaimed.old })) bytes.now at (record { group = group; unclaimed = unclaimed.new }) result }
{
    let (id, next) = match next_key_id(bytes, at) {
        Ok(read) => read,
        Err(fault) => return Err(refused(fault)),
    };
    if unclaimed.contains(id) {
        return Err(no_group(at));
    }
    let (handed, next) = match next_handed(bytes, next) {
        Ok(read) => read,
        Err(fault) => return Err(refused(fault)),
    };
    match unclaimed.put(id, handed) {
        Ok(()) => Ok(next),
        Err(_) => Err(ItemFault::Memory),
    }
}

/// Reads the number of a group's pending entries at an offset and the entries behind it. The offset behind them is answered.
///
/// `Refused` comes exactly by the first fault, and `Memory` for want of memory.
pub(crate) fn read_pendings(
    unclaimed: &mut Unclaimed,
    bytes: &[u8],
    at: usize,
) -> Result<usize, ItemFault>
    requires { at ≤ length bytes.now }
    ensures { (group : Group) → Reads (counted with_unclaimed (record { group = group; unclaimed = unclaimed.old })) bytes.now at (record { group = group; unclaimed = unclaimed.new }) result }
{
    let (count, start) = match next_length(bytes, at) {
        Ok(read) => read,
        Err(fault) => return Err(refused(fault)),
    };
    let mut next = start;
    'pendings: for _ in 0..count {
        match read_pending(unclaimed, bytes, next) {
            Ok(behind) => next = behind,
            Err(fault) => return Err(fault),
        }
    }
    Ok(next)
}

// Reads the id at an offset, which is pending for no consumer yet: it is for this one now. The offset behind it is answered.
fn read_claim(
    stream: &mut Stream,
    unclaimed: &mut Unclaimed,
    name: &[u8],
    consumer: &[u8],
    bytes: &[u8],
    at: usize,
) -> Result<usize, ItemFault>
    requires at { at ≤ length bytes.now }
    requires there { IsTrue (contains_key stream.old.groups name.now) }
    requires consumer { IfSome (get stream.old.groups name.now) (λ group. IsTrue (has_consumer consumer.now group)) }
    ensures reads { Reads (with_claim consumer.now (begun_in stream.old.groups name.now unclaimed.old)) bytes.now at (begun_in stream.new.groups name.now unclaimed.new) result }
    ensures consumer { IfSome (get stream.new.groups name.now) (λ group. IsTrue (has_consumer consumer.now group)) }
    ensures others { ChangesGroup stream.old stream.new name.now }
{
    let (id, next) = match next_key_id(bytes, at) {
        Ok(read) => read,
        Err(fault) => return Err(refused(fault)),
    };
    let handed = match unclaimed.take(id) {
        Some(handed) => handed,
        None => return Err(no_group(at)),
    };
    match stream.set_pending(name, consumer, id, handed.moment, handed.count) {
        Ok(_) => Ok(next),
        Err(_) => Err(ItemFault::Memory),
    }
}

// Reads the number of a consumer's pending entries at an offset and their ids behind it. The offset behind them is answered.
fn read_claims(
    stream: &mut Stream,
    unclaimed: &mut Unclaimed,
    name: &[u8],
    consumer: &[u8],
    bytes: &[u8],
    at: usize,
) -> Result<usize, ItemFault>
    requires at { at ≤ length bytes.now }
    requires there { IsTrue (contains_key stream.old.groups name.now) }
    requires consumer { IfSome (get stream.old.groups name.now) (λ group. IsTrue (has_consumer consumer.now group)) }
    ensures reads { Reads (counted (with_claim consumer.now) (begun_in stream.old.groups name.now unclaimed.old)) bytes.now at (begun_in stream.new.groups name.now unclaimed.new) result }
    ensures others { ChangesGroup stream.old stream.new name.now }
{
    let (count, start) = match next_length(bytes, at) {
        Ok(read) => read,
        Err(fault) => return Err(refused(fault)),
    };
    let mut next = start;
    'claims: for _ in 0..count {
        match read_claim(stream, unclaimed, name, consumer, bytes, next) {
            Ok(behind) => next = behind,
            Err(fault) => return Err(fault),
        }
    }
    Ok(next)
}

// Reads the consumer at an offset: its name, its moments, and the ids that are pending for it. The offset behind them is answered.
fn read_consumer(
    stream: &mut Stream,
    unclaimed: &mut Unclaimed,
    name: &[u8],
    bytes: &[u8],
    at: usize,
    stream_type: StreamType,
) -> Result<usize, ItemFault>
    requires at { at ≤ length bytes.now }
    requires there { IsTrue (contains_key stream.old.groups name.now) }
    ensures reads { Reads (with_consumer stream_type (begun_in stream.old.groups name.now unclaimed.old)) bytes.now at (begun_in stream.new.groups name.now unclaimed.new) result }
    ensures others { ChangesGroup stream.old stream.new name.now }
{
    let (consumer, next) = match next_string(bytes, at) {
        Ok(read) => read,
        Err(fault) => return Err(refused(fault)),
    };
    let mut buffer = Buffer::new();
    let consumer = text(&consumer, &mut buffer);
    match stream.add_consumer(name, consumer) {
        Ok(Some(true)) => match next_times(bytes, next, stream_type) {
            Ok(next) => read_claims(stream, unclaimed, name, consumer, bytes, next),
            Err(fault) => Err(refused(fault)),
        },
        Ok(Some(false)) => Err(no_group(at)),
        Ok(None) => unreachable!(),
        Err(_) => Err(ItemFault::Memory),
    }
}

/// Reads the number of a group's consumers at an offset and the consumers behind it. The offset behind them is answered.
///
/// `Refused` comes exactly by the first fault, and `Memory` for want of memory.
pub(crate) fn read_consumers(
    stream: &mut Stream,
    unclaimed: &mut Unclaimed,
    name: &[u8],
    bytes: &[u8],
    at: usize,
    stream_type: StreamType,
) -> Result<usize, ItemFault>
    requires at { at ≤ length bytes.now }
    requires there { IsTrue (contains_key stream.old.groups name.now) }
    ensures reads { Reads (counted (with_consumer stream_type) (begun_in stream.old.groups name.now unclaimed.old)) bytes.now at (begun_in stream.new.groups name.now unclaimed.new) result }
    ensures others { ChangesGroup stream.old stream.new name.now }
{
    let (count, start) = match next_length(bytes, at) {
        Ok(read) => read,
        Err(fault) => return Err(refused(fault)),
    };
    let mut next = start;
    'consumers: for _ in 0..count {
        match read_consumer(stream, unclaimed, name, bytes, next, stream_type) {
            Ok(behind) => next = behind,
            Err(fault) => return Err(fault),
        }
    }
    Ok(next)
}
