//! Commands that read lists.

ghost use Rattle.std.specs.Prelude.{◌≡◌, ℕ, List, ◌≤◌, ◌+◌, ◌++◌, ◌∷◌, [], length, take, drop, map, IfOk, OnOk};
ghost use Rattle.quicklist.specs.Chain.{elements, IsQuick};
ghost use Rattle.plain_world.specs.declared.reply.Part.TheVariants as replies;
ghost use Rattle.plain_model.specs.ListSteps.{place_of, range_start, range_end, list_range, listed, element_at};
ghost use Rattle.plain_model.specs.declared.list_command.ListCommand.TheVariants as lists;
ghost use Rattle.keyspace.specs.Commands.{Ready, visible};
ghost use Rattle.cmd_lists.specs.Found.{Gives};

use crate::look::list_at;
use blocks::BlockStore;
use keyspace::{Keyspace, Look, bytes_of, count_reply};
use plain_model::{Ctx, Memory, Part, Parts, Refusal, Reply};
use quicklist::Quick;
use std::alloc::Global;

/// `LLEN key`: the number of elements, 0 where there is no list.
#[tactic(auto, using(crate::proofs::Looking::refused_other))]
pub fn llen<B: BlockStore>(keyspace: &Keyspace<B>, at: &Ctx, key: &[u8]) -> Result<Reply, Memory>
    requires ready { Ready B.blocks keyspace.now at.now }
    ensures gives { Gives B.blocks keyspace.now keyspace.now at.now (lists.LLen key.now) result }
{
    let alloc = keyspace.alloc();
    match list_at(keyspace, at, key) {
        Look::Missing => count_reply(alloc, 0),
        Look::Other => Reply::refused(alloc, Refusal::WrongType),
        Look::There(list) => count_reply(alloc, list.len()),
    }
}

/// Where an index stands in a list of this length: a negative one counts from the end.
pub fn place_at(len: usize, index: i64) -> Option<usize>
    ensures { result ≡ place_of len index }
{
    let distance = index.unsigned_abs() as usize;
    if index < 0 {
        if distance <= len {
            return Some(len - distance);
        }
        return None;
    }
    if distance < len {
        return Some(distance);
    }
    None
}

// The element at an index of a list, or null, as a reply.
fn element_reply<B: BlockStore>(
    alloc: Global,
    store: &B,
    list: &Quick,
    index: i64,
) -> Result<Reply, Memory>
    requires quick { IsQuick (B.blocks store.now) list.now }
    ensures { IfOk result (λ reply. reply ≡ element_at (elements (B.blocks store.now) list.now) (place_of (length (elements (B.blocks store.now) list.now)) index) ∷ []) }
{
    match place_at(list.len(), index) {
        None => Reply::null(alloc),
        Some(place) => match list.get(store, place) {
            None => unreachable!(),
            Some(element) => Reply::bulk(alloc, bytes_of(alloc, element)?),
        },
    }
}

/// `LINDEX key index`: the element at an index, or null, where a negative index counts from the end.
#[tactic(auto, using(crate::proofs::Looking::refused_other))]
pub fn lindex<B: BlockStore>(
    keyspace: &Keyspace<B>,
    at: &Ctx,
    key: &[u8],
    index: i64,
) -> Result<Reply, Memory>
    requires ready { Ready B.blocks keyspace.now at.now }
    ensures gives { Gives B.blocks keyspace.now keyspace.now at.now (lists.LIndex key.now index) result }
{
    let alloc = keyspace.alloc();
    match list_at(keyspace, at, key) {
        Look::Missing => Reply::null(alloc),
        Look::Other => Reply::refused(alloc, Refusal::WrongType),
        Look::There(list) => element_reply(alloc, &keyspace.store, list, index),
    }
}

// Where a range begins: a negative index counts from the end, and what is still below 0 is 0.
fn first_of(len: usize, index: i64) -> usize
    ensures { result ≡ range_start len index }
{
    let distance = index.unsigned_abs() as usize;
    if index < 0 {
        return len.saturating_sub(distance);
    }
    distance
}

// Behind which place a range ends: a negative index counts from the end.
fn behind_last(len: usize, index: i64) -> usize
    ensures { result ≡ range_end len index }
{
    let distance = index.unsigned_abs() as usize;
    if index < 0 {
        return len.saturating_sub(distance - 1);
    }
    distance + 1
}

/// The place of the first element from index a to index b, and how many there are.
pub fn reach_of(len: usize, a: i64, b: i64) -> (usize, usize)
    ensures inside { result.0 + result.1 ≤ len }
    ensures range { (list : List (List ℕ)) → length list ≡ len → take result.1 (drop result.0 list) ≡ list_range list a b }
{
    let first = first_of(len, a);
    let end = behind_last(len, b);
    (first.min(len), end.min(len).saturating_sub(first))
}

// Adds so many elements from a place of a list on. Each node is sought out once.
fn push_elements<B: BlockStore>(
    alloc: Global,
    store: &B,
    list: &Quick,
    from: usize,
    count: usize,
    parts: &mut Parts,
) -> Result<(), Memory>
    requires quick { IsQuick (B.blocks store.now) list.now }
    requires inside { from + count ≤ length (elements (B.blocks store.now) list.now) }
    ensures { OnOk result (parts.new ≡ parts.old ++ map replies.Bulk (take count (drop from (elements (B.blocks store.now) list.now)))) }
{
    let mut place = list.seek(store, from);
    for index in 0..count {
        match place {
            None => unreachable!(),
            Some(cursor) => {
                let bytes = bytes_of(alloc, list.element(store, cursor))?;
                parts.push(Part::Bulk(bytes))?;
                place = list.next(store, cursor);
            }
        }
    }
    Ok(())
}

/// The beginning of an array of so many replies.
pub fn array_of(alloc: Global, count: u64) -> Result<Parts, Memory>
    ensures { IfOk result (λ parts. parts ≡ replies.Array count ∷ []) }
{
    let mut parts = Parts::new(alloc);
    parts.push(Part::Array(count))?;
    Ok(parts)
}

// The elements of a list from index a to index b, as an array.
fn range_reply<B: BlockStore>(
    alloc: Global,
    store: &B,
    list: &Quick,
    a: i64,
    b: i64,
) -> Result<Reply, Memory>
    requires quick { IsQuick (B.blocks store.now) list.now }
    ensures { IfOk result (λ reply. reply ≡ listed (list_range (elements (B.blocks store.now) list.now) a b)) }
{
    let (first, count) = reach_of(list.len(), a, b);
    let mut reply = array_of(alloc, count as u64)?;
    push_elements(alloc, store, list, first, count, &mut reply)?;
    Ok(reply.into_reply())
}

// The empty array as a reply.
fn empty_reply(alloc: Global) -> Result<Reply, Memory>
    ensures { IfOk result (λ reply. reply ≡ replies.Array 0 ∷ []) }
{
    let reply = array_of(alloc, 0)?;
    Ok(reply.into_reply())
}

/// `LRANGE key a b`: an array of the elements from index a to index b, where a negative index counts from the end.
#[tactic(auto, using(crate::proofs::Looking::refused_other))]
pub fn lrange<B: BlockStore>(
    keyspace: &Keyspace<B>,
    at: &Ctx,
    key: &[u8],
    a: i64,
    b: i64,
) -> Result<Reply, Memory>
    requires ready { Ready B.blocks keyspace.now at.now }
    ensures gives { Gives B.blocks keyspace.now keyspace.now at.now (lists.LRange key.now a b) result }
{
    let alloc = keyspace.alloc();
    match list_at(keyspace, at, key) {
        Look::Missing => empty_reply(alloc),
        Look::Other => Reply::refused(alloc, Refusal::WrongType),
        Look::There(list) => range_reply(alloc, &keyspace.store, list, a, b),
    }
}
