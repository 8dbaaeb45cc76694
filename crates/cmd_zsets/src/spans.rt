//! Members that are told one after the other.

ghost use Rattle.std.specs.Prelude.{◌≡◌, ◌+◌, ◌<◌, ◌≤◌, ◌++◌, ◌∷◌, [], take, drop, reverse, IfOk, OnOk};
ghost use Rattle.std.specs.FinMap.{len as members};
ghost use Rattle.listpack.specs.Element.{element_text};
ghost use Rattle.zset_object.specs.Scored.{IsScored, scores};
ghost use Rattle.plain_world.specs.declared.reply.Part.TheVariants as replies;
ghost use Rattle.plain_model.specs.ZsetSteps.{ranked, listed};
ghost use Rattle.cmd_zsets.specs.Spans.{in_span, rank_of, told, told_all, sized};

use crate::reading::{array_of, score_text};
use blocks::BlockStore;
use keyspace::bytes_of;
use listpack::Element;
use plain_model::{Bytes, Direction, Memory, Part, Parts, Reply};
use std::alloc::{AllocError, Global};
use zset_object::Scored;

/// So many members from a place on, as they are met from an end.
#[derive(Clone, Copy)]
pub struct Span {
    /// The end from which they are met.
    pub from: Direction,
    /// How many members are met before them.
    pub start: usize,
    /// How many they are.
    pub count: usize,
}

/// The rank of the member that is met at a place, of so many.
pub fn rank_met(from: Direction, len: usize, place: usize) -> usize
    requires there { place < len }
    ensures rank { result ≡ rank_of from len place }
    ensures inside { result < len }
{
    match from {
        Direction::Rising => place,
        Direction::Falling => len - 1 - place,
    }
}

// Adds a member, whose bytes are at hand, followed by its score where that is asked for.
fn push_bytes(
    alloc: Global,
    member: Bytes,
    score: i64,
    with_score: bool,
    parts: &mut Parts,
) -> Result<(), Memory>
    ensures { OnOk result (parts.new ≡ parts.old ++ told with_score (score, member)) }
{
    parts.push(Part::Bulk(member))?;
    if with_score {
        parts.push(Part::Bulk(score_text(alloc, score)?))?;
    }
    Ok(())
}

/// Adds a member, followed by its score where that is asked for.
pub fn push_member(
    alloc: Global,
    member: Element<'_>,
    score: i64,
    with_score: bool,
    parts: &mut Parts,
) -> Result<(), Memory>
    ensures { OnOk result (parts.new ≡ parts.old ++ told with_score (score, element_text member.entry)) }
{
    let bytes = bytes_of(alloc, member)?;
    push_bytes(alloc, bytes, score, with_score, parts)
}

// Adds the members of so many ranks from one on, each followed by its score where that is asked for. They are met in one walk.
fn push_rising<B: BlockStore>(
    alloc: Global,
    store: &B,
    zset: &Scored,
    rank: usize,
    count: usize,
    with_scores: bool,
    parts: &mut Parts,
) -> Result<(), Memory>
    requires sound { IsScored (B.blocks store.now) zset.now }
    requires inside { rank + count ≤ members (scores (B.blocks store.now) zset.now) }
    ensures { OnOk result (parts.new ≡ parts.old ++ told_all with_scores (take count (drop rank (ranked (scores (B.blocks store.now) zset.now))))) }
{
    let mut place = zset.cursor(store, rank);
    for index in 0..count {
        match place {
            None => unreachable!(),
            Some(cursor) => {
                let (member, score) = zset.pair(store, &cursor);
                push_member(alloc, member, score, with_scores, parts)?;
                place = zset.next(store, &cursor);
            }
        }
    }
    Ok(())
}

// The members of so many ranks from one on, and their scores. They are met in one walk.
fn walk<B: BlockStore>(
    alloc: Global,
    store: &B,
    zset: &Scored,
    rank: usize,
    count: usize,
) -> Result<Vec<(i64, Bytes)>, Memory>
    requires sound { IsScored (B.blocks store.now) zset.now }
    requires inside { rank + count ≤ members (scores (B.blocks store.now) zset.now) }
    ensures { IfOk result (λ met. met.items ≡ take count (drop rank (ranked (scores (B.blocks store.now) zset.now)))) }
{
    let mut met = Vec::new(alloc);
    let mut place = zset.cursor(store, rank);
    for index in 0..count {
        match place {
            None => unreachable!(),
            Some(cursor) => {
                let (member, score) = zset.pair(store, &cursor);
                met.push((score, bytes_of(alloc, member)?))?;
                place = zset.next(store, &cursor);
            }
        }
    }
    Ok(met)
}

// Adds members from the last one back, each followed by its score where that is asked for.
fn push_back(
    alloc: Global,
    met: Vec<(i64, Bytes)>,
    with_scores: bool,
    parts: &mut Parts,
) -> Result<(), Memory>
    ensures { OnOk result (parts.new ≡ parts.old ++ told_all with_scores (reverse met.items)) }
{
    let mut left = met;
    'members: while let Some((score, member)) = left.pop() {
        push_bytes(alloc, member, score, with_scores, parts)?;
    }
    Ok(())
}

// Adds the members of a span, each followed by its score where that is asked for.
fn push_span<B: BlockStore>(
    alloc: Global,
    store: &B,
    zset: &Scored,
    span: Span,
    with_scores: bool,
    parts: &mut Parts,
) -> Result<(), Memory>
    requires sound { IsScored (B.blocks store.now) zset.now }
    requires inside { span.start + span.count ≤ members (scores (B.blocks store.now) zset.now) }
    ensures { OnOk result (parts.new ≡ parts.old ++ told_all with_scores (in_span span (ranked (scores (B.blocks store.now) zset.now)))) }
{
    match span.from {
        Direction::Rising => push_rising(
            alloc,
            store,
            zset,
            span.start,
            span.count,
            with_scores,
            parts,
        ),
        Direction::Falling => {
            // a place has no way back to the one before it, so that the members are met as they rise
            let lowest = zset.len() - span.start - span.count;
            let met = walk(alloc, store, zset, lowest, span.count)?;
            push_back(alloc, met, with_scores, parts)
        }
    }
}

// How many replies tell of so many members. 2^64 or more are want of memory.
fn told_size(count: usize, with_scores: bool) -> Result<u64, Memory>
    ensures { IfOk result (λ size. size ≡ sized with_scores count) }
{
    let count = count as u64;
    if with_scores {
        return match count.checked_mul(2) {
            Some(size) => Ok(size),
            None => Err(AllocError),
        };
    }
    Ok(count)
}

/// The beginning of an array of so many members.
pub fn array_of_members(alloc: Global, count: usize, with_scores: bool) -> Result<Parts, Memory>
    ensures { IfOk result (λ parts. parts ≡ replies.Array (sized with_scores count) ∷ []) }
{
    let size = told_size(count, with_scores)?;
    array_of(alloc, size)
}

/// The members of a span as an array, each followed by its score where that is asked for.
pub fn span_reply<B: BlockStore>(
    alloc: Global,
    store: &B,
    zset: &Scored,
    span: Span,
    with_scores: bool,
) -> Result<Reply, Memory>
    requires sound { IsScored (B.blocks store.now) zset.now }
    requires inside { span.start + span.count ≤ members (scores (B.blocks store.now) zset.now) }
    ensures { IfOk result (λ reply. reply ≡ listed with_scores (in_span span (ranked (scores (B.blocks store.now) zset.now)))) }
{
    let mut parts = array_of_members(alloc, span.count, with_scores)?;
    push_span(alloc, store, zset, span, with_scores, &mut parts)?;
    Ok(parts.into_reply())
}
