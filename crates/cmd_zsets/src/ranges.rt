//! Commands that read ranges of ranks and of scores.

ghost use Rattle.std.specs.Prelude.{◌≡◌, ◌+◌, ◌≤◌, [], ◌∷◌, List, length, take, drop, not, int_lt, count_by, MatchOption, IfOk};
ghost use Rattle.std.specs.FinMap.{len};
ghost use Rattle.zset_object.specs.Scored.{IsScored, scores};
ghost use Rattle.plain_world.specs.declared.reply.Part.TheVariants as replies;
ghost use Rattle.plain_model.specs.ListSteps.{range_start, range_end, list_range};
ghost use Rattle.plain_model.specs.ZsetSteps.{met, ranked, listed, is_above, is_below, within, behind, at_most, limited};
ghost use Rattle.plain_model.specs.ZsetSteps as model;
ghost use Rattle.plain_model.specs.declared.zset_command.ZsetCommand.TheVariants as zsets;
ghost use Rattle.keyspace.specs.Commands.{Ready, visible};
ghost use Rattle.cmd_zsets.specs.Found.{Gives};
ghost use Rattle.cmd_zsets.specs.Spans.{in_span, start_of, EachUpTo};

use crate::look::zset_at;
use crate::spans::{Span, span_reply};
use blocks::BlockStore;
use keyspace::{Keyspace, Look, count_reply};
use plain_model::{Ctx, Direction, Limit, Memory, Part, Parts, Refusal, Reply, ScoreBound};
use std::alloc::Global;
use zset_object::Scored;

// Where a range begins: a negative index counts from the end, and what is still below 0 is 0.
fn first_of(len: usize, index: i64) -> usize
    ensures { result ≡ range_start len index }
{
    let distance = index.unsigned_abs() as usize;
    if index < 0 {
        return len.saturating_sub(distance);
    }
    distance
}

// Behind which place a range ends: a negative index counts from the end.
fn behind_last(len: usize, index: i64) -> usize
    ensures { result ≡ range_end len index }
{
    let distance = index.unsigned_abs() as usize;
    if index < 0 {
        return len.saturating_sub(distance - 1);
    }
    distance + 1
}

/// The members from index a to index b of so many, as they are met.
pub fn by_rank(len: usize, from: Direction, a: i64, b: i64) -> Span
    ensures inside { result.start + result.count ≤ len }
    ensures range { (list : List model.Scored) → length list ≡ len → in_span result list ≡ list_range (met from list) a b }
{
    let first = first_of(len, a);
    let end = behind_last(len, b);
    Span {
        from,
        start: first.min(len),
        count: end.min(len).saturating_sub(first),
    }
}

// The highest score. `None` comes exactly where there is no member.
fn highest<B: BlockStore>(store: &B, zset: &Scored) -> Option<i64>
    requires sound { IsScored (B.blocks store.now) zset.now }
    ensures { MatchOption result (ranked (scores (B.blocks store.now) zset.now) ≡ []) (λ most. EachUpTo most (ranked (scores (B.blocks store.now) zset.now))) }
{
    let len = zset.len();
    if len == 0 {
        return None;
    }
    match zset.at_rank(store, len - 1) {
        None => unreachable!(),
        Some((_, score)) => Some(score),
    }
}

// How many scores aren't above this one.
fn up_to<B: BlockStore>(store: &B, zset: &Scored, most: i64) -> usize
    requires sound { IsScored (B.blocks store.now) zset.now }
    ensures { result ≡ count_by (λ scored. not (int_lt most scored.0)) (ranked (scores (B.blocks store.now) zset.now)) }
{
    if most < i64::MAX {
        return zset.below(store, most + 1);
    }
    // no score is above the greatest number
    match highest(store, zset) {
        None => 0,
        Some(_) => zset.len(),
    }
}

// How many scores aren't above a lower bound.
fn under<B: BlockStore>(store: &B, zset: &Scored, min: ScoreBound) -> usize
    requires sound { IsScored (B.blocks store.now) zset.now }
    ensures { result ≡ count_by (λ scored. not (is_above min scored.0)) (ranked (scores (B.blocks store.now) zset.now)) }
{
    match min {
        ScoreBound::Lowest => 0,
        ScoreBound::Including(least) => zset.below(store, least),
        ScoreBound::Excluding(below) => up_to(store, zset, below),
        ScoreBound::Highest => zset.len(),
    }
}

// How many scores are below an upper bound.
fn up_to_bound<B: BlockStore>(store: &B, zset: &Scored, max: ScoreBound) -> usize
    requires sound { IsScored (B.blocks store.now) zset.now }
    ensures { result ≡ count_by (λ scored. is_below max scored.0) (ranked (scores (B.blocks store.now) zset.now)) }
{
    match max {
        ScoreBound::Lowest => 0,
        ScoreBound::Including(most) => up_to(store, zset, most),
        ScoreBound::Excluding(above) => zset.below(store, above),
        ScoreBound::Highest => zset.len(),
    }
}

/// Where the members from one rank up to another are met, of so many; and at which rank those begin that are met from one place up to
/// another.
pub fn start_met(from: Direction, len: usize, low: usize, high: usize) -> usize
    requires { high ≤ len }
    ensures { result ≡ start_of from len low high }
{
    match from {
        Direction::Rising => low,
        Direction::Falling => len - high,
    }
}

/// The members whose scores are within bounds, as they are met.
pub fn by_score<B: BlockStore>(
    store: &B,
    zset: &Scored,
    min: ScoreBound,
    max: ScoreBound,
    from: Direction,
) -> Span
    requires sound { IsScored (B.blocks store.now) zset.now }
    ensures inside { result.start + result.count ≤ len (scores (B.blocks store.now) zset.now) }
    ensures range { in_span result (ranked (scores (B.blocks store.now) zset.now)) ≡ within min max (met from (ranked (scores (B.blocks store.now) zset.now))) }
{
    let high = up_to_bound(store, zset, max);
    let low = under(store, zset, min).min(high);
    Span {
        from,
        start: start_met(from, zset.len(), low, high),
        count: high - low,
    }
}

// So many of these, all for a number below 0.
fn so_many(count: usize, n: i64) -> usize
    ensures few { result ≤ count }
    ensures passed { (list : List model.Scored) → length list ≡ count → drop result list ≡ behind n list }
    ensures taken { (list : List model.Scored) → length list ≡ count → take result list ≡ at_most n list }
{
    if n < 0 {
        return count;
    }
    (n.unsigned_abs() as usize).min(count)
}

// The part of a span that a limit leaves, of so many members.
fn limit_span(len: usize, span: Span, limit: Option<Limit>) -> Span
    requires { span.start + span.count ≤ len }
    ensures inside { result.start + result.count ≤ len }
    ensures range { (list : List model.Scored) → length list ≡ len → in_span result list ≡ limited limit (in_span span list) }
{
    match limit {
        None => span,
        Some(limit) => {
            let over = so_many(span.count, limit.offset);
            let count = so_many(span.count - over, limit.count);
            Span {
                from: span.from,
                start: span.start + over,
                count,
            }
        }
    }
}

// The empty array as a reply.
fn empty_reply(alloc: Global) -> Result<Reply, Memory>
    ensures { IfOk result (λ reply. reply ≡ replies.Array 0 ∷ []) }
{
    let mut parts = Parts::new(alloc);
    parts.push(Part::Array(0))?;
    Ok(parts.into_reply())
}

/// `ZCOUNT key min max`: how many scores are within the bounds, 0 where there is no sorted set.
#[tactic(auto, using(crate::proofs::Looking::refused_other))]
pub fn zcount<B: BlockStore>(
    keyspace: &Keyspace<B>,
    at: &Ctx,
    key: &[u8],
    min: ScoreBound,
    max: ScoreBound,
) -> Result<Reply, Memory>
    requires ready { Ready B.blocks keyspace.now at.now }
    ensures gives { Gives B.blocks keyspace.now keyspace.now at.now (zsets.ZCount key.now min max) result }
{
    let alloc = keyspace.alloc();
    match zset_at(keyspace, at, key) {
        Look::Missing => count_reply(alloc, 0),
        Look::Other => Reply::refused(alloc, Refusal::WrongType),
        Look::There(zset) => {
            let span = by_score(&keyspace.store, zset, min, max, Direction::Rising);
            count_reply(alloc, span.count)
        }
    }
}

/// `ZRANGE key a b [REV] [WITHSCORES]` and ZREVRANGE: an array of the members from index a to index b, as they are met, where a negative
/// index counts from the end.
#[tactic(auto, using(crate::proofs::Looking::refused_other))]
pub fn zrange<B: BlockStore>(
    keyspace: &Keyspace<B>,
    at: &Ctx,
    key: &[u8],
    a: i64,
    b: i64,
    from: Direction,
    with_scores: bool,
) -> Result<Reply, Memory>
    requires ready { Ready B.blocks keyspace.now at.now }
    ensures gives { Gives B.blocks keyspace.now keyspace.now at.now (zsets.ZRange key.now a b from with_scores) result }
{
    let alloc = keyspace.alloc();
    match zset_at(keyspace, at, key) {
        Look::Missing => empty_reply(alloc),
        Look::Other => Reply::refused(alloc, Refusal::WrongType),
        Look::There(zset) => {
            let span = by_rank(zset.len(), from, a, b);
            span_reply(alloc, &keyspace.store, zset, span, with_scores)
        }
    }
}

// The members whose scores are within bounds, as they are met, by a limit, as an array.
fn bounded_reply<B: BlockStore>(
    alloc: Global,
    store: &B,
    zset: &Scored,
    min: ScoreBound,
    max: ScoreBound,
    from: Direction,
    limit: Option<Limit>,
    with_scores: bool,
) -> Result<Reply, Memory>
    requires sound { IsScored (B.blocks store.now) zset.now }
    ensures { IfOk result (λ reply. reply ≡ listed with_scores (limited limit (within min max (met from (ranked (scores (B.blocks store.now) zset.now)))))) }
{
    let whole = by_score(store, zset, min, max, from);
    let span = limit_span(zset.len(), whole, limit);
    span_reply(alloc, store, zset, span, with_scores)
}

/// `ZRANGEBYSCORE key min max [WITHSCORES] [LIMIT offset count]`, ZREVRANGEBYSCORE, and ZRANGE with BYSCORE: an array of the members
/// whose scores are within the bounds, as they are met, from those behind the offset so many.
#[tactic(auto, using(crate::proofs::Looking::refused_other))]
pub fn zrangebyscore<B: BlockStore>(
    keyspace: &Keyspace<B>,
    at: &Ctx,
    key: &[u8],
    min: ScoreBound,
    max: ScoreBound,
    from: Direction,
    limit: Option<Limit>,
    with_scores: bool,
) -> Result<Reply, Memory>
    requires ready { Ready B.blocks keyspace.now at.now }
    ensures gives { Gives B.blocks keyspace.now keyspace.now at.now (zsets.ZRangeByScore key.now min max from limit with_scores) result }
{
    let alloc = keyspace.alloc();
    match zset_at(keyspace, at, key) {
        Look::Missing => empty_reply(alloc),
        Look::Other => Reply::refused(alloc, Refusal::WrongType),
        Look::There(zset) => bounded_reply(
            alloc,
            &keyspace.store,
            zset,
            min,
            max,
            from,
            limit,
            with_scores,
        ),
    }
}
