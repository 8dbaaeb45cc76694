//! Scores that are gathered beside the store.

ghost use Rattle.std.specs.Prelude.{◌≡◌, ◌*ℤ◌, ℕ, List, Some, IfOk, OnOk};
ghost use Rattle.std.specs.FinMap.{get, insert};
ghost use Rattle.listpack.specs.Element.{element_text};
ghost use Rattle.set_object.specs.Members.{IsMembers, members};
ghost use Rattle.zset_object.specs.Scored.{IsScored, scores};
ghost use Rattle.plain_model.specs.ZsetSteps.{aggregated, one_each, weighted};
ghost use Rattle.keyspace.specs.Commands.{Ready, visible};
ghost use Rattle.cmd_zsets.specs.Joined.{IsFresh, asked_of, gathered, met_with, put_if, scores_at};

use crate::look::{set_at, zset_at};
use blocks::BlockStore;
use keyspace::{Keyspace, Look, bytes_of};
use listpack::Element;
use plain_model::{Aggregate, Ctx, Memory, ScoreJoin};
use set_object::Members;
use std::alloc::{AllocError, Global};
use std::collections::BTreeMap;
use std::mem;
use zset_object::Scored;

/// Members with what their scores add up to.
pub type Sums = BTreeMap<Vec<u8>, i128>;

/// What is done with the scores of the sources of a join.
#[derive(Clone, Copy)]
pub struct Meeting {
    pub join: ScoreJoin,
    pub how: Aggregate,
    /// What the scores of the source are multiplied with.
    pub weight: i64,
}

// The score that was gathered of a member.
fn score_in(sums: &Sums, member: &[u8]) -> Option<i128>
    ensures { result ≡ get (gathered sums.now) member.now }
{
    sums.get(member).copied()
}

// Writes the score of a member.
fn put_score(alloc: Global, sums: &mut Sums, member: &[u8], score: i128) -> Result<(), Memory>
    ensures { OnOk result (gathered sums.new ≡ insert (gathered sums.old) member.now score) }
{
    let name = Vec::from_slice(alloc, member)?;
    sums.insert(name, score)?;
    Ok(())
}

// Two scores of a member as one. A sum past 128 bits is want of memory: no request has so many keys.
fn aggregate(how: Aggregate, a: i128, b: i128) -> Result<i128, Memory>
    ensures { IfOk result (λ score. score ≡ aggregated how a b) }
{
    match how {
        Aggregate::Sum => match a.checked_add(b) {
            None => Err(AllocError),
            Some(sum) => Ok(sum),
        },
        Aggregate::Min => Ok(if a <= b { a } else { b }),
        Aggregate::Max => Ok(if a <= b { b } else { a }),
    }
}

// The score of a member that the source has, where it had one before or none. `None` where the join doesn't have the member.
fn met_score(
    join: ScoreJoin,
    how: Aggregate,
    before: Option<i128>,
    score: i128,
) -> Result<Option<i128>, Memory>
    ensures { IfOk result (λ new. new ≡ met_with join how before (Some score)) }
{
    match before {
        Some(before) => Ok(Some(aggregate(how, before, score)?)),
        None => match join {
            ScoreJoin::Inter => Ok(None),
            ScoreJoin::Union => Ok(Some(score)),
        },
    }
}

// A score times a weight.
fn product(weight: i64, score: i64) -> i128
    ensures { result ≡ weight *ℤ score }
{
    i128::from(weight) * i128::from(score)
}

// Writes the score of a member that a source has, after the scores before it.
fn add_score(
    alloc: Global,
    meeting: Meeting,
    before: &Sums,
    now: &mut Sums,
    member: &[u8],
    score: i64,
) -> Result<(), Memory>
    ensures { OnOk result
        (gathered now.new ≡ put_if (gathered now.old) member.now
        (met_with meeting.join meeting.how (get (asked_of meeting.join (gathered before.now) (gathered now.old)) member.now) (Some (meeting.weight *ℤ score)))) }
{
    let old = match meeting.join {
        ScoreJoin::Union => score_in(now, member),
        ScoreJoin::Inter => score_in(before, member),
    };
    let score = product(meeting.weight, score);
    match met_score(meeting.join, meeting.how, old, score)? {
        None => Ok(()),
        Some(score) => put_score(alloc, now, member, score),
    }
}

// The same of a member as an element.
fn add_element(
    alloc: Global,
    meeting: Meeting,
    before: &Sums,
    now: &mut Sums,
    element: Element<'_>,
    score: i64,
) -> Result<(), Memory>
    ensures { OnOk result
        (gathered now.new ≡ put_if (gathered now.old) (element_text element.entry)
        (met_with meeting.join meeting.how (get (asked_of meeting.join (gathered before.now) (gathered now.old)) (element_text element.entry)) (Some (meeting.weight *ℤ score)))) }
{
    let member = bytes_of(alloc, element)?;
    add_score(alloc, meeting, before, now, member.as_slice(), score)
}

// Meets the members of a sorted set.
fn add_zset<B: BlockStore>(
    alloc: Global,
    store: &B,
    zset: &Scored,
    meeting: Meeting,
    before: &Sums,
    now: &mut Sums,
) -> Result<(), Memory>
    requires sound { IsScored (B.blocks store.now) zset.now }
    requires fresh { IsFresh meeting.join (gathered now.old) }
    ensures { OnOk result
        ((member : List ℕ) → get (gathered now.new) member ≡ met_with meeting.join meeting.how (get (asked_of meeting.join (gathered before.now) (gathered now.old)) member)
        (weighted meeting.weight (get (scores (B.blocks store.now) zset.now) member))) }
{
    for item in 0..zset.top() {
        if zset.is_entry(item) {
            let (element, score) = zset.at(store, item);
            add_element(alloc, meeting, before, now, element, score)?;
        }
    }
    Ok(())
}

// Meets the members of a set, which have the score 1.
fn add_set<B: BlockStore>(
    alloc: Global,
    store: &B,
    set: &Members,
    meeting: Meeting,
    before: &Sums,
    now: &mut Sums,
) -> Result<(), Memory>
    requires sound { IsMembers (B.blocks store.now) set.now }
    requires fresh { IsFresh meeting.join (gathered now.old) }
    ensures { OnOk result
        ((member : List ℕ) → get (gathered now.new) member ≡ met_with meeting.join meeting.how (get (asked_of meeting.join (gathered before.now) (gathered now.old)) member)
        (weighted meeting.weight (get (one_each (members (B.blocks store.now) set.now)) member))) }
{
    for item in 0..set.top() {
        if set.is_entry(item) {
            add_element(alloc, meeting, before, now, set.at(store, item), 1)?;
        }
    }
    Ok(())
}

// Takes out the scores before a source, where only members that it has go on.
fn begin(alloc: Global, join: ScoreJoin, all: &mut Sums) -> Sums
    ensures fresh { IsFresh join (gathered all.new) }
    ensures all { asked_of join (gathered result) (gathered all.new) ≡ gathered all.old }
{
    match join {
        ScoreJoin::Union => Sums::new(alloc),
        ScoreJoin::Inter => mem::replace(all, Sums::new(alloc)),
    }
}

/// Meets what stands at a key: a sorted set, or a set, whose members have the score 1. Another value, or none, has no member.
pub fn add_at<B: BlockStore>(
    keyspace: &Keyspace<B>,
    at: &Ctx,
    key: &[u8],
    meeting: Meeting,
    all: &mut Sums,
) -> Result<(), Memory>
    requires ready { Ready B.blocks keyspace.now at.now }
    ensures { OnOk result
        ((member : List ℕ) → get (gathered all.new) member ≡ met_with meeting.join meeting.how (get (gathered all.old) member)
        (weighted meeting.weight (get (scores_at (visible B.blocks keyspace.now at.now) key.now) member))) }
{
    let alloc = keyspace.alloc();
    let before = begin(alloc, meeting.join, all);
    match zset_at(keyspace, at, key) {
        Look::Missing => Ok(()),
        Look::There(zset) => add_zset(alloc, &keyspace.store, zset, meeting, &before, all),
        Look::Other => match set_at(keyspace, at, key) {
            Look::Missing => Ok(()),
            Look::Other => Ok(()),
            Look::There(set) => add_set(alloc, &keyspace.store, set, meeting, &before, all),
        },
    }
}
