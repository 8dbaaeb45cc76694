//! Commands that read scores.

ghost use Rattle.std.specs.Prelude.{◌≡◌, ◌∷◌, ◌++◌, [], length, IfSome, IfOk, OnOk};
ghost use Rattle.std.specs.FinMap.{get};
ghost use Rattle.int_text.specs.Decimal.{canonical};
ghost use Rattle.zset_object.specs.Scored.{IsScored, scores};
ghost use Rattle.plain_world.specs.declared.reply.Part.TheVariants as replies;
ghost use Rattle.plain_model.specs.ZsetSteps.{score_or_null};
ghost use Rattle.plain_model.specs.declared.zset_command.ZsetCommand.TheVariants as zsets;
ghost use Rattle.keyspace.specs.Commands.{Ready, visible};
ghost use Rattle.cmd_zsets.specs.Found.{Gives, scores_in};
ghost use Rattle.cmd_zsets.specs.Spans.{scores_told};

use crate::look::zset_at;
use blocks::BlockStore;
use itoa::Buffer;
use keyspace::{Keyspace, Look, count_reply};
use plain_model::{Bytes, Ctx, Memory, Part, Parts, Refusal, Reply, Word};
use std::alloc::Global;
use zset_object::Scored;

/// The decimal text of a score.
pub fn score_text(alloc: Global, score: i64) -> Result<Bytes, Memory>
    ensures { IfOk result (λ bytes. bytes ≡ canonical score) }
{
    Bytes::new(alloc, Buffer::new().format(score).as_bytes())
}

/// The beginning of an array of so many replies.
pub fn array_of(alloc: Global, count: u64) -> Result<Parts, Memory>
    ensures { IfOk result (λ parts. parts ≡ replies.Array count ∷ []) }
{
    let mut parts = Parts::new(alloc);
    parts.push(Part::Array(count))?;
    Ok(parts)
}

/// `ZCARD key`: the number of members, 0 where there is no sorted set.
#[tactic(auto, using(crate::proofs::Looking::refused_other))]
pub fn zcard<B: BlockStore>(keyspace: &Keyspace<B>, at: &Ctx, key: &[u8]) -> Result<Reply, Memory>
    requires ready { Ready B.blocks keyspace.now at.now }
    ensures gives { Gives B.blocks keyspace.now keyspace.now at.now (zsets.ZCard key.now) result }
{
    let alloc = keyspace.alloc();
    match zset_at(keyspace, at, key) {
        Look::Missing => count_reply(alloc, 0),
        Look::Other => Reply::refused(alloc, Refusal::WrongType),
        Look::There(zset) => count_reply(alloc, zset.len()),
    }
}

// The score of a member, or null, as a reply.
fn score_reply<B: BlockStore>(
    alloc: Global,
    store: &B,
    zset: &Scored,
    member: &[u8],
) -> Result<Reply, Memory>
    requires sound { IsScored (B.blocks store.now) zset.now }
    ensures { IfOk result (λ reply. reply ≡ score_or_null (get (scores (B.blocks store.now) zset.now) member.now) ∷ []) }
{
    match zset.score(store, member) {
        None => Reply::null(alloc),
        Some(score) => Reply::bulk(alloc, score_text(alloc, score)?),
    }
}

/// `ZSCORE key member`: the score of a member, or null.
#[tactic(auto, using(crate::proofs::Looking::refused_other))]
pub fn zscore<B: BlockStore>(
    keyspace: &Keyspace<B>,
    at: &Ctx,
    key: &[u8],
    member: &[u8],
) -> Result<Reply, Memory>
    requires ready { Ready B.blocks keyspace.now at.now }
    ensures gives { Gives B.blocks keyspace.now keyspace.now at.now (zsets.ZScore key.now member.now) result }
{
    let alloc = keyspace.alloc();
    match zset_at(keyspace, at, key) {
        Look::Missing => Reply::null(alloc),
        Look::Other => Reply::refused(alloc, Refusal::WrongType),
        Look::There(zset) => score_reply(alloc, &keyspace.store, zset, member),
    }
}

// The score of a member, or null, as a part of a reply.
#[tactic(auto, using(crate::proofs::Looking::no_score))]
fn score_part<B: BlockStore>(
    alloc: Global,
    store: &B,
    zset: Option<&Scored>,
    member: &[u8],
) -> Result<Part, Memory>
    requires sound { IfSome zset (λ z. IsScored (B.blocks store.now) z.now) }
    ensures { IfOk result (λ part. part ≡ score_or_null (get (scores_in (B.blocks store.now) zset.entry) member.now)) }
{
    match zset {
        None => Ok(Part::Null),
        Some(zset) => match zset.score(store, member) {
            None => Ok(Part::Null),
            Some(score) => Ok(Part::Bulk(score_text(alloc, score)?)),
        },
    }
}

// Adds the score of each member, or null.
fn push_scores<B: BlockStore>(
    alloc: Global,
    store: &B,
    zset: Option<&Scored>,
    members: &[Word<'_>],
    parts: &mut Parts,
) -> Result<(), Memory>
    requires sound { IfSome zset (λ z. IsScored (B.blocks store.now) z.now) }
    ensures { OnOk result (parts.new ≡ parts.old ++ scores_told (scores_in (B.blocks store.now) zset.entry) members.now) }
{
    let mut rest = members;
    'members: while let [member, others @ ..] = rest {
        parts.push(score_part(alloc, store, zset, member.as_slice())?)?;
        rest = others;
    }
    Ok(())
}

// The score of each member, or null, as an array.
fn scores_reply<B: BlockStore>(
    alloc: Global,
    store: &B,
    zset: Option<&Scored>,
    members: &[Word<'_>],
) -> Result<Reply, Memory>
    requires sound { IfSome zset (λ z. IsScored (B.blocks store.now) z.now) }
    ensures { IfOk result (λ reply. reply ≡ replies.Array (length members.now) ∷ scores_told (scores_in (B.blocks store.now) zset.entry) members.now) }
{
    let mut parts = array_of(alloc, members.len() as u64)?;
    push_scores(alloc, store, zset, members, &mut parts)?;
    Ok(parts.into_reply())
}

/// `ZMSCORE key member..`: an array with the score of each member, or null.
#[tactic(auto, using(crate::proofs::Looking::refused_other))]
pub fn zmscore<B: BlockStore>(
    keyspace: &Keyspace<B>,
    at: &Ctx,
    key: &[u8],
    members: &[Word<'_>],
) -> Result<Reply, Memory>
    requires ready { Ready B.blocks keyspace.now at.now }
    ensures gives { Gives B.blocks keyspace.now keyspace.now at.now (zsets.ZMScore key.now members.now) result }
{
    let alloc = keyspace.alloc();
    match zset_at(keyspace, at, key) {
        Look::Missing => scores_reply(alloc, &keyspace.store, None, members),
        Look::Other => Reply::refused(alloc, Refusal::WrongType),
        Look::There(zset) => scores_reply(alloc, &keyspace.store, Some(zset), members),
    }
}
