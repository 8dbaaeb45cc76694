//! The command that tells the place of a member.

ghost use Rattle.std.specs.Prelude.{◌≡◌, ◌∷◌, ◌++◌, [], pos, IfOk, OnOk};
ghost use Rattle.int_text.specs.Decimal.{canonical};
ghost use Rattle.zset_object.specs.Scored.{IsScored, scores};
ghost use Rattle.plain_world.specs.declared.reply.Part.TheVariants as replies;
ghost use Rattle.plain_model.specs.ZsetSteps.{met, ranked, place_from, tell_place};
ghost use Rattle.plain_model.specs.declared.zset_command.ZsetCommand.TheVariants as zsets;
ghost use Rattle.keyspace.specs.Commands.{Ready, visible};
ghost use Rattle.cmd_zsets.specs.Found.{Gives};

use crate::look::zset_at;
use crate::reading::{array_of, score_text};
use crate::spans::rank_met;
use blocks::BlockStore;
use keyspace::{Keyspace, Look, count_reply, reply_number};
use plain_model::{Ctx, Direction, Memory, Part, Parts, Refusal, Reply};
use std::alloc::Global;
use zset_object::Scored;

// Where a member is met, and its score.
fn place_of<B: BlockStore>(
    store: &B,
    zset: &Scored,
    member: &[u8],
    from: Direction,
) -> Option<(usize, i64)>
    requires sound { IsScored (B.blocks store.now) zset.now }
    ensures { result ≡ place_from 0 member.now (met from (ranked (scores (B.blocks store.now) zset.now))) }
{
    match zset.rank(store, member) {
        None => None,
        Some(rank) => match zset.score(store, member) {
            None => unreachable!(),
            Some(score) => Some((rank_met(from, zset.len(), rank), score)),
        },
    }
}

// The null array as a reply.
fn null_array(alloc: Global) -> Result<Reply, Memory>
    ensures { IfOk result (λ reply. reply ≡ replies.NullArray ∷ []) }
{
    let mut parts = Parts::new(alloc);
    parts.push(Part::NullArray)?;
    Ok(parts.into_reply())
}

// Adds a score.
fn push_score(alloc: Global, score: i64, parts: &mut Parts) -> Result<(), Memory>
    ensures { OnOk result (parts.new ≡ parts.old ++ replies.Bulk (canonical score) ∷ []) }
{
    let text = score_text(alloc, score)?;
    parts.push(Part::Bulk(text))
}

// Adds a place, and a score behind it.
fn push_place(alloc: Global, place: usize, score: i64, parts: &mut Parts) -> Result<(), Memory>
    ensures { OnOk result (parts.new ≡ parts.old ++ replies.Number (pos place) ∷ replies.Bulk (canonical score) ∷ []) }
{
    let number = reply_number(place)?;
    parts.push(Part::Number(number))?;
    push_score(alloc, score, parts)
}

// A place and a score as an array.
fn scored_place(alloc: Global, place: usize, score: i64) -> Result<Reply, Memory>
    ensures { IfOk result (λ reply. reply ≡ replies.Array 2 ∷ replies.Number (pos place) ∷ replies.Bulk (canonical score) ∷ []) }
{
    let mut parts = array_of(alloc, 2)?;
    push_place(alloc, place, score, &mut parts)?;
    Ok(parts.into_reply())
}

// A place, and the score beside it where that is asked for, or null.
fn place_reply(
    alloc: Global,
    place: Option<(usize, i64)>,
    with_score: bool,
) -> Result<Reply, Memory>
    ensures { IfOk result (λ reply. reply ≡ tell_place with_score place) }
{
    match place {
        None => {
            if with_score {
                return null_array(alloc);
            }
            Reply::null(alloc)
        }
        Some((rank, score)) => {
            if with_score {
                return scored_place(alloc, rank, score);
            }
            count_reply(alloc, rank)
        }
    }
}

/// `ZRANK key member [WITHSCORE]` and ZREVRANK: how many members are met before this one, and its score where that is asked for, or
/// null.
#[tactic(auto, using(crate::proofs::Looking::refused_other))]
pub fn zrank<B: BlockStore>(
    keyspace: &Keyspace<B>,
    at: &Ctx,
    key: &[u8],
    member: &[u8],
    from: Direction,
    with_score: bool,
) -> Result<Reply, Memory>
    requires ready { Ready B.blocks keyspace.now at.now }
    ensures gives { Gives B.blocks keyspace.now keyspace.now at.now (zsets.ZRank key.now member.now from with_score) result }
{
    let alloc = keyspace.alloc();
    match zset_at(keyspace, at, key) {
        Look::Missing => place_reply(alloc, None, with_score),
        Look::Other => Reply::refused(alloc, Refusal::WrongType),
        Look::There(zset) => {
            let place = place_of(&keyspace.store, zset, member, from);
            place_reply(alloc, place, with_score)
        }
    }
}
