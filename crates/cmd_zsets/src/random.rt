//! The command that picks members by chance.

ghost use Rattle.std.specs.Prelude.{◌≡◌, ◌++◌, [], ◌∷◌, ℕ, Some, IsSome, IfOk, OnOk};
ghost use Rattle.std.specs.List.{Contains};
ghost use Rattle.zset_object.specs.Scored.{IsScored, scores};
ghost use Rattle.zset_object.specs.Items.{pair_at};
ghost use Rattle.plain_model.specs.ZsetSteps.{PicksMembers, listed, may_zsets};
ghost use Rattle.plain_model.specs.declared.zset_command.ZsetCommand.TheVariants as zsets;
ghost use Rattle.keyspace.specs.Commands.{Ready, visible};
ghost use Rattle.cmd_zsets.specs.Spans.{told_all};
ghost use Rattle.cmd_zsets.specs.Picked.{pairs_of, first_told};

use crate::look::zset_at;
use crate::spans::{array_of_members, push_member};
use blocks::BlockStore;
use keyspace::{Keyspace, Look, bytes_of};
use picking::pick;
use plain_model::{Ctx, Memory, Parts, Refusal, Reply};
use rand_pcg::Pcg32;
use std::alloc::Global;
use zset_object::Scored;

// Adds the member of an item number, followed by its score where that is asked for.
fn push_item<B: BlockStore>(
    alloc: Global,
    store: &B,
    zset: &Scored,
    with_scores: bool,
    item: usize,
    parts: &mut Parts,
) -> Result<(), Memory>
    requires sound { IsScored (B.blocks store.now) zset.now }
    requires real { IsSome (pair_at (B.blocks store.now) zset.now item) }
    ensures { OnOk result (parts.new ≡ parts.old ++ told_all with_scores (pairs_of (λ at. pair_at (B.blocks store.now) zset.now at) (item ∷ []))) }
{
    let (member, score) = zset.at(store, item);
    push_member(alloc, member, score, with_scores, parts)
}

// Adds the members of item numbers, each followed by its score where that is asked for.
fn push_items<B: BlockStore>(
    alloc: Global,
    store: &B,
    zset: &Scored,
    with_scores: bool,
    items: &[usize],
    parts: &mut Parts,
) -> Result<(), Memory>
    requires sound { IsScored (B.blocks store.now) zset.now }
    requires real { (at : ℕ) → Contains items.now at → IsSome (pair_at (B.blocks store.now) zset.now at) }
    ensures { OnOk result (parts.new ≡ parts.old ++ told_all with_scores (pairs_of (λ at. pair_at (B.blocks store.now) zset.now at) items.now)) }
{
    for item in items {
        push_item(alloc, store, zset, with_scores, *item, parts)?;
    }
    Ok(())
}

// The members of item numbers as an array, each followed by its score where that is asked for.
fn items_reply<B: BlockStore>(
    alloc: Global,
    store: &B,
    zset: &Scored,
    with_scores: bool,
    items: &[usize],
) -> Result<Reply, Memory>
    requires sound { IsScored (B.blocks store.now) zset.now }
    requires real { (at : ℕ) → Contains items.now at → IsSome (pair_at (B.blocks store.now) zset.now at) }
    ensures { IfOk result (λ reply. reply ≡ listed with_scores (pairs_of (λ at. pair_at (B.blocks store.now) zset.now at) items.now)) }
{
    let mut parts = array_of_members(alloc, items.len(), with_scores)?;
    push_items(alloc, store, zset, with_scores, items, &mut parts)?;
    Ok(parts.into_reply())
}

// The member of the first item number, or null where there is none.
fn first_reply<B: BlockStore>(
    alloc: Global,
    store: &B,
    zset: &Scored,
    items: &[usize],
) -> Result<Reply, Memory>
    requires sound { IsScored (B.blocks store.now) zset.now }
    requires real { (at : ℕ) → Contains items.now at → IsSome (pair_at (B.blocks store.now) zset.now at) }
    ensures { IfOk result (λ reply. reply ≡ first_told (pairs_of (λ at. pair_at (B.blocks store.now) zset.now at) items.now)) }
{
    match items.split_first() {
        None => Reply::null(alloc),
        Some((item, _)) => {
            let (member, _) = zset.at(store, *item);
            Reply::bulk(alloc, bytes_of(alloc, member)?)
        }
    }
}

// Members picked by chance, told.
fn random_reply<B: BlockStore>(
    alloc: Global,
    store: &B,
    zset: &Scored,
    n: Option<i64>,
    with_scores: bool,
    dice: &mut Pcg32,
) -> Result<Reply, Memory>
    requires sound { IsScored (B.blocks store.now) zset.now }
    ensures { IfOk result (λ reply. PicksMembers n with_scores (Some (scores (B.blocks store.now) zset.now)) reply) }
{
    let items = pick(alloc, zset, n, dice)?;
    match n {
        None => first_reply(alloc, store, zset, &items),
        Some(_) => items_reply(alloc, store, zset, with_scores, &items),
    }
}

/// `ZRANDMEMBER key [n [WITHSCORES]]`: a member, or null where there is no sorted set; with a number an array of at most so many
/// different members, or for a number below 0 of as many as it says, which may repeat, each followed by its score where that is
/// asked for.
pub fn zrandmember<B: BlockStore>(
    keyspace: &Keyspace<B>,
    at: &Ctx,
    key: &[u8],
    n: Option<i64>,
    with_scores: bool,
    dice: &mut Pcg32,
) -> Result<Reply, Memory>
    requires ready { Ready B.blocks keyspace.now at.now }
    ensures gives { IfOk result
        (λ reply. may_zsets keyspace.now.bases.seed (visible B.blocks keyspace.now at.now) (zsets.ZRandMember key.now n with_scores) reply (visible B.blocks keyspace.now at.now)) }
{
    let alloc = keyspace.alloc();
    match zset_at(keyspace, at, key) {
        Look::Missing => {
            let none = Scored::new(alloc, keyspace.limits(), keyspace.seed());
            random_reply(alloc, &keyspace.store, &none, n, with_scores, dice)
        }
        Look::Other => Reply::refused(alloc, Refusal::WrongType),
        Look::There(zset) => random_reply(alloc, &keyspace.store, zset, n, with_scores, dice),
    }
}
