//! The command that picks fields by chance.

ghost use Rattle.std.specs.Prelude.{◌≡◌, ◌++◌, ◌∷◌, ℕ, Some, IsSome, IfOk, OnOk, length};
ghost use Rattle.std.specs.List.{Contains, flat_map};
ghost use Rattle.hash_object.specs.Fields.{IsFields, fields};
ghost use Rattle.hash_object.specs.Items.{pair_at};
ghost use Rattle.plain_world.specs.declared.reply.Part.TheVariants as replies;
ghost use Rattle.plain_model.specs.HashSteps.{PicksFields, may_hashes};
ghost use Rattle.plain_model.specs.declared.hash_command.HashCommand.TheVariants as hashes;
ghost use Rattle.keyspace.specs.Commands.{Ready, visible};
ghost use Rattle.cmd_hashes.specs.Listed.{replies_of, told_of};
ghost use Rattle.cmd_hashes.specs.Picked.{pairs_of, first_told, told_with};

use crate::listing::{Told, push_told, reply_count};
use crate::look::hash_at;
use blocks::BlockStore;
use hash_object::Fields;
use keyspace::{Keyspace, Look, bytes_of};
use picking::pick;
use plain_model::{Ctx, Memory, Part, Parts, Refusal, Reply};
use rand_pcg::Pcg32;
use std::alloc::Global;

// Adds what is told of the fields of item numbers.
fn push_items<B: BlockStore>(
    alloc: Global,
    store: &B,
    hash: &Fields,
    told: Told,
    items: &[usize],
    parts: &mut Parts,
) -> Result<(), Memory>
    requires sound { IsFields (B.blocks store.now) hash.now }
    requires real { (at : ℕ) → Contains items.now at → IsSome (pair_at (B.blocks store.now) hash.now at) }
    ensures { OnOk result (parts.new ≡ parts.old ++ flat_map (told_of told) (pairs_of (λ at. pair_at (B.blocks store.now) hash.now at) items.now)) }
{
    for item in items {
        let (field, value) = hash.at(store, *item);
        push_told(alloc, told, field, value, parts)?;
    }
    Ok(())
}

// What is told of the fields of item numbers, as an array.
fn items_reply<B: BlockStore>(
    alloc: Global,
    store: &B,
    hash: &Fields,
    told: Told,
    items: &[usize],
) -> Result<Reply, Memory>
    requires sound { IsFields (B.blocks store.now) hash.now }
    requires real { (at : ℕ) → Contains items.now at → IsSome (pair_at (B.blocks store.now) hash.now at) }
    ensures { IfOk result (λ reply. reply ≡ replies.Array (replies_of told (length items.now)) ∷ flat_map (told_of told) (pairs_of (λ at. pair_at (B.blocks store.now) hash.now at) items.now)) }
{
    let mut parts = Parts::new(alloc);
    parts.push(Part::Array(reply_count(told, items.len())?))?;
    push_items(alloc, store, hash, told, items, &mut parts)?;
    Ok(parts.into_reply())
}

// The field of the first item number, or null where there is none.
fn first_reply<B: BlockStore>(
    alloc: Global,
    store: &B,
    hash: &Fields,
    items: &[usize],
) -> Result<Reply, Memory>
    requires sound { IsFields (B.blocks store.now) hash.now }
    requires real { (at : ℕ) → Contains items.now at → IsSome (pair_at (B.blocks store.now) hash.now at) }
    ensures { IfOk result (λ reply. reply ≡ first_told (pairs_of (λ at. pair_at (B.blocks store.now) hash.now at) items.now)) }
{
    match items.split_first() {
        None => Reply::null(alloc),
        Some((item, _)) => {
            let (field, _) = hash.at(store, *item);
            Reply::bulk(alloc, bytes_of(alloc, field)?)
        }
    }
}

// What is told of a field that was picked.
fn told_of_picks(with_values: bool) -> Told
    ensures { result ≡ told_with with_values }
{
    if with_values {
        Told::Both
    } else {
        Told::OnlyFields
    }
}

// Fields picked by chance, told.
fn random_reply<B: BlockStore>(
    alloc: Global,
    store: &B,
    hash: &Fields,
    n: Option<i64>,
    with_values: bool,
    dice: &mut Pcg32,
) -> Result<Reply, Memory>
    requires sound { IsFields (B.blocks store.now) hash.now }
    ensures { IfOk result (λ reply. PicksFields n with_values (Some (fields (B.blocks store.now) hash.now)) reply) }
{
    let items = pick(alloc, hash, n, dice)?;
    match n {
        None => first_reply(alloc, store, hash, &items),
        Some(_) => items_reply(alloc, store, hash, told_of_picks(with_values), &items),
    }
}

/// `HRANDFIELD key [n [WITHVALUES]]`: a field, or null where there is no hash; with a number an array of at most so many different
/// fields, or for a number below 0 of as many as it says, which may repeat, each followed by its value where that is asked for.
pub fn hrandfield<B: BlockStore>(
    keyspace: &Keyspace<B>,
    at: &Ctx,
    key: &[u8],
    n: Option<i64>,
    with_values: bool,
    dice: &mut Pcg32,
) -> Result<Reply, Memory>
    requires ready { Ready B.blocks keyspace.now at.now }
    ensures gives { IfOk result
        (λ reply. may_hashes keyspace.now.bases.seed (visible B.blocks keyspace.now at.now) (hashes.HRandField key.now n with_values) reply (visible B.blocks keyspace.now at.now)) }
{
    let alloc = keyspace.alloc();
    match hash_at(keyspace, at, key) {
        Look::Missing => {
            let none = Fields::new(alloc, keyspace.limits(), keyspace.seed());
            random_reply(alloc, &keyspace.store, &none, n, with_values, dice)
        }
        Look::Other => Reply::refused(alloc, Refusal::WrongType),
        Look::There(hash) => random_reply(alloc, &keyspace.store, hash, n, with_values, dice),
    }
}
