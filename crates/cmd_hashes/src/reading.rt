//! Commands that read hashes.

ghost use Rattle.std.specs.Prelude.{◌≡◌, ◌∷◌, ◌++◌, [], length, map, is_some, IfSome, IfOk, OnOk};
ghost use Rattle.std.specs.FinMap.{get};
ghost use Rattle.hash_object.specs.Fields.{IsFields, fields};
ghost use Rattle.plain_world.specs.declared.reply.Part.TheVariants as replies;
ghost use Rattle.plain_model.specs.HashSteps.{value_or_null, value_length};
ghost use Rattle.plain_model.specs.declared.hash_command.HashCommand.TheVariants as hashes;
ghost use Rattle.keyspace.specs.Commands.{Ready, visible};
ghost use Rattle.cmd_hashes.specs.Found.{Gives, fields_in, values_of};

use crate::look::hash_at;
use blocks::BlockStore;
use hash_object::Fields;
use keyspace::{Keyspace, Look, bytes_of, count_reply, length_of};
use plain_model::{Ctx, Memory, Part, Parts, Refusal, Reply, Word};
use std::alloc::Global;

// The value of a field, or null, as a part of a reply.
#[tactic(auto, using(crate::proofs::Looking::no_value))]
fn value_part<B: BlockStore>(
    alloc: Global,
    store: &B,
    hash: Option<&Fields>,
    field: &[u8],
) -> Result<Part, Memory>
    requires sound { IfSome hash (λ h. IsFields (B.blocks store.now) h.now) }
    ensures { IfOk result (λ part. part ≡ value_or_null (get (fields_in (B.blocks store.now) hash.entry) field.now)) }
{
    match hash {
        None => Ok(Part::Null),
        Some(hash) => match hash.get(store, field) {
            None => Ok(Part::Null),
            Some(value) => Ok(Part::Bulk(bytes_of(alloc, value)?)),
        },
    }
}

// The value of a field, or null, as a reply.
fn value_reply<B: BlockStore>(
    alloc: Global,
    store: &B,
    hash: &Fields,
    field: &[u8],
) -> Result<Reply, Memory>
    requires sound { IsFields (B.blocks store.now) hash.now }
    ensures { IfOk result (λ reply. reply ≡ value_or_null (get (fields (B.blocks store.now) hash.now) field.now) ∷ []) }
{
    match hash.get(store, field) {
        None => Reply::null(alloc),
        Some(value) => Reply::bulk(alloc, bytes_of(alloc, value)?),
    }
}

/// `HGET key field`: the value of a field, or null.
#[tactic(auto, using(crate::proofs::Looking::refused_other))]
pub fn hget<B: BlockStore>(
    keyspace: &Keyspace<B>,
    at: &Ctx,
    key: &[u8],
    field: &[u8],
) -> Result<Reply, Memory>
    requires ready { Ready B.blocks keyspace.now at.now }
    ensures gives { Gives B.blocks keyspace.now keyspace.now at.now (hashes.HGet key.now field.now) result }
{
    let alloc = keyspace.alloc();
    match hash_at(keyspace, at, key) {
        Look::Missing => Reply::null(alloc),
        Look::Other => Reply::refused(alloc, Refusal::WrongType),
        Look::There(hash) => value_reply(alloc, &keyspace.store, hash, field),
    }
}

// Adds the value of each field, or null.
fn push_values<B: BlockStore>(
    alloc: Global,
    store: &B,
    hash: Option<&Fields>,
    names: &[Word<'_>],
    parts: &mut Parts,
) -> Result<(), Memory>
    requires sound { IfSome hash (λ h. IsFields (B.blocks store.now) h.now) }
    ensures { OnOk result (parts.new ≡ parts.old ++ values_of (fields_in (B.blocks store.now) hash.entry) names.now) }
{
    let mut rest = names;
    'names: while let [name, others @ ..] = rest {
        parts.push(value_part(alloc, store, hash, name.as_slice())?)?;
        rest = others;
    }
    Ok(())
}

// The value of each field, or null, as an array.
fn values_reply<B: BlockStore>(
    alloc: Global,
    store: &B,
    hash: Option<&Fields>,
    names: &[Word<'_>],
) -> Result<Reply, Memory>
    requires sound { IfSome hash (λ h. IsFields (B.blocks store.now) h.now) }
    ensures { IfOk result (λ reply. reply ≡ replies.Array (length names.now) ∷ values_of (fields_in (B.blocks store.now) hash.entry) names.now) }
{
    let mut parts = Parts::new(alloc);
    parts.push(Part::Array(names.len() as u64))?;
    push_values(alloc, store, hash, names, &mut parts)?;
    Ok(parts.into_reply())
}

/// `HMGET key field..`: an array with the value of each field, or null.
#[tactic(auto, using(crate::proofs::Looking::refused_other))]
pub fn hmget<B: BlockStore>(
    keyspace: &Keyspace<B>,
    at: &Ctx,
    key: &[u8],
    fields: &[Word<'_>],
) -> Result<Reply, Memory>
    requires ready { Ready B.blocks keyspace.now at.now }
    ensures gives { Gives B.blocks keyspace.now keyspace.now at.now (hashes.HMGet key.now fields.now) result }
{
    let alloc = keyspace.alloc();
    match hash_at(keyspace, at, key) {
        Look::Missing => values_reply(alloc, &keyspace.store, None, fields),
        Look::Other => Reply::refused(alloc, Refusal::WrongType),
        Look::There(hash) => values_reply(alloc, &keyspace.store, Some(hash), fields),
    }
}

/// `HEXISTS key field`: 1 where the field is there, or else 0.
#[tactic(auto, using(crate::proofs::Looking::refused_other))]
pub fn hexists<B: BlockStore>(
    keyspace: &Keyspace<B>,
    at: &Ctx,
    key: &[u8],
    field: &[u8],
) -> Result<Reply, Memory>
    requires ready { Ready B.blocks keyspace.now at.now }
    ensures gives { Gives B.blocks keyspace.now keyspace.now at.now (hashes.HExists key.now field.now) result }
{
    let alloc = keyspace.alloc();
    match hash_at(keyspace, at, key) {
        Look::Missing => Reply::number(alloc, 0),
        Look::Other => Reply::refused(alloc, Refusal::WrongType),
        Look::There(hash) => match hash.get(&keyspace.store, field) {
            None => Reply::number(alloc, 0),
            Some(_) => Reply::number(alloc, 1),
        },
    }
}

/// `HLEN key`: the number of fields, 0 where there is no hash.
#[tactic(auto, using(crate::proofs::Looking::refused_other))]
pub fn hlen<B: BlockStore>(keyspace: &Keyspace<B>, at: &Ctx, key: &[u8]) -> Result<Reply, Memory>
    requires ready { Ready B.blocks keyspace.now at.now }
    ensures gives { Gives B.blocks keyspace.now keyspace.now at.now (hashes.HLen key.now) result }
{
    let alloc = keyspace.alloc();
    match hash_at(keyspace, at, key) {
        Look::Missing => count_reply(alloc, 0),
        Look::Other => Reply::refused(alloc, Refusal::WrongType),
        Look::There(hash) => count_reply(alloc, hash.len()),
    }
}

// How many bytes the value of a field has, 0 where there is none.
fn value_size<B: BlockStore>(store: &B, hash: &Fields, field: &[u8]) -> usize
    requires sound { IsFields (B.blocks store.now) hash.now }
    ensures { result ≡ value_length (get (fields (B.blocks store.now) hash.now) field.now) }
{
    match hash.get(store, field) {
        None => 0,
        Some(value) => length_of(value),
    }
}

/// `HSTRLEN key field`: the length of a field's value in bytes, 0 where there is none.
#[tactic(auto, using(crate::proofs::Looking::refused_other))]
pub fn hstrlen<B: BlockStore>(
    keyspace: &Keyspace<B>,
    at: &Ctx,
    key: &[u8],
    field: &[u8],
) -> Result<Reply, Memory>
    requires ready { Ready B.blocks keyspace.now at.now }
    ensures gives { Gives B.blocks keyspace.now keyspace.now at.now (hashes.HStrLen key.now field.now) result }
{
    let alloc = keyspace.alloc();
    match hash_at(keyspace, at, key) {
        Look::Missing => count_reply(alloc, 0),
        Look::Other => Reply::refused(alloc, Refusal::WrongType),
        Look::There(hash) => count_reply(alloc, value_size(&keyspace.store, hash, field)),
    }
}
