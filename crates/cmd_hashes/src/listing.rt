//! Commands that list a hash.

ghost use Rattle.std.specs.Prelude.{◌≡◌, ◌++◌, Some, IfOk, OnOk};
ghost use Rattle.std.specs.List.{flat_map};
ghost use Rattle.listpack.specs.Element.{element_text};
ghost use Rattle.hash_object.specs.Fields.{IsFields, fields, listed};
ghost use Rattle.plain_world.specs.Worlds.{look};
ghost use Rattle.plain_model.specs.OfType.{hash_in, may_tell};
ghost use Rattle.plain_model.specs.HashSteps.{TellsFields, may_hashes};
ghost use Rattle.plain_model.specs.declared.hash_command.HashCommand.TheVariants as hashes;
ghost use Rattle.keyspace.specs.Commands.{Ready, visible};
ghost use Rattle.cmd_hashes.specs.Listed.{replies_of, telling, told_of};

use crate::look::hash_at;
use blocks::BlockStore;
use hash_object::Fields;
use keyspace::{Keyspace, Look, bytes_of};
use listpack::Element;
use plain_model::{Ctx, Memory, Part, Parts, Refusal, Reply};
use std::alloc::{AllocError, Global};

/// What is told of each field of a hash.
#[derive(Clone, Copy)]
pub enum Told {
    OnlyFields,
    OnlyValues,
    Both,
}

/// How many replies tell of so many fields. Too many are want of memory.
pub fn reply_count(told: Told, len: usize) -> Result<u64, Memory>
    ensures { IfOk result (λ count. count ≡ replies_of told len) }
{
    match told {
        Told::OnlyFields | Told::OnlyValues => Ok(len as u64),
        Told::Both => match len.checked_mul(2) {
            Some(count) => Ok(count as u64),
            None => Err(AllocError),
        },
    }
}

/// Adds what is told of a field and its value.
pub fn push_told(
    alloc: Global,
    told: Told,
    field: Element<'_>,
    value: Element<'_>,
    parts: &mut Parts,
) -> Result<(), Memory>
    ensures { OnOk result (parts.new ≡ parts.old ++ told_of told (element_text field.entry, element_text value.entry)) }
{
    match told {
        Told::OnlyFields => parts.push(Part::Bulk(bytes_of(alloc, field)?)),
        Told::OnlyValues => parts.push(Part::Bulk(bytes_of(alloc, value)?)),
        Told::Both => {
            parts.push(Part::Bulk(bytes_of(alloc, field)?))?;
            parts.push(Part::Bulk(bytes_of(alloc, value)?))
        }
    }
}

// Adds what is told of each field of a hash once, in the hash's own order. They are met in one pass.
fn push_fields<B: BlockStore>(
    alloc: Global,
    store: &B,
    hash: &Fields,
    told: Told,
    parts: &mut Parts,
) -> Result<(), Memory>
    requires sound { IsFields (B.blocks store.now) hash.now }
    ensures { OnOk result (parts.new ≡ parts.old ++ flat_map (told_of told) (listed (B.blocks store.now) hash.now)) }
{
    let count = hash.len();
    let mut place = hash.first(store);
    for index in 0..count {
        match place {
            None => unreachable!(),
            Some(cursor) => {
                let (field, value) = hash.pair(store, cursor);
                push_told(alloc, told, field, value, parts)?;
                place = hash.next(store, cursor);
            }
        }
    }
    Ok(())
}

// What is told of each field of a hash, as an array.
fn fields_reply<B: BlockStore>(
    alloc: Global,
    store: &B,
    hash: &Fields,
    told: Told,
) -> Result<Reply, Memory>
    requires sound { IsFields (B.blocks store.now) hash.now }
    ensures { IfOk result (λ reply. TellsFields (telling told) (Some (fields (B.blocks store.now) hash.now)) reply) }
{
    let mut parts = Parts::new(alloc);
    parts.push(Part::Array(reply_count(told, hash.len())?))?;
    push_fields(alloc, store, hash, told, &mut parts)?;
    Ok(parts.into_reply())
}

// What is told of each field of the hash at a key, as an array, which is empty where there is no hash.
fn tell_fields<B: BlockStore>(
    keyspace: &Keyspace<B>,
    at: &Ctx,
    key: &[u8],
    told: Told,
) -> Result<Reply, Memory>
    requires ready { Ready B.blocks keyspace.now at.now }
    ensures { IfOk result
        (λ reply. may_tell hash_in (visible B.blocks keyspace.now at.now) (look (visible B.blocks keyspace.now at.now) key.now) (TellsFields (telling told)) reply
        (visible B.blocks keyspace.now at.now)) }
{
    let alloc = keyspace.alloc();
    match hash_at(keyspace, at, key) {
        Look::Missing => {
            let none = Fields::new(alloc, keyspace.limits(), keyspace.seed());
            fields_reply(alloc, &keyspace.store, &none, told)
        }
        Look::Other => Reply::refused(alloc, Refusal::WrongType),
        Look::There(hash) => fields_reply(alloc, &keyspace.store, hash, told),
    }
}

/// `HKEYS key`: an array of all fields, each once, in any order. It is empty where there is no hash.
pub fn hkeys<B: BlockStore>(keyspace: &Keyspace<B>, at: &Ctx, key: &[u8]) -> Result<Reply, Memory>
    requires ready { Ready B.blocks keyspace.now at.now }
    ensures gives { IfOk result (λ reply. may_hashes keyspace.now.bases.seed (visible B.blocks keyspace.now at.now) (hashes.HKeys key.now) reply (visible B.blocks keyspace.now at.now)) }
{
    tell_fields(keyspace, at, key, Told::OnlyFields)
}

/// `HVALS key`: an array of the values of all fields, in any order. It is empty where there is no hash.
pub fn hvals<B: BlockStore>(keyspace: &Keyspace<B>, at: &Ctx, key: &[u8]) -> Result<Reply, Memory>
    requires ready { Ready B.blocks keyspace.now at.now }
    ensures gives { IfOk result (λ reply. may_hashes keyspace.now.bases.seed (visible B.blocks keyspace.now at.now) (hashes.HVals key.now) reply (visible B.blocks keyspace.now at.now)) }
{
    tell_fields(keyspace, at, key, Told::OnlyValues)
}

/// `HGETALL key`: an array of all fields, each once and followed by its value, in any order. It is empty where there is no hash.
pub fn hgetall<B: BlockStore>(keyspace: &Keyspace<B>, at: &Ctx, key: &[u8]) -> Result<Reply, Memory>
    requires ready { Ready B.blocks keyspace.now at.now }
    ensures gives { IfOk result (λ reply. may_hashes keyspace.now.bases.seed (visible B.blocks keyspace.now at.now) (hashes.HGetAll key.now) reply (visible B.blocks keyspace.now at.now)) }
{
    tell_fields(keyspace, at, key, Told::Both)
}
