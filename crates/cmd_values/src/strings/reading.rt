//! Commands that read strings.

ghost use Rattle.std.specs.Prelude.{◌≡◌, ◌<◌, ◌++◌, List, ℕ, ℤ, IfOk, OnOk};
ghost use Rattle.plain_model.specs.StringSteps.{from_front, range};
ghost use Rattle.plain_model.specs.declared.command.StringCommand.TheVariants as strings;
ghost use Rattle.keyspace.specs.Commands.{Ready, KeepsTo, KeepsOrRefuses, visible};
ghost use Rattle.cmd_values.specs.Found.{Gives, value_at, values_at};

use crate::strings::look::{bytes_of, length_of, length_reply, old_value, text_at};
use blocks::BlockStore;
use keyspace::{Keyspace, Look};
use plain_model::{Bytes, Ctx, Memory, Part, Parts, Refusal, Reply, Word};

/// `GET key`: the value, or null.
#[tactic(auto, using(crate::proofs::StringLemmas::refused_other))]
pub fn get<B: BlockStore>(keyspace: &Keyspace<B>, at: &Ctx, key: &[u8]) -> Result<Reply, Memory>
    requires ready { Ready B.blocks keyspace.now at.now }
    ensures { Gives B.blocks keyspace.now keyspace.now at.now (strings.Get key.now) result }
{
    match old_value(keyspace, at, key)? {
        None => Reply::refused(keyspace.alloc(), Refusal::WrongType),
        Some(reply) => Ok(reply),
    }
}

/// `STRLEN key`: the length of the value in bytes, 0 where there is none.
#[tactic(auto, using(crate::proofs::StringLemmas::refused_other))]
pub fn strlen<B: BlockStore>(keyspace: &Keyspace<B>, at: &Ctx, key: &[u8]) -> Result<Reply, Memory>
    requires ready { Ready B.blocks keyspace.now at.now }
    ensures { Gives B.blocks keyspace.now keyspace.now at.now (strings.StrLen key.now) result }
{
    let alloc = keyspace.alloc();
    match text_at(keyspace, at, key) {
        Look::Missing => length_reply(alloc, 0),
        Look::Other => Reply::refused(alloc, Refusal::WrongType),
        Look::There(text) => length_reply(alloc, length_of(&keyspace.store, text)),
    }
}

// An index from the front: a negative one counts from the end, and what is still below 0 is 0.
fn index_from_front(len: usize, index: i64) -> usize
    ensures { result ≡ from_front len index }
{
    if index < 0 {
        return len.saturating_sub(index.unsigned_abs() as usize);
    }
    index as usize
}

// The bytes from index a to index b.
fn part_of(bytes: &[u8], a: i64, b: i64) -> &[u8]
    ensures { result.now ≡ range bytes.now a b }
{
    if a < 0 {
        if b < a {
            return &[];
        }
    }
    let first = index_from_front(bytes.len(), a);
    let end = index_from_front(bytes.len(), b).saturating_add(1);
    if end <= first {
        return &[];
    }
    if bytes.len() <= first {
        return &[];
    }
    &bytes[first..end.min(bytes.len())]
}

/// `GETRANGE key a b`: the bytes of the value from index a to index b, where a negative index counts from the end.
#[tactic(auto, using(crate::proofs::StringLemmas::refused_other))]
pub fn getrange<B: BlockStore>(
    keyspace: &Keyspace<B>,
    at: &Ctx,
    key: &[u8],
    a: i64,
    b: i64,
) -> Result<Reply, Memory>
    requires ready { Ready B.blocks keyspace.now at.now }
    ensures { Gives B.blocks keyspace.now keyspace.now at.now (strings.GetRange key.now a b) result }
{
    let alloc = keyspace.alloc();
    let mut room = [0; 20];
    match text_at(keyspace, at, key) {
        Look::Missing => Reply::bulk(alloc, Bytes::new(alloc, part_of(&[], a, b))?),
        Look::Other => Reply::refused(alloc, Refusal::WrongType),
        Look::There(text) => {
            let part = part_of(text.bytes(&keyspace.store, &mut room), a, b);
            Reply::bulk(alloc, Bytes::new(alloc, part)?)
        }
    }
}

// The string at a key as a part of a reply, or null where none stands.
#[tactic(auto, using(crate::proofs::StringLemmas::null_other))]
fn value_part<B: BlockStore>(keyspace: &Keyspace<B>, at: &Ctx, key: &[u8]) -> Result<Part, Memory>
    requires ready { Ready B.blocks keyspace.now at.now }
    ensures { IfOk result (λ part. part ≡ value_at (visible B.blocks keyspace.now at.now) key.now) }
{
    match text_at(keyspace, at, key) {
        Look::Missing | Look::Other => Ok(Part::Null),
        Look::There(text) => Ok(Part::Bulk(bytes_of(keyspace.alloc(), &keyspace.store, text)?)),
    }
}

// Adds the string at each key, or null.
fn push_values<B: BlockStore>(
    keyspace: &Keyspace<B>,
    at: &Ctx,
    keys: &[Word<'_>],
    parts: &mut Parts,
) -> Result<(), Memory>
    requires ready { Ready B.blocks keyspace.now at.now }
    ensures { OnOk result (parts.new ≡ parts.old ++ values_at (visible B.blocks keyspace.now at.now) keys.now) }
{
    let mut rest = keys;
    'keys: while let [key, others @ ..] = rest {
        parts.push(value_part(keyspace, at, key.as_slice())?)?;
        rest = others;
    }
    Ok(())
}

/// `MGET key..`: an array with the value of each key, or null where none stands.
pub fn mget<B: BlockStore>(
    keyspace: &Keyspace<B>,
    at: &Ctx,
    keys: &[Word<'_>],
) -> Result<Reply, Memory>
    requires ready { Ready B.blocks keyspace.now at.now }
    ensures { Gives B.blocks keyspace.now keyspace.now at.now (strings.MGet keys.now) result }
{
    let mut parts = Parts::new(keyspace.alloc());
    parts.push(Part::Array(keys.len() as u64))?;
    push_values(keyspace, at, keys, &mut parts)?;
    Ok(parts.into_reply())
}
