//! Commands that read sets.

ghost use Rattle.std.specs.Prelude.{◌≡◌, ◌++◌, ◌∷◌, length, IfOk, OnOk};
ghost use Rattle.set_object.specs.Members.{IsMembers, members};
ghost use Rattle.plain_world.specs.declared.reply.Part.TheVariants as replies;
ghost use Rattle.plain_model.specs.declared.set_command.SetCommand.TheVariants as sets;
ghost use Rattle.keyspace.specs.Commands.{Ready, visible};
ghost use Rattle.cmd_sets.specs.Found.{Gives, told_each};

use crate::look::{number_if, set_at};
use blocks::BlockStore;
use keyspace::{Keyspace, Look, count_reply};
use plain_model::{Ctx, Memory, Part, Parts, Refusal, Reply, Word};
use set_object::Members;
use std::alloc::Global;

/// `SCARD key`: the number of members, 0 where there is no set.
#[tactic(auto, using(crate::proofs::Looking::refused_other))]
pub fn scard<B: BlockStore>(keyspace: &Keyspace<B>, at: &Ctx, key: &[u8]) -> Result<Reply, Memory>
    requires ready { Ready B.blocks keyspace.now at.now }
    ensures gives { Gives B.blocks keyspace.now keyspace.now at.now (sets.SCard key.now) result }
{
    let alloc = keyspace.alloc();
    match set_at(keyspace, at, key) {
        Look::Missing => count_reply(alloc, 0),
        Look::Other => Reply::refused(alloc, Refusal::WrongType),
        Look::There(set) => count_reply(alloc, set.len()),
    }
}

/// `SISMEMBER key member`: 1 where it is a member, and else 0.
#[tactic(auto, using(crate::proofs::Looking::refused_other))]
pub fn sismember<B: BlockStore>(
    keyspace: &Keyspace<B>,
    at: &Ctx,
    key: &[u8],
    member: &[u8],
) -> Result<Reply, Memory>
    requires ready { Ready B.blocks keyspace.now at.now }
    ensures gives { Gives B.blocks keyspace.now keyspace.now at.now (sets.SIsMember key.now member.now) result }
{
    let alloc = keyspace.alloc();
    match set_at(keyspace, at, key) {
        Look::Missing => Reply::number(alloc, 0),
        Look::Other => Reply::refused(alloc, Refusal::WrongType),
        Look::There(set) => Reply::number(alloc, number_if(set.has(&keyspace.store, member))),
    }
}

// Adds for each word 1 where it is a member, and else 0.
fn push_each<B: BlockStore>(
    store: &B,
    set: &Members,
    words: &[Word<'_>],
    parts: &mut Parts,
) -> Result<(), Memory>
    requires { IsMembers (B.blocks store.now) set.now }
    ensures { OnOk result (parts.new ≡ parts.old ++ told_each (members (B.blocks store.now) set.now) words.now) }
{
    let mut rest = words;
    'words: while let [word, others @ ..] = rest {
        parts.push(Part::Number(number_if(set.has(store, word.as_slice()))))?;
        rest = others;
    }
    Ok(())
}

// For each word whether it is a member, as an array.
fn each_reply<B: BlockStore>(
    alloc: Global,
    store: &B,
    set: &Members,
    words: &[Word<'_>],
) -> Result<Reply, Memory>
    requires { IsMembers (B.blocks store.now) set.now }
    ensures { IfOk result (λ reply. reply ≡ replies.Array (length words.now) ∷ told_each (members (B.blocks store.now) set.now) words.now) }
{
    let mut reply = Parts::new(alloc);
    reply.push(Part::Array(words.len() as u64))?;
    push_each(store, set, words, &mut reply)?;
    Ok(reply.into_reply())
}

/// `SMISMEMBER key member..`: an array that tells for each word whether it is a member, 1 or 0.
#[tactic(auto, using(crate::proofs::Looking::refused_other))]
pub fn smismember<B: BlockStore>(
    keyspace: &Keyspace<B>,
    at: &Ctx,
    key: &[u8],
    members: &[Word<'_>],
) -> Result<Reply, Memory>
    requires ready { Ready B.blocks keyspace.now at.now }
    ensures gives { Gives B.blocks keyspace.now keyspace.now at.now (sets.SMIsMember key.now members.now) result }
{
    let alloc = keyspace.alloc();
    match set_at(keyspace, at, key) {
        Look::Missing => {
            let none = Members::new(alloc, keyspace.limits(), keyspace.seed());
            each_reply(alloc, &keyspace.store, &none, members)
        }
        Look::Other => Reply::refused(alloc, Refusal::WrongType),
        Look::There(set) => each_reply(alloc, &keyspace.store, set, members),
    }
}
