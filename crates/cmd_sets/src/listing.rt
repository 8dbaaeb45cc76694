//! The command that lists a set.

ghost use Rattle.std.specs.Prelude.{◌≡◌, ◌++◌, Some, map, IfOk, OnOk};
ghost use Rattle.set_object.specs.Members.{IsMembers, members, listed};
ghost use Rattle.plain_world.specs.declared.reply.Part.TheVariants as replies;
ghost use Rattle.plain_model.specs.SetSteps.{AreMembers, may_sets};
ghost use Rattle.plain_model.specs.declared.set_command.SetCommand.TheVariants as sets;
ghost use Rattle.keyspace.specs.Commands.{Ready, visible};

use crate::look::set_at;
use blocks::BlockStore;
use keyspace::{Keyspace, Look, bytes_of};
use plain_model::{Ctx, Memory, Part, Parts, Refusal, Reply};
use set_object::Members;
use std::alloc::Global;

// Adds each member of a set once, in the set's own order. They are met in one pass.
fn push_members<B: BlockStore>(
    alloc: Global,
    store: &B,
    set: &Members,
    parts: &mut Parts,
) -> Result<(), Memory>
    requires sound { IsMembers (B.blocks store.now) set.now }
    ensures { OnOk result (parts.new ≡ parts.old ++ map replies.Bulk (listed (B.blocks store.now) set.now)) }
{
    let count = set.len();
    let mut place = set.first(store);
    for index in 0..count {
        match place {
            None => unreachable!(),
            Some(cursor) => {
                let bytes = bytes_of(alloc, set.element(store, cursor))?;
                parts.push(Part::Bulk(bytes))?;
                place = set.next(store, cursor);
            }
        }
    }
    Ok(())
}

// All members of a set, as an array.
fn members_reply<B: BlockStore>(alloc: Global, store: &B, set: &Members) -> Result<Reply, Memory>
    requires sound { IsMembers (B.blocks store.now) set.now }
    ensures { IfOk result (λ reply. AreMembers (Some (members (B.blocks store.now) set.now)) reply) }
{
    let mut parts = Parts::new(alloc);
    parts.push(Part::Array(set.len() as u64))?;
    push_members(alloc, store, set, &mut parts)?;
    Ok(parts.into_reply())
}

/// `SMEMBERS key`: an array of all members, each once, in any order. It is empty where there is no set.
pub fn smembers<B: BlockStore>(
    keyspace: &Keyspace<B>,
    at: &Ctx,
    key: &[u8],
) -> Result<Reply, Memory>
    requires ready { Ready B.blocks keyspace.now at.now }
    ensures gives { IfOk result (λ reply. may_sets keyspace.now.bases.seed (visible B.blocks keyspace.now at.now) (sets.SMembers key.now) reply (visible B.blocks keyspace.now at.now)) }
{
    let alloc = keyspace.alloc();
    match set_at(keyspace, at, key) {
        Look::Missing => {
            let none = Members::new(alloc, keyspace.limits(), keyspace.seed());
            members_reply(alloc, &keyspace.store, &none)
        }
        Look::Other => Reply::refused(alloc, Refusal::WrongType),
        Look::There(set) => members_reply(alloc, &keyspace.store, set),
    }
}
