//! The command that tells what is pending in a group.

ghost use Rattle.std.specs.Prelude.{◌≡◌, ◌∷◌, [], ◌++◌, IfOk, OnOk};
ghost use Rattle.std.specs.FinMap.{get};
ghost use Rattle.std.specs.List.{flat_map};
ghost use Rattle.std.specs.Option.{option_map};
ghost use Rattle.stream_object.specs.Groups.{waiting_of};
ghost use Rattle.stream_object.specs.Streams.{pair_of};
ghost use Rattle.plain_world.specs.Worlds.{World};
ghost use Rattle.plain_model.specs.Outcomes.{leaves};
ghost use Rattle.plain_model.specs.GroupSteps.{id_or_null, pending_in};
ghost use Rattle.plain_model.specs.declared.stream_command.StreamCommand.TheVariants as streams;
ghost use Rattle.keyspace.specs.Commands.{Ready};
ghost use Rattle.cmd_streams.specs.Found.{Gives};
ghost use Rattle.cmd_streams.specs.Pending.{owner_told, owners_told, waiting_told};

use crate::look::stream_at;
use crate::telling::id_text;
use blocks::BlockStore;
use itoa::Buffer;
use keyspace::{Keyspace, Look, reply_number};
use plain_model::{Bytes, Ctx, Memory, Part, Parts, Refusal, Reply};
use std::alloc::Global;
use stream_object::{Id, Owner, Pending, Stream};

// Adds an id, or null where there is none.
fn push_id(alloc: Global, id: Option<Id>, parts: &mut Parts) -> Result<(), Memory>
    ensures { OnOk result (parts.new ≡ parts.old ++ id_or_null (option_map pair_of id) ∷ []) }
{
    match id {
        None => parts.push(Part::Null),
        Some(id) => parts.push(Part::Bulk(id_text(alloc, id)?)),
    }
}

// Adds a consumer and the number of its ids.
fn push_owner(alloc: Global, owner: &Owner, parts: &mut Parts) -> Result<(), Memory>
    ensures { OnOk result (parts.new ≡ parts.old ++ owner_told owner.now) }
{
    let name = Bytes::new(alloc, owner.name.as_slice())?;
    let count = Bytes::new(alloc, Buffer::new().format(owner.count).as_bytes())?;
    parts.push(Part::Array(2))?;
    parts.push(Part::Bulk(name))?;
    parts.push(Part::Bulk(count))
}

// Adds consumers, one after the other.
fn push_each(alloc: Global, owners: &[Owner], parts: &mut Parts) -> Result<(), Memory>
    ensures { OnOk result (parts.new ≡ parts.old ++ flat_map owner_told owners.now) }
{
    for owner in owners {
        push_owner(alloc, owner, parts)?;
    }
    Ok(())
}

// Adds an array of consumers, the null array where there is none.
fn push_owners(alloc: Global, owners: &[Owner], parts: &mut Parts) -> Result<(), Memory>
    ensures { OnOk result (parts.new ≡ parts.old ++ owners_told owners.now) }
{
    if owners.is_empty() {
        return parts.push(Part::NullArray);
    }
    parts.push(Part::Array(owners.len() as u64))?;
    push_each(alloc, owners, parts)
}

// What is pending, as a whole.
fn pending_reply(alloc: Global, pending: &Pending) -> Result<Reply, Memory>
    ensures { IfOk result (λ reply. reply ≡ waiting_told (waiting_of pending.now)) }
{
    let count = reply_number(pending.count as usize)?;
    let mut parts = Parts::new(alloc);
    parts.push(Part::Array(4))?;
    parts.push(Part::Number(count))?;
    push_id(alloc, pending.least, &mut parts)?;
    push_id(alloc, pending.greatest, &mut parts)?;
    push_owners(alloc, &pending.owners, &mut parts)?;
    Ok(parts.into_reply())
}

// What is pending in the group of a stream.
fn group_reply(alloc: Global, stream: &Stream, name: &[u8]) -> Result<Reply, Memory>
    ensures { IfOk result (λ reply. (world : World) → pending_in world (get stream.now.groups name.now) ≡ leaves reply world) }
{
    match stream.pending(name)? {
        None => Reply::refused(alloc, Refusal::NoSuchGroup),
        Some(pending) => pending_reply(alloc, &pending),
    }
}

/// `XPENDING key group`: an array of how many ids are pending in the group, the least and the greatest of them, and an array of each
/// consumer for which some are, with their number. Refused where there is no such group.
#[tactic(auto, using(crate::proofs::Looking::refused_other))]
pub fn xpending<B: BlockStore>(
    keyspace: &Keyspace<B>,
    at: &Ctx,
    key: &[u8],
    name: &[u8],
) -> Result<Reply, Memory>
    requires ready { Ready B.blocks keyspace.now at.now }
    ensures gives { Gives B.blocks keyspace.now keyspace.now at.now (streams.XPending key.now name.now) result }
{
    let alloc = keyspace.alloc();
    match stream_at(keyspace, at, key) {
        Look::Missing => Reply::refused(alloc, Refusal::NoSuchGroup),
        Look::Other => Reply::refused(alloc, Refusal::WrongType),
        Look::There(stream) => group_reply(alloc, stream, name),
    }
}
