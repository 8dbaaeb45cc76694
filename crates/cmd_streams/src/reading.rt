//! Commands that read one stream.

ghost use Rattle.std.specs.Prelude.{◌≡◌, ◌∷◌, [], List, take, IfOk};
ghost use Rattle.std.specs.List.{filter};
ghost use Rattle.stream_object.specs.Streams.{IsStream, pair_of, entries, stream_of};
ghost use Rattle.stream_object.specs.Ranges.{turned};
ghost use Rattle.plain_world.specs.Streams.{StreamEntry};
ghost use Rattle.plain_world.specs.Parts.{IsReply};
ghost use Rattle.plain_model.specs.StreamSteps.{is_between, met, listed, range_of};
ghost use Rattle.plain_model.specs.declared.stream_command.StreamCommand.TheVariants as streams;
ghost use Rattle.keyspace.specs.Commands.{Ready};
ghost use Rattle.cmd_streams.specs.Found.{Gives};

use crate::look::stream_at;
use crate::telling::push_entries;
use blocks::BlockStore;
use keyspace::{Keyspace, Look, count_reply};
use plain_model::{Ctx, Direction, EntryId, Memory, Part, Parts, Refusal, Reply};
use std::alloc::Global;
use stream_object::{Id, Stream};

/// `XLEN key`: the number of entries, 0 where there is no stream.
#[tactic(auto, using(crate::proofs::Looking::refused_other))]
pub fn xlen<B: BlockStore>(keyspace: &Keyspace<B>, at: &Ctx, key: &[u8]) -> Result<Reply, Memory>
    requires ready { Ready B.blocks keyspace.now at.now }
    ensures gives { Gives B.blocks keyspace.now keyspace.now at.now (streams.XLen key.now) result }
{
    let alloc = keyspace.alloc();
    match stream_at(keyspace, at, key) {
        Look::Missing => count_reply(alloc, 0),
        Look::Other => Reply::refused(alloc, Refusal::WrongType),
        Look::There(stream) => count_reply(alloc, stream.len() as usize),
    }
}

/// An id of a command as one of a stream.
pub fn id_of(id: EntryId) -> Id
    ensures { pair_of result ≡ id }
{
    let (ms, seq) = id;
    Id { ms, seq }
}

// Whether entries are met from the last one back.
fn is_back(order: Direction) -> bool
    ensures { (list : List StreamEntry) → turned result list ≡ met order list }
{
    match order {
        Direction::Rising => false,
        Direction::Falling => true,
    }
}

// One part as a reply.
fn single_reply(alloc: Global, part: Part) -> Result<Reply, Memory>
    requires { IsReply (part ∷ []) }
    ensures { IfOk result (λ reply. reply ≡ part ∷ []) }
{
    let mut parts = Parts::new(alloc);
    parts.push(part)?;
    Ok(parts.into_reply())
}

// The entries between two ids, as they are met, so many at most, as an array.
fn range_reply<B: BlockStore>(
    alloc: Global,
    store: &B,
    stream: &Stream,
    from: EntryId,
    to: EntryId,
    order: Direction,
    limit: u64,
) -> Result<Reply, Memory>
    requires sound { IsStream (B.blocks store.now) stream.now }
    ensures { IfOk result (λ reply. reply ≡ listed (take limit (met order (filter (is_between from to) (entries (B.blocks store.now) stream.now))))) }
{
    let found = stream.range(store, id_of(from), id_of(to), is_back(order), limit)?;
    let mut parts = Parts::new(alloc);
    push_entries(alloc, found.as_slice(), &mut parts)?;
    Ok(parts.into_reply())
}

// The same by a limit, or without one.
fn limited_reply<B: BlockStore>(
    alloc: Global,
    store: &B,
    stream: &Stream,
    from: EntryId,
    to: EntryId,
    order: Direction,
    limit: Option<u64>,
) -> Result<Reply, Memory>
    requires sound { IsStream (B.blocks store.now) stream.now }
    ensures { IfOk result (λ reply. reply ≡ range_of from to order limit (stream_of (B.blocks store.now) stream.now)) }
{
    match limit {
        None => range_reply(alloc, store, stream, from, to, order, stream.len()),
        Some(most) => {
            if most == 0 {
                return single_reply(alloc, Part::NullArray);
            }
            range_reply(alloc, store, stream, from, to, order, most)
        }
    }
}

/// `XRANGE key from to [COUNT n]` and XREVRANGE: an array of the entries between two ids, both counted in, as they are met, so many at
/// most; the null array where COUNT asks for none, and the empty one where there is no stream.
#[tactic(auto, using(crate::proofs::Looking::refused_other))]
pub fn xrange<B: BlockStore>(
    keyspace: &Keyspace<B>,
    at: &Ctx,
    key: &[u8],
    from: EntryId,
    to: EntryId,
    order: Direction,
    limit: Option<u64>,
) -> Result<Reply, Memory>
    requires ready { Ready B.blocks keyspace.now at.now }
    ensures gives { Gives B.blocks keyspace.now keyspace.now at.now (streams.XRange key.now from to order limit) result }
{
    let alloc = keyspace.alloc();
    match stream_at(keyspace, at, key) {
        Look::Missing => single_reply(alloc, Part::Array(0)),
        Look::Other => Reply::refused(alloc, Refusal::WrongType),
        Look::There(stream) => {
            limited_reply(alloc, &keyspace.store, stream, from, to, order, limit)
        }
    }
}
