//! Where elements stand that equal one.

ghost use Rattle.std.specs.Prelude.{◌≡◌, ◌<◌, ◌≤◌, ◌+◌, ◌++◌, ◌∷◌, ℕ, List, [], length, take, map, pos, IsSome, IfOk, OnOk};
ghost use Rattle.quicklist.specs.Chain.{elements, IsQuick};
ghost use Rattle.quicklist.specs.Cursor.{IsCursor};
ghost use Rattle.plain_world.specs.declared.reply.Part.TheVariants as replies;
ghost use Rattle.plain_model.specs.ListSteps.{index_from, end_of_rank, before_rank, at_most, matches, positions, first_match};
ghost use Rattle.plain_model.specs.declared.list_command.ListCommand.TheVariants as lists;
ghost use Rattle.keyspace.specs.Commands.{Ready, visible};
ghost use Rattle.cmd_lists.specs.Found.{Gives};
ghost use Rattle.cmd_lists.specs.Met.{MeetsAt, IsMet, told_at_most};

use crate::look::list_at;
use crate::reading::array_of;
use blocks::BlockStore;
use keyspace::{Keyspace, Look, reply_number};
use plain_model::{Ctx, ListEnd, Memory, Part, Parts, PositionOptions, Refusal, Reply};
use quicklist::{Cursor, Quick, is_text};
use std::alloc::Global;

// The end from which the rank counts.
fn end_of(options: PositionOptions) -> ListEnd
    ensures { result ≡ end_of_rank options.rank }
{
    if options.rank < 0 {
        ListEnd::Tail
    } else {
        ListEnd::Head
    }
}

// How many matches come before the rank.
fn before(options: PositionOptions) -> usize
    ensures { result ≡ before_rank options.rank }
{
    options.rank.unsigned_abs().saturating_sub(1) as usize
}

// How many elements of a list of this length are looked at.
fn looked_at(len: usize, most: u64) -> usize
    ensures inside { result ≤ len }
    ensures looked { (list : List (List ℕ)) → length list ≡ len → take result list ≡ at_most most list }
{
    if most == 0 {
        return len;
    }
    len.min(most as usize)
}

// How many indexes are told at most, all for 0.
fn most_told(count: Option<u64>) -> u64
    ensures { result ≡ told_at_most count }
{
    match count {
        None => 1,
        Some(n) => n,
    }
}

// The place of the element that is met first from an end.
pub(crate) fn first_met<B: BlockStore>(store: &B, list: &Quick, end: ListEnd) -> Option<Cursor>
    requires { IsQuick (B.blocks store.now) list.now }
    ensures { IsMet end (B.blocks store.now) list.now 0 result }
{
    match end {
        ListEnd::Head => list.seek(store, 0),
        ListEnd::Tail => list.seek(store, list.len().saturating_sub(1)),
    }
}

// The place of the element that is met behind one.
pub(crate) fn met_behind<B: BlockStore>(
    store: &B,
    list: &Quick,
    end: ListEnd,
    cursor: Cursor,
) -> Option<Cursor>
    requires quick { IsQuick (B.blocks store.now) list.now }
    requires cursor { IsCursor (B.blocks store.now) list.now cursor }
    ensures { (k : ℕ) → MeetsAt end (B.blocks store.now) list.now k cursor → IsMet end (B.blocks store.now) list.now (k + 1) result }
{
    match end {
        ListEnd::Head => list.next(store, cursor),
        ListEnd::Tail => list.prev(store, cursor),
    }
}

// The place where there is one.
pub(crate) fn there(place: Option<Cursor>) -> Cursor
    requires { IsSome place }
    ensures { place ≡ Some result }
{
    match place {
        Some(cursor) => cursor,
        None => unreachable!(),
    }
}

// The indexes of the elements that are a text, from the rank on, in the order in which they are met: at most so many, all for 0.
fn find_matches<B: BlockStore>(
    alloc: Global,
    store: &B,
    list: &Quick,
    text: &[u8],
    options: PositionOptions,
    wanted: u64,
) -> Result<Vec<usize>, Memory>
    requires quick { IsQuick (B.blocks store.now) list.now }
    ensures { IfOk result (λ found. found.items ≡ at_most wanted (matches options.rank options.most text.now (elements (B.blocks store.now) list.now))) }
{
    let end = end_of(options);
    let first = before(options);
    let looked = looked_at(list.len(), options.most);
    let mut skipped = first;
    let mut found = Vec::new(alloc);
    let mut place = first_met(store, list, end);
    for met in 0..looked {
        let cursor = there(place);
        place = met_behind(store, list, end, cursor);
        if !is_text(list.element(store, cursor), text) {
            continue;
        }
        if skipped > 0 {
            skipped -= 1;
            continue;
        }
        found.push(cursor.index())?;
        if found.len() as u64 == wanted {
            return Ok(found);
        }
    }
    Ok(found)
}

// Adds indexes as numbers.
fn push_numbers(indexes: &[usize], parts: &mut Parts) -> Result<(), Memory>
    ensures { OnOk result (parts.new ≡ parts.old ++ map (λ index. replies.Number (pos index)) indexes.now) }
{
    let mut rest = indexes;
    'indexes: while let [index, others @ ..] = rest {
        parts.push(Part::Number(reply_number(*index)?))?;
        rest = others;
    }
    Ok(())
}

// Indexes as an array of numbers.
fn numbers_reply(alloc: Global, indexes: &[usize]) -> Result<Reply, Memory>
    ensures { IfOk result (λ reply. reply ≡ replies.Array (length indexes.now) ∷ map (λ index. replies.Number (pos index)) indexes.now) }
{
    let mut reply = array_of(alloc, indexes.len() as u64)?;
    push_numbers(indexes, &mut reply)?;
    Ok(reply.into_reply())
}

// The first index alone, or null.
fn first_reply(alloc: Global, indexes: &[usize]) -> Result<Reply, Memory>
    ensures { IfOk result (λ reply. reply ≡ first_match indexes.now ∷ []) }
{
    match indexes {
        [] => Reply::null(alloc),
        [index, ..] => Reply::number(alloc, reply_number(*index)?),
    }
}

// What is told of the indexes of all matches, of which these are at most as many as are told.
fn positions_reply(alloc: Global, count: Option<u64>, found: &[usize]) -> Result<Reply, Memory>
    ensures { (indexes : List ℕ) → found.now ≡ at_most (told_at_most count) indexes → IfOk result (λ reply. reply ≡ positions count indexes) }
{
    match count {
        None => first_reply(alloc, found),
        Some(_) => numbers_reply(alloc, found),
    }
}

/// `LPOS key element [RANK r] [COUNT n] [MAXLEN m]`: the index of the first match, or null; with COUNT an array of the indexes of
/// at most n, all for 0. They count from the r-th match on, from the tail for r below 0, among m elements at most from that
/// end, all for 0.
#[tactic(auto, using(crate::proofs::Looking::refused_other))]
pub fn lpos<B: BlockStore>(
    keyspace: &Keyspace<B>,
    at: &Ctx,
    key: &[u8],
    element: &[u8],
    options: PositionOptions,
) -> Result<Reply, Memory>
    requires ready { Ready B.blocks keyspace.now at.now }
    ensures gives { Gives B.blocks keyspace.now keyspace.now at.now (lists.LPos key.now element.now options) result }
{
    let alloc = keyspace.alloc();
    match list_at(keyspace, at, key) {
        Look::Missing => positions_reply(alloc, options.count, &[]),
        Look::Other => Reply::refused(alloc, Refusal::WrongType),
        Look::There(list) => {
            let wanted = most_told(options.count);
            let found = find_matches(alloc, &keyspace.store, list, element, options, wanted)?;
            positions_reply(alloc, options.count, &found)
        }
    }
}
