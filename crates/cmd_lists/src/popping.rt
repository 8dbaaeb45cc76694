//! Commands that take elements off an end of a list.

ghost use Rattle.std.specs.Prelude.{◌≡◌, ◌+◌, ◌<◌, ◌≤◌, ◌∷◌, ◌++◌, [], None, Some, MatchOption, OnOk, IfOk, length, take, map};
ghost use Rattle.blocks.specs.Blocks.{Changes, Served};
ghost use Rattle.quicklist.specs.Chain.{elements, refs, IsQuick};
ghost use Rattle.quicklist.specs.Cursor.{IsCursor};
ghost use Rattle.plain_world.specs.declared.reply.Part.TheVariants as replies;
ghost use Rattle.plain_model.specs.Outcomes.{leaves};
ghost use Rattle.plain_model.specs.ListSteps.{from_end, index_from, first_or_null, without, listed, pop};
ghost use Rattle.plain_model.specs.declared.list_command.ListCommand.TheVariants as lists;
ghost use Rattle.keyspace.specs.Scopes.{one_key};
ghost use Rattle.keyspace.specs.Forms.{AsAt, Formed, list_form};
ghost use Rattle.keyspace.specs.Commands.{Ready, KeepsOrRefuses, visible};
ghost use Rattle.cmd_lists.specs.Found.{Gives};
ghost use Rattle.cmd_lists.specs.Popped.{Pops, PopsMany, or_null};

use crate::changing::{change_list, list_sought};
use crate::edits::ListEdit;
use crate::reading::array_of;
use blocks::BlockStore;
use keyspace::{Keyspace, Look, bytes_of, seek};
use plain_model::{Bytes, Ctx, ListEnd, Memory, Part, Parts, Refusal, Reply};
use quicklist::{Cursor, Quick};
use std::alloc::Global;

/// Takes so many elements off an end of a list.
pub fn take_off<B: BlockStore>(
    list: &mut Quick,
    store: &mut B,
    end: ListEnd,
    count: usize,
) -> Result<(), Memory>
    requires quick { IsQuick (B.blocks store.old) list.old }
    requires inside { count ≤ length (elements (B.blocks store.old) list.old) }
    ensures quick { IsQuick (B.blocks store.new) list.new }
    ensures list { OnOk result (elements (B.blocks store.new) list.new ≡ without end count (elements (B.blocks store.old) list.old)) }
    ensures form { list.new.form ≡ list.old.form }
    ensures changes { Changes (B.blocks store.old) (B.blocks store.new) (refs list.old) (refs list.new) }
    ensures served { Served B.step store.old store.new }
{
    let len = list.len();
    match end {
        ListEnd::Head => list.remove_range(store, 0, count),
        ListEnd::Tail => list.remove_range(store, len - count, len),
    }
}

/// The first element that is met from an end of a list.
pub fn first_from<B: BlockStore>(
    alloc: Global,
    store: &B,
    list: &Quick,
    end: ListEnd,
) -> Result<Option<Bytes>, Memory>
    requires { IsQuick (B.blocks store.now) list.now }
    ensures { IfOk result (λ taken. first_or_null (from_end end (elements (B.blocks store.now) list.now)) ≡ or_null taken) }
{
    let len = list.len();
    if len == 0 {
        return Ok(None);
    }
    match list.get(store, first_index(end, len)) {
        None => unreachable!(),
        Some(element) => Ok(Some(bytes_of(alloc, element)?)),
    }
}

/// An element to be taken off an end of a list.
#[derive(Drop)]
pub struct Pop {
    pub end: ListEnd,
    pub alloc: Global,
    /// The element, where there was one.
    pub taken: Option<Bytes>,
}

impl ListEdit for Pop {
    ghost takes = { λ pop list. Unit {0} };

    ghost makes = { λ first last list from now form. Pops first.end last.taken list from now form };

    fn edit_list<B: BlockStore>(&mut self, list: &mut Quick, store: &mut B) -> Result<(), Memory> {
        self.taken = first_from(self.alloc, store, list, self.end)?;
        take_off(list, store, self.end, list.len().min(1))
    }
}

// The index of the first element that is met from an end of a list of this length.
fn first_index(end: ListEnd, len: usize) -> usize
    ensures { result ≡ index_from end len 0 }
{
    match end {
        ListEnd::Head => 0,
        ListEnd::Tail => len.saturating_sub(1),
    }
}

// The place of the element that is met behind the one that is met at this index.
fn place_behind<B: BlockStore>(
    list: &Quick,
    store: &B,
    end: ListEnd,
    cursor: Cursor,
    index: usize,
) -> Option<Cursor>
    requires quick { IsQuick (B.blocks store.now) list.now }
    requires cursor { IsCursor (B.blocks store.now) list.now cursor }
    requires inside { index < length (elements (B.blocks store.now) list.now) }
    requires met { cursor.index ≡ index_from end (length (elements (B.blocks store.now) list.now)) index }
    ensures { MatchOption result (length (elements (B.blocks store.now) list.now) ≤ index + 1)
        (λ to. IsCursor (B.blocks store.now) list.now to × (to.index ≡ index_from end (length (elements (B.blocks store.now) list.now)) (index + 1))) }
{
    // the place tells the index
    let _ = index;
    match end {
        ListEnd::Head => list.next(store, cursor),
        ListEnd::Tail => list.prev(store, cursor),
    }
}

// Adds the first elements that are met from an end of a list.
fn push_met<B: BlockStore>(
    alloc: Global,
    store: &B,
    list: &Quick,
    end: ListEnd,
    count: usize,
    parts: &mut Parts,
) -> Result<(), Memory>
    requires quick { IsQuick (B.blocks store.now) list.now }
    requires inside { count ≤ length (elements (B.blocks store.now) list.now) }
    ensures { OnOk result (parts.new ≡ parts.old ++ map replies.Bulk (take count (from_end end (elements (B.blocks store.now) list.now)))) }
{
    let mut place = list.seek(store, first_index(end, list.len()));
    for index in 0..count {
        match place {
            None => unreachable!(),
            Some(cursor) => {
                let bytes = bytes_of(alloc, list.element(store, cursor))?;
                parts.push(Part::Bulk(bytes))?;
                place = place_behind(list, store, end, cursor, index);
            }
        }
    }
    Ok(())
}

// The first elements that are met from an end of a list, as an array.
fn met_parts<B: BlockStore>(
    alloc: Global,
    store: &B,
    list: &Quick,
    end: ListEnd,
    count: usize,
) -> Result<Parts, Memory>
    requires quick { IsQuick (B.blocks store.now) list.now }
    requires inside { count ≤ length (elements (B.blocks store.now) list.now) }
    ensures { IfOk result (λ parts. parts ≡ listed (take count (from_end end (elements (B.blocks store.now) list.now)))) }
{
    let mut parts = array_of(alloc, count as u64)?;
    push_met(alloc, store, list, end, count, &mut parts)?;
    Ok(parts)
}

/// So many elements to be taken off an end of a list.
#[derive(Drop)]
pub struct PopMany {
    pub end: ListEnd,
    pub most: u64,
    pub alloc: Global,
    /// The array of the elements, in the order in which they are met.
    pub parts: Parts,
}

impl ListEdit for PopMany {
    ghost takes = { λ pop list. Unit {0} };

    ghost makes = { λ first last list from now form. PopsMany first.end first.most last.parts list from now form };

    fn edit_list<B: BlockStore>(&mut self, list: &mut Quick, store: &mut B) -> Result<(), Memory> {
        let count = list.len().min(self.most as usize);
        self.parts = met_parts(self.alloc, store, list, self.end, count)?;
        take_off(list, store, self.end, count)
    }
}

// An element as a reply, or null.
fn element_reply(alloc: Global, taken: Option<Bytes>) -> Result<Reply, Memory>
    ensures { IfOk result (λ reply. reply ≡ or_null taken ∷ []) }
{
    match taken {
        None => Reply::null(alloc),
        Some(element) => Reply::bulk(alloc, element),
    }
}

// An element taken off an end of the list at a key: the element, or null.
fn pop_first<B: BlockStore>(
    keyspace: &mut Keyspace<B>,
    at: &Ctx,
    key: &[u8],
    end: ListEnd,
) -> Result<Reply, Memory>
    requires ready { Ready B.blocks keyspace.old at.now }
    ensures gives { IfOk result (λ reply. pop (visible B.blocks keyspace.old at.now) end key.now None ≡ leaves reply (visible B.blocks keyspace.new at.now)) }
    ensures kept { KeepsOrRefuses B.blocks B.step (one_key at.now.db key.now) keyspace.old keyspace.new result }
    ensures forms { IfOk result (λ reply. Formed B.blocks (AsAt at.now.db key.now) keyspace.old keyspace.new) }
{
    let alloc = keyspace.alloc();
    let found = seek(keyspace, at, key);
    let item = match list_sought(keyspace, at, key, found) {
        Look::Other => return Reply::refused(alloc, Refusal::WrongType),
        Look::Missing => return Reply::null(alloc),
        Look::There(item) => item,
    };
    let pop = Pop {
        end,
        alloc,
        taken: None,
    };
    let pop = change_list(keyspace, at, key, found.sought, Some(item), pop)?;
    element_reply(alloc, pop.taken)
}

// The null array as a reply.
fn null_array(alloc: Global) -> Result<Reply, Memory>
    ensures { IfOk result (λ reply. reply ≡ replies.NullArray ∷ []) }
{
    let mut parts = Parts::new(alloc);
    parts.push(Part::NullArray)?;
    Ok(parts.into_reply())
}

// So many elements taken off an end of the list at a key: an array of them, or the null array.
fn pop_many<B: BlockStore>(
    keyspace: &mut Keyspace<B>,
    at: &Ctx,
    key: &[u8],
    end: ListEnd,
    most: u64,
) -> Result<Reply, Memory>
    requires ready { Ready B.blocks keyspace.old at.now }
    ensures gives { IfOk result (λ reply. pop (visible B.blocks keyspace.old at.now) end key.now (Some most) ≡ leaves reply (visible B.blocks keyspace.new at.now)) }
    ensures kept { KeepsOrRefuses B.blocks B.step (one_key at.now.db key.now) keyspace.old keyspace.new result }
    ensures forms { IfOk result (λ reply. Formed B.blocks (AsAt at.now.db key.now) keyspace.old keyspace.new) }
{
    let alloc = keyspace.alloc();
    let found = seek(keyspace, at, key);
    let item = match list_sought(keyspace, at, key, found) {
        Look::Other => return Reply::refused(alloc, Refusal::WrongType),
        Look::Missing => return null_array(alloc),
        Look::There(item) => item,
    };
    let pop = PopMany {
        end,
        most,
        alloc,
        parts: Parts::new(alloc),
    };
    let pop = change_list(keyspace, at, key, found.sought, Some(item), pop)?;
    Ok(pop.parts.into_reply())
}

// The elements taken off an end of the list at a key: one of them without a number.
fn pop_from<B: BlockStore>(
    keyspace: &mut Keyspace<B>,
    at: &Ctx,
    key: &[u8],
    end: ListEnd,
    most: Option<u64>,
) -> Result<Reply, Memory>
    requires ready { Ready B.blocks keyspace.old at.now }
    ensures gives { IfOk result (λ reply. pop (visible B.blocks keyspace.old at.now) end key.now most ≡ leaves reply (visible B.blocks keyspace.new at.now)) }
    ensures kept { KeepsOrRefuses B.blocks B.step (one_key at.now.db key.now) keyspace.old keyspace.new result }
    ensures forms { IfOk result (λ reply. Formed B.blocks (AsAt at.now.db key.now) keyspace.old keyspace.new) }
{
    match most {
        None => pop_first(keyspace, at, key, end),
        Some(most) => pop_many(keyspace, at, key, end, most),
    }
}

/// `LPOP key [n]`: the element that was taken off, or null; with a number an array of so many, or the null array.
pub fn lpop<B: BlockStore>(
    keyspace: &mut Keyspace<B>,
    at: &Ctx,
    key: &[u8],
    most: Option<u64>,
) -> Result<Reply, Memory>
    requires ready { Ready B.blocks keyspace.old at.now }
    ensures gives { Gives B.blocks keyspace.old keyspace.new at.now (lists.LPop key.now most) result }
    ensures kept { KeepsOrRefuses B.blocks B.step (one_key at.now.db key.now) keyspace.old keyspace.new result }
    ensures forms { IfOk result (λ reply. Formed B.blocks (list_form at.now.db (visible B.blocks keyspace.old at.now) (lists.LPop key.now most)) keyspace.old keyspace.new) }
{
    pop_from(keyspace, at, key, ListEnd::Head, most)
}

/// `RPOP key [n]`: the element that was taken off, or null; with a number an array of so many, or the null array.
pub fn rpop<B: BlockStore>(
    keyspace: &mut Keyspace<B>,
    at: &Ctx,
    key: &[u8],
    most: Option<u64>,
) -> Result<Reply, Memory>
    requires ready { Ready B.blocks keyspace.old at.now }
    ensures gives { Gives B.blocks keyspace.old keyspace.new at.now (lists.RPop key.now most) result }
    ensures kept { KeepsOrRefuses B.blocks B.step (one_key at.now.db key.now) keyspace.old keyspace.new result }
    ensures forms { IfOk result (λ reply. Formed B.blocks (list_form at.now.db (visible B.blocks keyspace.old at.now) (lists.RPop key.now most)) keyspace.old keyspace.new) }
{
    pop_from(keyspace, at, key, ListEnd::Tail, most)
}
