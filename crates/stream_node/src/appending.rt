// Entries put behind all others.

ghost use Rattle.std.specs.Prelude.{◌≡◌, ◌↔◌, ◌<◌, ◌^◌, ◌++◌, ◌∷◌, [], IsTrue, IfOk, OnOk, OnErr, IfSome, IfNone, length, map, take, drop, true, slice_set};
ghost use Rattle.listpack.specs.Element.{element_text};
ghost use Rattle.listpack.specs.Pack.{IsPack, texts, spellings_of};
ghost use Rattle.listpack.specs.Writing.{spelling};
ghost use Rattle.stream_node.specs.Entry.{number, fields_of};
ghost use Rattle.stream_node.specs.Node.{IsAfter, LacksHead, last_id};
ghost use Rattle.stream_node.specs.Rest.{rest_of};
ghost use Rattle.stream_node.specs.Reading.{master_of};
ghost use Rattle.stream_node.specs.Written.{Extends, HasRoom, head_texts, entry_texts};
ghost use Rattle.stream_node.specs.Appended.{same_texts, IsOpen, held, appended, pack_len, IsPlan, IsBehind, IsAppended, Replaces};

use crate::head::Head;
use crate::id::Id;
use crate::pairs::Pairs;
use crate::put::{put_entry, put_head};
use crate::rest::Rest;
use itoa::Buffer;
use listpack::{Element, Memory, insert, known, remove};
use std::alloc::Global;

/// As many bytes as a listpack has room for behind its own, so that most entries are written without another copy.
pub(crate) const ROOM: usize = 192;

// Whether an element has this text.
fn is_text(element: &Element, text: &[u8]) -> bool
    ensures { IsTrue result ↔ (element_text element.now ≡ text.now) }
{
    match element {
        Element::Text(part) => *part == text,
        Element::Number(n) => {
            let mut buffer = Buffer::new();
            buffer.format(*n).as_bytes() == text
        }
    }
}

// Whether the first elements are the fields of these pairs.
fn are_fields(list: &Rest<'_>, pairs: &Pairs) -> bool
    ensures { IsTrue result ↔ (take (length pairs.now) (rest_of list.now) ≡ fields_of pairs.now) }
{
    let mut rest = *list;
    for index in 0..pairs.len() {
        match rest.split_first() {
            Some((element, behind)) => {
                if !is_text(&element, pairs.field(index)) {
                    return false;
                }
                rest = behind;
            }
            None => return false,
        }
    }
    true
}

// Whether the fields of these pairs are the node's.
fn has_fields(head: &Head<'_>, pairs: &Pairs) -> bool
    ensures { result ≡ same_texts (fields_of pairs.now) (master_of head.now) }
{
    head.count == pairs.len() && are_fields(&head.fields, pairs)
}

// Puts a number in the place of the first element.
fn set_first(pack: &mut Vec<u8>, count: usize) -> Result<(), Memory>
    requires packed { IsPack pack.old.items }
    requires some { 0 < length (texts pack.old.items) }
    requires room { pack_len (slice_set (spellings_of pack.old.items) 0 (spelling (number count))) < 2 ^ 32 }
    ensures { OnOk result (Replaces pack.old.items pack.new.items 0 (number count)) }
{
    let mut buffer = Buffer::new();
    remove(pack, 0);
    insert(pack, 0, buffer.format(count).as_bytes())
}

// The first entry of a node, put into an empty listpack. After `Memory` a part of it may stand there.
fn begin_node(pack: &mut Vec<u8>, key: Id, id: Id, pairs: &Pairs) -> Result<(), Memory>
    requires packed { IsPack pack.old.items }
    requires room { HasRoom pack.old.items (head_texts pairs.now ++ entry_texts key id true pairs.now) }
    ensures { OnOk result (Extends pack.old.items pack.new.items (head_texts pairs.now ++ entry_texts key id true pairs.now)) }
{
    put_head(pack, pairs)?;
    put_entry(pack, key, id, true, pairs)
}

/// The number of live entries of a node, and whether the fields of these pairs are the node's. None where there is no head.
pub(crate) fn plan(pack: &[u8], pairs: &Pairs) -> Option<(usize, bool)>
    requires { IsPack pack.now }
    ensures some { IfSome result (λ x. IsPlan (texts pack.now) pairs.now x.0 x.1) }
    ensures small { IfSome result (λ x. x.0 < 2 ^ 63) }
    ensures none { IfNone result (LacksHead (texts pack.now)) }
    ensures short { length (texts pack.now) < 2 ^ 32 }
{
    match Head::read(&Rest::all(&known(pack))) {
        Some((head, _)) => Some((head.live, has_fields(&head, pairs))),
        None => None,
    }
}

// One more entry behind those of a node. After `Memory` a part of it may stand there.
fn put_behind(
    pack: &mut Vec<u8>,
    live: usize,
    same: bool,
    key: Id,
    id: Id,
    pairs: &Pairs,
) -> Result<(), Memory>
    requires packed { IsPack pack.old.items }
    requires some { 0 < length (texts pack.old.items) }
    requires room { pack_len (slice_set (spellings_of pack.old.items) 0 (spelling (number live)) ++ map spelling (entry_texts key id same pairs.now)) < 2 ^ 32 }
    ensures { OnOk result (IsBehind pack.old.items pack.new.items (number live) (entry_texts key id same pairs.now)) }
{
    set_first(pack, live)?;
    put_entry(pack, key, id, same, pairs)
}

// Puts an entry behind all others. After `Memory` a part of it may stand there.
fn put_last(pack: &mut Vec<u8>, key: Id, id: Id, pairs: &Pairs) -> Result<(), Memory>
    requires packed { IsPack pack.old.items }
    requires node { IsOpen key (texts pack.old.items) }
    requires above { IsAfter (last_id None (held key (texts pack.old.items))) id }
    requires some { 0 < length pairs.now }
    requires room { pack_len (appended key pack.old.items id pairs.now) < 2 ^ 32 }
    ensures { OnOk result (IsAppended key pack.old.items pack.new.items id pairs.now) }
{
    match plan(pack, pairs) {
        Some((live, same)) => put_behind(pack, live + 1, same, key, id, pairs),
        None => begin_node(pack, key, id, pairs),
    }
}

// A copy of bytes, with some room behind them.
fn roomy(alloc: Global, bytes: &[u8]) -> Result<Vec<u8>, Memory>
    ensures { IfOk result (λ copy. copy.items ≡ bytes.now) }
{
    let mut copy = Vec::with_capacity(alloc, bytes.len() + ROOM)?;
    copy.extend_from_slice(bytes)?;
    Ok(copy)
}

/// A copy of a listpack with an entry behind all others: of an empty one a stream node of that key with its first entry.
///
/// An entry whose fields are the node's is written without them. No entry of the node is read.
pub fn with_entry(
    alloc: Global,
    pack: &[u8],
    key: Id,
    id: Id,
    pairs: &Pairs,
) -> Result<Vec<u8>, Memory>
    requires packed { IsPack pack.now }
    requires node { IsOpen key (texts pack.now) }
    requires above { IsAfter (last_id None (held key (texts pack.now))) id }
    requires some { 0 < length pairs.now }
    requires room { pack_len (appended key pack.now id pairs.now) < 2 ^ 32 }
    ensures { IfOk result (λ copy. IsAppended key pack.now copy.items id pairs.now) }
{
    let mut copy = roomy(alloc, pack)?;
    put_last(&mut copy, key, id, pairs)?;
    Ok(copy)
}

/// Puts an entry behind all others: an empty listpack becomes a stream node of that key by its first entry.
///
/// An entry whose fields are the node's is written without them. `Memory` leaves all as before.
pub fn append(pack: &mut Vec<u8>, key: Id, id: Id, pairs: &Pairs) -> Result<(), Memory>
    requires packed { IsPack pack.old.items }
    requires node { IsOpen key (texts pack.old.items) }
    requires above { IsAfter (last_id None (held key (texts pack.old.items))) id }
    requires some { 0 < length pairs.now }
    requires room { pack_len (appended key pack.old.items id pairs.now) < 2 ^ 32 }
    ensures appended { OnOk result (IsAppended key pack.old.items pack.new.items id pairs.now) }
    ensures memory { OnErr result (pack.new.items ≡ pack.old.items) }
{
    *pack = with_entry(*pack.allocator(), pack, key, id, pairs)?;
    Ok(())
}
