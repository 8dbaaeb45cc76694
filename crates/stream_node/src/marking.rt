// Entries marked deleted.

ghost use Rattle.std.specs.Prelude.{◌≡◌, ◌+◌, ◌<◌, ◌≤◌, ◌^◌, ℕ, List, [], None, IfOk, IfErr, IfSome, IfNone, IsTrue, OnOk, OnErr, length};
ghost use Rattle.listpack.specs.Pack.{IsPack, texts, spellings_of};
ghost use Rattle.listpack.specs.Writing.{spelling, entry};
ghost use Rattle.stream_node.specs.declared.id.Id.{Id as AnId};
ghost use Rattle.stream_node.specs.Entry.{Stored, number};
ghost use Rattle.stream_node.specs.Entries.{behind_entry};
ghost use Rattle.stream_node.specs.Next.{IsEntryFault};
ghost use Rattle.stream_node.specs.Node.{Begins};
ghost use Rattle.stream_node.specs.Rest.{rest_of};
ghost use Rattle.stream_node.specs.Reading.{master_of};
ghost use Rattle.stream_node.specs.Appended.{pack_len};
ghost use Rattle.stream_node.specs.Marked.{CanMark, behind_entries, exchanged, marked_spellings, IsMarked, IsMarkOver, TakesByte, AreMarks, Inserts, Exchanges};

use crate::entry::Entry;
use crate::fault::NodeFault;
use crate::head::Head;
use crate::id::Id;
use crate::rest::Rest;
use itoa::Buffer;
use listpack::{Memory, insert, known, remove, remove_range};

/// What a mark changes: the counts of live and of marked entries, and an entry's flags, which stand at an index.
#[derive(Clone, Copy, Debug)]
pub(crate) struct Marks {
    pub(crate) at: usize,
    pub(crate) flags: usize,
    pub(crate) live: usize,
    pub(crate) deleted: usize,
}

// The elements behind the entry that a list begins with, of which no more is read than its flags and how many pairs it has. `None`
// comes at most where no entry stands there.
fn skip_whole<'a>(head: &Head<'a>, list: &Rest<'a>) -> Option<Rest<'a>>
    ensures { IfSome result (λ x. rest_of x ≡ behind_entry (master_of head.now) (rest_of list.now)) }
{
    let (flags, behind) = list.split_count()?;
    if flags >= 2 {
        return behind.skip(head.count + 3);
    }
    let middle = behind.skip(2)?;
    let (count, pairs) = middle.split_count()?;
    let end = pairs.skip(2 * count)?;
    end.skip(1)
}

// The elements behind the entry that a list begins with, or what it lacks.
fn skip_entry<'a>(key: Id, head: &Head<'a>, list: &Rest<'a>) -> Result<Rest<'a>, NodeFault>
    ensures ok { IfOk result (λ x. rest_of x ≡ behind_entry (master_of head.now) (rest_of list.now)) }
    ensures err { IfErr result (λ e. IsEntryFault key (master_of head.now) None (rest_of list.now) e) }
{
    match skip_whole(head, list) {
        Some(behind) => Ok(behind),
        None => match Entry::read(key, head, None, list) {
            Ok((_, behind)) => Ok(behind),
            Err(fault) => Err(fault),
        },
    }
}

// The elements behind so many entries, whatever the node's key.
fn skip_entries<'a>(head: &Head<'a>, first: &Rest<'a>, count: usize) -> Option<Rest<'a>>
    ensures some { IfSome result (λ x. rest_of x ≡ behind_entries (master_of head.now) count (rest_of first.now)) }
    ensures none { IfNone result ((key : AnId) (es : List Stored) → Begins key (master_of head.now) None (rest_of first.now) es [] → count ≤ length es → ⊥) }
{
    let key = Id { ms: 0, seq: 0 };
    let mut rest = *first;
    for _ in 0..count {
        match skip_entry(key, head, &rest) {
            Ok(behind) => rest = behind,
            Err(_) => return None,
        }
    }
    Some(rest)
}

// What the mark of an entry changes.
fn marks_of(pack: &[u8], index: usize) -> Marks
    requires packed { IsPack pack.now }
    requires entry { (key : AnId) × CanMark key (texts pack.now) index }
    ensures marks { AreMarks (texts pack.now) index result }
    ensures short { length (texts pack.now) < 2 ^ 32 }
{
    let all = Rest::all(&known(pack));
    let Some((head, first)) = Head::read(&all) else {
        unreachable!()
    };
    let Some(rest) = skip_entries(&head, &first, index) else {
        unreachable!()
    };
    match rest.split_count() {
        Some((flags, _)) => Marks {
            at: all.len() - rest.len(),
            flags: flags + 1,
            live: head.live - 1,
            deleted: head.deleted + 1,
        },
        None => unreachable!(),
    }
}

fn insert_count(pack: &mut Vec<u8>, index: usize, count: usize) -> Result<(), Memory>
    requires packed { IsPack pack.old.items }
    requires index { index ≤ length (texts pack.old.items) }
    requires room { length pack.old.items + length (entry (number count)) < 2 ^ 32 }
    ensures { OnOk result (Inserts pack.old.items pack.new.items index (number count)) }
{
    let mut buffer = Buffer::new();
    insert(pack, index, buffer.format(count).as_bytes())
}

// Puts the numbers in their places. What they replace is taken out first, so that no step has more bytes than the last one. After
// `Memory` some may be missing.
fn put_marks(pack: &mut Vec<u8>, marks: &Marks) -> Result<(), Memory>
    requires packed { IsPack pack.old.items }
    requires behind_two { 2 ≤ marks.now.at }
    requires inside { marks.now.at < length (texts pack.old.items) }
    requires room { pack_len (exchanged (spellings_of pack.old.items) marks.now.at (spelling (number marks.now.live)) (spelling (number marks.now.deleted)) (spelling (number marks.now.flags))) < 2 ^
        32 }
    ensures { OnOk result (Exchanges pack.old.items pack.new.items marks.now.at (number marks.now.live) (number marks.now.deleted) (number marks.now.flags)) }
{
    remove(pack, marks.at);
    remove_range(pack, 0, 2);
    insert_count(pack, 0, marks.live)?;
    insert_count(pack, 1, marks.deleted)?;
    insert_count(pack, marks.at, marks.flags)
}

/// Marks the entry at an index deleted. `Memory` leaves all as before.
pub fn mark_deleted(pack: &mut Vec<u8>, index: usize) -> Result<(), Memory>
    requires packed { IsPack pack.old.items }
    requires entry { (key : AnId) × CanMark key (texts pack.old.items) index }
    requires room { pack_len (marked_spellings pack.old.items index) < 2 ^ 32 }
    ensures marked { OnOk result (IsMarked pack.old.items pack.new.items index) }
    ensures memory { OnErr result (pack.new.items ≡ pack.old.items) }
{
    let marks = marks_of(pack, index);
    let mut copy = Vec::from_slice(*pack.allocator(), pack)?;
    put_marks(&mut copy, &marks)?;
    *pack = copy;
    Ok(())
}

/// What is written over a node's bytes to mark an entry deleted: the counts of live and of marked entries, which are its seventh and its
/// ninth byte, and the entry's flags, at a place of theirs.
#[derive(Clone, Copy, Debug)]
pub struct MarkOver {
    pub live: u8,
    pub deleted: u8,
    pub at: usize,
    pub flags: u8,
}

// Whether a number stands at a place that takes one byte, and another one takes one byte too.
fn takes_byte(pack: &[u8], at: usize, number: usize) -> bool
    ensures { IsTrue result → TakesByte pack.now at number }
{
    at < pack.len() && pack[at] < 128 && number < 128
}

/// What is written over a node's bytes to mark the entry at an index deleted. `None` comes where a number that changes doesn't take one
/// byte before and then.
pub fn mark_over(pack: &[u8], index: usize) -> Option<MarkOver>
    requires packed { IsPack pack.now }
    requires entry { (key : AnId) × CanMark key (texts pack.now) index }
    ensures { IfSome result (λ mark. IsMarkOver pack.now index mark) }
{
    let marks = marks_of(pack, index);
    let at = known(pack).seek(marks.at)?;
    if !takes_byte(pack, 6, marks.live) {
        return None;
    }
    if !takes_byte(pack, 8, marks.deleted) {
        return None;
    }
    if !takes_byte(pack, at, marks.flags) {
        return None;
    }
    Some(MarkOver {
        live: marks.live as u8,
        deleted: marks.deleted as u8,
        at,
        flags: marks.flags as u8,
    })
}
