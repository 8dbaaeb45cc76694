//! The parts of streams, one by one.

ghost use Rattle.std.specs.Prelude.{◌≡◌, ◌≤◌, length, IfOk, IfErr};
ghost use Rattle.rdb_grammar.specs.Lengths.{a_length};
ghost use Rattle.rdb_grammar.specs.StreamParts.{two_lengths, sixteen_bytes, has_marks, has_active, node_head, node_string, entry_count, is_from, last_id, marks_behind, marks_with};
ghost use Rattle.rdb_grammar.specs.StreamParts.{group_last, handed, times};
ghost use Rattle.rdb_grammar.specs.Places.{Stands, Fails};
ghost use Rattle.rdb_grammar.specs.Views.{text_of, head_of as head_seen, pair_of, handed_of as handed_seen, marks_of as marks_seen};
ghost use Rattle.rdb_grammar.specs.Returns.{Returns};

use crate::fault::{FileFault, LoadKind, Refused};
use crate::lengths::{length_of, part_of, u64_at, u64_le_at};
use crate::placing::placed;
use crate::strings::{Chunk, Head, body_of, head_of};
use crate::values::StreamType;
use stream_node::Id;

/// The most bytes of a stream node's listpack.
const LONGEST_NODE: u64 = 536_870_000;

/// When a pending entry was handed out last, in milliseconds, and how often.
#[derive(Clone, Copy)]
pub struct Handed {
    pub moment: u64,
    pub count: u64,
}

/// The marks of a stream: its last id, the greatest one that was deleted, and how many entries were added.
#[derive(Clone, Copy)]
pub struct Marks {
    pub last: Id,
    pub deleted: Id,
    pub added: u64,
}

// Whether a stream of a type has more marks than its last id.
fn has_more(stream: StreamType) -> bool
    ensures { result ≡ has_marks stream }
{
    match stream {
        StreamType::First => false,
        StreamType::Second => true,
        StreamType::Third => true,
    }
}

// Whether a consumer of a stream of a type has a moment at which it was active.
fn was_active(stream: StreamType) -> bool
    ensures { result ≡ has_active stream }
{
    match stream {
        StreamType::First => false,
        StreamType::Second => false,
        StreamType::Third => true,
    }
}

/// The length that begins at the offset `at` of a file's bytes, and the offset behind it. Refused exactly by the length's first
/// fault.
pub fn next_length(bytes: &[u8], at: usize) -> Result<(u64, usize), FileFault>
    requires { at ≤ length bytes.now }
    ensures number { IfOk result (λ x. Stands a_length x.0 bytes.now at x.1) }
    ensures fault { IfErr result (λ e. Fails a_length bytes.now at e.kind e.at) }
{
    placed(bytes, length_of(&bytes[at..]))
}

// An id as two lengths.
fn id_of(bytes: &[u8]) -> Result<(Id, &[u8]), Refused>
    ensures { Returns (λ x. (pair_of x.0, x.1.now)) result (two_lengths.read bytes.now) }
{
    let (ms, rest) = length_of(bytes)?;
    let (seq, rest) = length_of(rest)?;
    Ok((Id { ms, seq }, rest))
}

/// The id of two lengths that begins at the offset `at` of a file's bytes, and the offset behind it. Refused exactly by the id's
/// first fault.
pub fn next_id(bytes: &[u8], at: usize) -> Result<(Id, usize), FileFault>
    requires { at ≤ length bytes.now }
    ensures id { IfOk result (λ x. Stands two_lengths (pair_of x.0) bytes.now at x.1) }
    ensures fault { IfErr result (λ e. Fails two_lengths bytes.now at e.kind e.at) }
{
    placed(bytes, id_of(&bytes[at..]))
}

// An id of sixteen bytes.
fn key_id_of(bytes: &[u8]) -> Result<(Id, &[u8]), Refused>
    ensures { Returns (λ x. (pair_of x.0, x.1.now)) result (sixteen_bytes.read bytes.now) }
{
    let (ms, rest) = u64_at(bytes)?;
    let (seq, rest) = u64_at(rest)?;
    Ok((Id { ms, seq }, rest))
}

/// The id of sixteen bytes that begins at the offset `at` of a file's bytes, and the offset behind it. Refused exactly by the id's
/// first fault.
pub fn next_key_id(bytes: &[u8], at: usize) -> Result<(Id, usize), FileFault>
    requires { at ≤ length bytes.now }
    ensures id { IfOk result (λ x. Stands sixteen_bytes (pair_of x.0) bytes.now at x.1) }
    ensures fault { IfErr result (λ e. Fails sixteen_bytes bytes.now at e.kind e.at) }
{
    placed(bytes, key_id_of(&bytes[at..]))
}

// How the string of a node begins.
fn node_head_of(bytes: &[u8]) -> Result<(Head, &[u8]), Refused>
    ensures { Returns (λ x. (head_seen x.0, x.1.now)) result (node_head.read bytes.now) }
{
    let (head, rest) = head_of(bytes)?;
    if let Head::Len(n) = head {
        if n > LONGEST_NODE {
            return Err(Refused {
                kind: LoadKind::TooLong,
                left: bytes.len(),
            });
        }
    }
    Ok((head, rest))
}

// The string of a node.
fn node_string_of(bytes: &[u8]) -> Result<(Chunk<'_>, &[u8]), Refused>
    ensures { Returns (λ x. (text_of x.0, x.1.now)) result (node_string.read bytes.now) }
{
    let (head, rest) = node_head_of(bytes)?;
    body_of(head, rest)
}

/// The string of a stream's node that begins at the offset `at` of a file's bytes, and the offset behind it. It has 536,870,000
/// bytes at most. Refused exactly by the string's first fault.
pub fn next_node(bytes: &[u8], at: usize) -> Result<(Chunk<'_>, usize), FileFault>
    requires { at ≤ length bytes.now }
    ensures string { IfOk result (λ x. Stands node_string (text_of x.0) bytes.now at x.1) }
    ensures fault { IfErr result (λ e. Fails node_string bytes.now at e.kind e.at) }
{
    placed(bytes, node_string_of(&bytes[at..]))
}

// The number of entries, which is to be this one.
fn entry_count_of(bytes: &[u8], live: u64) -> Result<(u64, &[u8]), Refused>
    ensures { Returns (λ x. (x.0, x.1.now)) result ((entry_count live).read bytes.now) }
{
    let (count, rest) = length_of(bytes)?;
    if count != live {
        return Err(Refused {
            kind: LoadKind::StreamShape,
            left: bytes.len(),
        });
    }
    Ok((count, rest))
}

// Whether an id is not below another one, where there is one.
fn is_from_id(greatest: Option<Id>, last: Id) -> bool
    ensures { result ≡ is_from greatest (pair_of last) }
{
    match greatest {
        Some(id) => !last.is_below(id),
        None => true,
    }
}

// The last id, which is not to be below this one.
fn last_id_of(bytes: &[u8], greatest: Option<Id>) -> Result<(Id, &[u8]), Refused>
    ensures { Returns (λ x. (pair_of x.0, x.1.now)) result ((last_id (is_from greatest)).read bytes.now) }
{
    let (last, rest) = id_of(bytes)?;
    if !is_from_id(greatest, last) {
        return Err(Refused {
            kind: LoadKind::StreamShape,
            left: bytes.len(),
        });
    }
    Ok((last, rest))
}

// The marks behind the last id.
fn marks_behind_of(
    bytes: &[u8],
    stream: StreamType,
    count: u64,
    last: Id,
) -> Result<(Marks, &[u8]), Refused>
    ensures { Returns (λ x. (marks_seen x.0, x.1.now)) result ((marks_behind (has_marks stream) count (pair_of last)).read bytes.now) }
{
    if !has_more(stream) {
        let marks = Marks {
            last,
            deleted: Id { ms: 0, seq: 0 },
            added: count,
        };
        return Ok((marks, bytes));
    }
    let (_first, rest) = id_of(bytes)?;
    let (deleted, rest) = id_of(rest)?;
    let (added, rest) = length_of(rest)?;
    let marks = Marks {
        last,
        deleted,
        added,
    };
    Ok((marks, rest))
}

// The number of entries and the marks.
fn marks_of(
    bytes: &[u8],
    stream: StreamType,
    live: u64,
    greatest: Option<Id>,
) -> Result<(Marks, &[u8]), Refused>
    ensures { Returns (λ x. (marks_seen x.0, x.1.now)) result ((marks_with stream live (is_from greatest)).read bytes.now) }
{
    let (count, rest) = entry_count_of(bytes, live)?;
    let (last, rest) = last_id_of(rest, greatest)?;
    marks_behind_of(rest, stream, count, last)
}

/// The number of a stream's entries and its marks, which begin at the offset `at` of a file's bytes, and the offset behind them.
/// `live` entries are there, the greatest id of which is `greatest`. Refused exactly by the first fault: another number, or a last
/// id below the greatest one, among them.
pub fn next_marks(
    bytes: &[u8],
    at: usize,
    stream: StreamType,
    live: u64,
    greatest: Option<Id>,
) -> Result<(Marks, usize), FileFault>
    requires { at ≤ length bytes.now }
    ensures marks { IfOk result (λ x. Stands (marks_with stream live (is_from greatest)) (marks_seen x.0) bytes.now at x.1) }
    ensures fault { IfErr result (λ e. Fails (marks_with stream live (is_from greatest)) bytes.now at e.kind e.at) }
{
    placed(bytes, marks_of(&bytes[at..], stream, live, greatest))
}

// The last id of a group.
fn group_last_of(bytes: &[u8], stream: StreamType) -> Result<(Id, &[u8]), Refused>
    ensures { Returns (λ x. (pair_of x.0, x.1.now)) result ((group_last stream).read bytes.now) }
{
    let (last, rest) = id_of(bytes)?;
    if !has_more(stream) {
        return Ok((last, rest));
    }
    let (_read, rest) = length_of(rest)?;
    Ok((last, rest))
}

/// The last id that a group handed out, behind the group's name at the offset `at` of a file's bytes, and the offset of the number
/// of pending entries. Refused exactly by its first fault.
pub fn next_group(bytes: &[u8], at: usize, stream: StreamType) -> Result<(Id, usize), FileFault>
    requires { at ≤ length bytes.now }
    ensures last { IfOk result (λ x. Stands (group_last stream) (pair_of x.0) bytes.now at x.1) }
    ensures fault { IfErr result (λ e. Fails (group_last stream) bytes.now at e.kind e.at) }
{
    placed(bytes, group_last_of(&bytes[at..], stream))
}

// How a pending entry was handed out.
fn handed_of(bytes: &[u8]) -> Result<(Handed, &[u8]), Refused>
    ensures { Returns (λ x. (handed_seen x.0, x.1.now)) result (handed.read bytes.now) }
{
    let (moment, rest) = u64_le_at(bytes)?;
    let (count, rest) = length_of(rest)?;
    Ok((Handed { moment, count }, rest))
}

/// When and how often a pending entry was handed out, behind its id at the offset `at` of a file's bytes, and the offset behind
/// it. Refused exactly by its first fault.
pub fn next_handed(bytes: &[u8], at: usize) -> Result<(Handed, usize), FileFault>
    requires { at ≤ length bytes.now }
    ensures handed { IfOk result (λ x. Stands handed (handed_seen x.0) bytes.now at x.1) }
    ensures fault { IfErr result (λ e. Fails handed bytes.now at e.kind e.at) }
{
    placed(bytes, handed_of(&bytes[at..]))
}

// The moments of a consumer, which are passed over.
fn times_of(bytes: &[u8], stream: StreamType) -> Result<&[u8], Refused>
    ensures { Returns (λ x. (tt, x.now)) result ((times stream).read bytes.now) }
{
    let (_seen, rest) = part_of(bytes, 8)?;
    if !was_active(stream) {
        return Ok(rest);
    }
    let (_active, rest) = part_of(rest, 8)?;
    Ok(rest)
}

/// The offset behind the moments of a consumer, which begin behind its name at the offset `at` of a file's bytes. Refused exactly by
/// their first fault.
pub fn next_times(bytes: &[u8], at: usize, stream: StreamType) -> Result<usize, FileFault>
    requires { at ≤ length bytes.now }
    ensures times { IfOk result (λ next. Stands (times stream) tt bytes.now at next) }
    ensures fault { IfErr result (λ e. Fails (times stream) bytes.now at e.kind e.at) }
{
    match times_of(&bytes[at..], stream) {
        Ok(rest) => Ok(bytes.len() - rest.len()),
        Err(e) => Err(FileFault {
            kind: e.kind,
            at: (bytes.len() - e.left) as u64,
        }),
    }
}
