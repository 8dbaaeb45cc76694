//! Items: what stands behind an opcode or the type of a value.

ghost use Rattle.std.specs.Prelude.{◌≡◌, ℕ, List};
ghost use Rattle.rdb_grammar.specs.Format.{Goes, Refuses, turned, branch_read};
ghost use Rattle.rdb_grammar.specs.Items.{Whole, key_with, keyed, opens, packs_in, opens_nodes, streams, whole_behind as whole_behind_of, part_behind as part_behind_of, part};
ghost use Rattle.rdb_grammar.specs.Values.{string_value, value_behind as value_behind_of};
ghost use Rattle.rdb_grammar.specs.Views.{part_said};
ghost use Rattle.rdb_grammar.specs.Returns.{Returns};

use crate::codes;
use crate::fault::{LoadKind, Refused};
use crate::lengths::length_of;
use crate::opcodes::{
    database, deadline_in_ms, deadline_in_seconds, frequency, idle_time, name_and_text, sizes,
};
use crate::strings::{Chunk, string_of};
use crate::values::{Collection, FileValue, Layout, Packed, StreamType};

/// What an item says.
#[derive(Clone, Copy, Debug)]
pub enum Meaning<'a> {
    /// Nothing that is kept.
    Passed,
    /// The deadline of the next key, in milliseconds.
    Deadline(u64),
    /// The database of the keys that follow.
    Database(usize),
    /// The end of the items.
    End,
    /// A key with its value.
    Key {
        name: Chunk<'a>,
        value: FileValue<'a>,
    },
}

/// A key, and a value of type 0.
fn text_item_of(bytes: &[u8]) -> Result<(Meaning<'_>, &[u8]), Refused>
    ensures { Returns (λ x. (part_said x.0, x.1.now)) result (branch_read (turned Whole (Goes (key_with string_value))) bytes.now) }
{
    let (name, rest) = string_of(bytes)?;
    let (text, rest) = string_of(rest)?;
    let value = FileValue::Text(text);
    Ok((Meaning::Key { name, value }, rest))
}

/// A key, and how many elements its collection has.
fn collection_of(collection: Collection, bytes: &[u8]) -> Result<(Meaning<'_>, &[u8]), Refused>
    ensures { Returns (λ x. (part_said x.0, x.1.now)) result (branch_read (opens collection) bytes.now) }
{
    let (name, rest) = string_of(bytes)?;
    let (count, rest) = length_of(rest)?;
    let value = FileValue::Laid(Layout::Elements(collection, count));
    Ok((Meaning::Key { name, value }, rest))
}

/// A key, behind which a string stands that its collection is packed in.
fn packed_of(packed: Packed, bytes: &[u8]) -> Result<(Meaning<'_>, &[u8]), Refused>
    ensures { Returns (λ x. (part_said x.0, x.1.now)) result (branch_read (packs_in packed) bytes.now) }
{
    let (name, rest) = string_of(bytes)?;
    let value = FileValue::Laid(Layout::Packed(packed));
    Ok((Meaning::Key { name, value }, rest))
}

/// A key, and how many nodes its list has.
fn nodes_of(bytes: &[u8]) -> Result<(Meaning<'_>, &[u8]), Refused>
    ensures { Returns (λ x. (part_said x.0, x.1.now)) result (branch_read opens_nodes bytes.now) }
{
    let (name, rest) = string_of(bytes)?;
    let (count, rest) = length_of(rest)?;
    let value = FileValue::Laid(Layout::Nodes(count));
    Ok((Meaning::Key { name, value }, rest))
}

/// A key, behind which a stream of a type stands.
fn stream_of(stream: StreamType, bytes: &[u8]) -> Result<(Meaning<'_>, &[u8]), Refused>
    ensures { Returns (λ x. (part_said x.0, x.1.now)) result (branch_read (streams stream) bytes.now) }
{
    let (name, rest) = string_of(bytes)?;
    let value = FileValue::Laid(Layout::Stream(stream));
    Ok((Meaning::Key { name, value }, rest))
}

// The byte before these is refused.
fn refused(kind: LoadKind, rest: &[u8]) -> Result<(Meaning<'_>, &[u8]), Refused>
    ensures { Returns (λ x. (part_said x.0, x.1.now)) result (branch_read (turned Whole (Refuses kind)) rest.now) }
{
    Err(Refused {
        kind,
        left: rest.len() + 1,
    })
}

fn value_behind(first: u8, rest: &[u8]) -> Result<(Meaning<'_>, &[u8]), Refused>
    ensures { Returns (λ x. (part_said x.0, x.1.now)) result (branch_read (turned Whole (keyed (value_behind_of first))) rest.now) }
{
    match first {
        codes::STRING => text_item_of(rest),
        codes::OLD_SORTED_SET
        | codes::HASH_ZIPMAP
        | codes::LIST_ZIPLIST
        | codes::SORTED_SET_ZIPLIST
        | codes::HASH_ZIPLIST
        | codes::LIST_OF_ZIPLISTS => refused(LoadKind::OldKind, rest),
        codes::OLD_MODULE | codes::MODULE => refused(LoadKind::Module, rest),
        _ => refused(LoadKind::Kind, rest),
    }
}

fn whole_behind(first: u8, rest: &[u8]) -> Result<(Meaning<'_>, &[u8]), Refused>
    ensures { Returns (λ x. (part_said x.0, x.1.now)) result (branch_read (turned Whole (whole_behind_of first)) rest.now) }
{
    match first {
        codes::IDLE => idle_time(rest),
        codes::FREQUENCY => frequency(rest),
        codes::AUXILIARY => name_and_text(rest),
        codes::SIZES => sizes(rest),
        codes::DEADLINE_MS => deadline_in_ms(rest),
        codes::DEADLINE => deadline_in_seconds(rest),
        codes::SELECT_DB => database(rest),
        codes::EOF => Ok((Meaning::End, rest)),
        codes::MODULE_DATA => refused(LoadKind::Module, rest),
        codes::FUNCTION | codes::OLD_FUNCTION => refused(LoadKind::Functions, rest),
        _ => value_behind(first, rest),
    }
}

fn part_behind(first: u8, rest: &[u8]) -> Result<(Meaning<'_>, &[u8]), Refused>
    ensures { Returns (λ x. (part_said x.0, x.1.now)) result (branch_read (part_behind_of first) rest.now) }
{
    match first {
        codes::LIST => collection_of(Collection::List, rest),
        codes::SET => collection_of(Collection::Set, rest),
        codes::HASH => collection_of(Collection::Hash, rest),
        codes::SORTED_SET => collection_of(Collection::SortedSet, rest),
        codes::INTSET => packed_of(Packed::Numbers, rest),
        codes::PACKED_SET => packed_of(Packed::Texts, rest),
        codes::PACKED_HASH => packed_of(Packed::Pairs, rest),
        codes::PACKED_SORTED_SET => packed_of(Packed::Scores, rest),
        codes::LIST_OF_NODES => nodes_of(rest),
        codes::STREAM => stream_of(StreamType::First, rest),
        codes::SECOND_STREAM => stream_of(StreamType::Second, rest),
        codes::THIRD_STREAM => stream_of(StreamType::Third, rest),
        _ => whole_behind(first, rest),
    }
}

/// The item that the bytes begin with; of a key with a collection what stands before its parts.
pub(crate) fn first_part(bytes: &[u8]) -> Result<(Meaning<'_>, &[u8]), Refused>
    ensures { Returns (λ x. (part_said x.0, x.1.now)) result (part.read bytes.now) }
{
    match bytes {
        [] => Err(Refused {
            kind: LoadKind::Ended,
            left: 0,
        }),
        [first, rest @ ..] => part_behind(*first, rest),
    }
}
