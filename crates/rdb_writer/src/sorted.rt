//! Sorted sets, member by member (RDB file format, "Sorted Set Encoding").

ghost use Rattle.listpack.specs.Element.{element_text};
ghost use Rattle.zset_object.specs.Scored.{IsScored, ranked, scores};
ghost use Rattle.plain_world.specs.Worlds.{SortedOf};
ghost use Rattle.fit_worlds.specs.Fit.{IsShort, IsScore, IsFitValue};
ghost use Rattle.rdb_parts.specs.Pens.{Writes};
ghost use Rattle.rdb_writer.specs.Collections.{member_word, members_word};
ghost use Rattle.rdb_writer.specs.Keys.{WritesKey};

use crate::elements::write_element;
use blocks::BlockStore;
use listpack::Element;
use outside::{HostFault, Shelf};
use rdb_parts::{Pen, write_length, write_name, write_score};
use zset_object::Scored;

// The type of a sorted set whose scores are binary numbers.
const SORTED_SET: u8 = 5;

// Writes a member and its score.
fn write_member<F: Shelf>(
    shelf: &mut F,
    pen: &mut Pen,
    member: Element<'_>,
    score: i64,
) -> Result<(), HostFault>
    requires { IsScore score }
    ensures { Writes (F.seen shelf.old) (F.seen shelf.new) pen.old pen.new (member_word (score, element_text member.entry)) result }
{
    write_element(shelf, pen, member)?;
    write_score(shelf, pen, score)
}

// Writes the members of a sorted set with their scores, one behind the other.
fn write_ranked<F: Shelf, B: BlockStore>(
    shelf: &mut F,
    pen: &mut Pen,
    store: &B,
    scored: &Scored,
) -> Result<(), HostFault>
    requires sound { IsScored (B.blocks store.now) scored.now }
    requires fit { IsFitValue (SortedOf (scores (B.blocks store.now) scored.now)) }
    ensures { Writes (F.seen shelf.old) (F.seen shelf.new) pen.old pen.new (members_word (ranked (B.blocks store.now) scored.now)) result }
{
    let count = scored.len();
    let mut place = scored.cursor(store, 0);
    for index in 0..count {
        match place {
            None => unreachable!(),
            Some(cursor) => {
                let (member, score) = scored.pair(store, &cursor);
                write_member(shelf, pen, member, score)?;
                place = scored.next(store, &cursor);
            }
        }
    }
    Ok(())
}

/// Writes a key with a sorted set.
pub(crate) fn write_scored<F: Shelf, B: BlockStore>(
    shelf: &mut F,
    pen: &mut Pen,
    store: &B,
    name: &[u8],
    scored: &Scored,
) -> Result<(), HostFault>
    requires sound { IsScored (B.blocks store.now) scored.now }
    requires short { IsShort name.now }
    requires fit { IsFitValue (SortedOf (scores (B.blocks store.now) scored.now)) }
    ensures { WritesKey (F.seen shelf.old) (F.seen shelf.new) pen.old pen.new name.now (SortedOf (scores (B.blocks store.now) scored.now)) result }
{
    write_name(shelf, pen, SORTED_SET, name)?;
    write_length(shelf, pen, scored.len() as u64)?;
    write_ranked(shelf, pen, store, scored)
}
