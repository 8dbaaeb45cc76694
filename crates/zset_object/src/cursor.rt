// Walks along the ranks.

ghost use Rattle.std.specs.Prelude.{◌≡◌, ◌+◌, ◌≤◌, Some, MatchOption, slice_get};
ghost use Rattle.std.specs.FinMap.{len};
ghost use Rattle.listpack.specs.Element.{element_text};
ghost use Rattle.zset_object.specs.Scored.{IsScored, scores, ranked};
ghost use Rattle.zset_object.specs.Items.{IsCursor};

use crate::Scored;
use crate::packs::entry_at;
use crate::scored::Body;
use blocks::BlockStore;
use listpack::Element;
use pack_pairs::{next_place, seek};

// Where a member stands: at an offset of a listpack, or at a link of an ordered list.
#[derive(Drop)]
pub(crate) enum Place<'a> {
    Packed(usize),
    Linked(score_table::Cursor<'a>),
}

/// The place of a member in the order of a sorted set, found once. No edit comes between its steps.
#[derive(Drop)]
pub struct Cursor<'a> {
    pub(crate) rank: usize,
    pub(crate) place: Place<'a>,
}

impl<'a> Cursor<'a> {
    /// The rank of the member.
    pub fn rank(&self) -> usize
        ensures { result ≡ self.now.rank }
    {
        self.rank
    }
}

impl Scored {
    /// The place of the member at a rank, from which a walk goes on member by member. `None` comes exactly from the number of members on.
    pub fn cursor<'a, B: BlockStore>(&'a self, store: &B, rank: usize) -> Option<Cursor<'a>>
        requires { IsScored (B.blocks store.now) self.now }
        ensures { MatchOption result (len (scores (B.blocks store.now) self.now) ≤ rank) (λ cursor. IsCursor (B.blocks store.now) self.now cursor × (cursor.rank ≡ rank)) }
    {
        if rank >= self.len() {
            return None;
        }
        match &self.body {
            Body::Empty => None,
            Body::Pack(packed) => Some(Cursor {
                rank,
                place: Place::Packed(seek(store.bytes(packed.at), rank)),
            }),
            Body::Table(table) => match table.cursor(rank) {
                Some(link) => Some(Cursor {
                    rank,
                    place: Place::Linked(link),
                }),
                None => None,
            },
        }
    }

    /// The member at a place, and its score.
    pub fn pair<'a, B: BlockStore>(
        &'a self,
        store: &'a B,
        cursor: &Cursor<'_>,
    ) -> (Element<'a>, i64)
        requires sound { IsScored (B.blocks store.now) self.now }
        requires cursor { IsCursor (B.blocks store.now) self.now cursor.now }
        ensures { slice_get (ranked (B.blocks store.now) self.now) cursor.now.rank ≡ Some (result.1, element_text result.0) }
    {
        match &self.body {
            Body::Empty => unreachable!(),
            Body::Pack(packed) => match &cursor.place {
                Place::Packed(at) => entry_at(store.bytes(packed.at), *at),
                Place::Linked(_) => unreachable!(),
            },
            Body::Table(_) => match &cursor.place {
                Place::Packed(_) => unreachable!(),
                Place::Linked(link) => {
                    let (score, member) = link.get();
                    (Element::Text(store.bytes(member)), score)
                }
            },
        }
    }

    /// The place of the next member. `None` comes exactly at the last one.
    pub fn next<'a, B: BlockStore>(&'a self, store: &B, cursor: &Cursor<'a>) -> Option<Cursor<'a>>
        requires sound { IsScored (B.blocks store.now) self.now }
        requires cursor { IsCursor (B.blocks store.now) self.now cursor.now }
        ensures { MatchOption result (cursor.now.rank + 1 ≡ len (scores (B.blocks store.now) self.now)) (λ to. IsCursor (B.blocks store.now) self.now to × (to.rank ≡ cursor.now.rank + 1)) }
    {
        match &self.body {
            Body::Empty => None,
            Body::Pack(packed) => match &cursor.place {
                Place::Packed(at) => match next_place(store.bytes(packed.at), *at) {
                    Some(to) => Some(Cursor {
                        rank: cursor.rank + 1,
                        place: Place::Packed(to),
                    }),
                    None => None,
                },
                Place::Linked(_) => unreachable!(),
            },
            Body::Table(_) => match &cursor.place {
                Place::Packed(_) => unreachable!(),
                Place::Linked(link) => match link.next() {
                    Some(to) => Some(Cursor {
                        rank: cursor.rank + 1,
                        place: Place::Linked(to),
                    }),
                    None => None,
                },
            },
        }
    }
}
