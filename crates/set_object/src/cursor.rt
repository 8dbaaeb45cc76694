// Walks over all members.

ghost use Rattle.std.specs.Prelude.{◌≡◌, ℕ, ◌+◌, ◌<◌, ◌≤◌, [], length, slice_index_or, MatchOption};
ghost use Rattle.listpack.specs.Element.{element_text};
ghost use Rattle.rehash_dict.specs.Table.{item};
ghost use Rattle.set_object.specs.Members.{IsMembers, listed};
ghost use Rattle.set_object.specs.Items.{IsPlace, IsCursor};

use crate::Members;
use crate::members::Body;
use blocks::BlockStore;
use collection_walk::next_item;
use listpack::Element;

/// The place of a member in a set's own order, found once. An edit of the set ends it.
#[derive(Clone, Copy, Debug)]
pub struct Cursor {
    index: usize,
    place: usize,
}

impl Cursor {
    /// The index of the member in the set's own order.
    pub fn index(self) -> usize
        ensures { result ≡ self.index }
    {
        self.index
    }
}

// The index behind another one of a list of so many.
fn index_behind(index: usize, len: usize) -> Option<usize>
    ensures { MatchOption result (len ≤ index + 1) (λ to. (to ≡ index + 1) × (to < len)) }
{
    if index >= len || len - index == 1 {
        return None;
    }
    Some(index + 1)
}

impl Members {
    // The place of the first member.
    fn first_place<B: BlockStore>(&self, store: &B) -> Option<usize>
        requires { IsMembers (B.blocks store.now) self.now }
        ensures { MatchOption result (length (listed (B.blocks store.now) self.now) ≡ 0) (λ place. IsPlace (B.blocks store.now) self.now.body 0 place) }
    {
        match &self.body {
            Body::Empty => None,
            Body::Numbers(packed) => { if packed.len == 0 { None } else { Some(0) } }
            Body::Pack(packed) => listpack::known(store.bytes(packed.at)).first(),
            Body::Table(table) => next_item(table, 0, table.top()),
        }
    }

    // The place of the member behind the one at a place.
    fn place_behind<B: BlockStore>(&self, store: &B, place: usize) -> Option<usize>
        requires sound { IsMembers (B.blocks store.now) self.now }
        requires place { (i : ℕ) × IsPlace (B.blocks store.now) self.now.body i place }
        ensures { (i : ℕ) → IsPlace (B.blocks store.now) self.now.body i place
            → MatchOption result (i + 1 ≡ length (listed (B.blocks store.now) self.now)) (λ to. IsPlace (B.blocks store.now) self.now.body (i + 1) to) }
    {
        match &self.body {
            Body::Empty => None,
            Body::Numbers(packed) => index_behind(place, packed.len),
            Body::Pack(packed) => listpack::known(store.bytes(packed.at)).next(place),
            Body::Table(table) => {
                let top = table.top();
                next_item(table, place + 1, top)
            }
        }
    }

    /// The place of the first member in the set's own order: the order of the numbers of an intset, of the entries of a listpack, of
    /// the item numbers of a dictionary.
    pub fn first<B: BlockStore>(&self, store: &B) -> Option<Cursor>
        requires { IsMembers (B.blocks store.now) self.now }
        ensures { MatchOption result (length (listed (B.blocks store.now) self.now) ≡ 0) (λ cursor. IsCursor (B.blocks store.now) self.now cursor × (cursor.index ≡ 0)) }
    {
        match self.first_place(store) {
            Some(place) => Some(Cursor { index: 0, place }),
            None => None,
        }
    }

    /// The member at a place.
    pub fn element<'a, B: BlockStore>(&'a self, store: &'a B, cursor: Cursor) -> Element<'a>
        requires sound { IsMembers (B.blocks store.now) self.now }
        requires cursor { IsCursor (B.blocks store.now) self.now cursor }
        ensures { element_text result ≡ slice_index_or (listed (B.blocks store.now) self.now) cursor.index [] }
    {
        self.element_at(store, cursor.place)
    }

    /// The place of the next member. From the first one on, all are met in one pass over the set.
    pub fn next<B: BlockStore>(&self, store: &B, cursor: Cursor) -> Option<Cursor>
        requires sound { IsMembers (B.blocks store.now) self.now }
        requires cursor { IsCursor (B.blocks store.now) self.now cursor }
        ensures { MatchOption result (cursor.index + 1 ≡ length (listed (B.blocks store.now) self.now)) (λ to. IsCursor (B.blocks store.now) self.now to × (to.index ≡ cursor.index + 1)) }
    {
        let left = self.len() - cursor.index;
        if left == 1 {
            return None;
        }
        match self.place_behind(store, cursor.place) {
            Some(place) => Some(Cursor {
                index: cursor.index + 1,
                place,
            }),
            None => None,
        }
    }
}
