// Walks over all fields and values.

ghost use Rattle.std.specs.Prelude.{◌≡◌, ℕ, ◌+◌, ◌<◌, [], length, slice_index_or, MatchOption};
ghost use Rattle.listpack.specs.Element.{element_text};
ghost use Rattle.rehash_dict.specs.Table.{item};
ghost use Rattle.hash_object.specs.Fields.{IsFields, listed};
ghost use Rattle.hash_object.specs.Items.{IsPlace, IsCursor};

use crate::Fields;
use crate::fields::Body;
use crate::packs::pair_from;
use blocks::BlockStore;
use collection_walk::next_item;
use listpack::Element;
use pack_pairs::{first_place, next_place};

/// The place of a field in a hash's own order, found once. An edit of the hash ends it.
#[derive(Clone, Copy, Debug)]
pub struct Cursor {
    index: usize,
    place: usize,
}

impl Cursor {
    /// The index of the field in the hash's own order.
    pub fn index(self) -> usize
        ensures { result ≡ self.index }
    {
        self.index
    }
}

impl Fields {
    // The place of the first field.
    fn first_place<B: BlockStore>(&self, store: &B) -> Option<usize>
        requires { IsFields (B.blocks store.now) self.now }
        ensures { MatchOption result (length (listed (B.blocks store.now) self.now) ≡ 0) (λ place. IsPlace (B.blocks store.now) self.now.body 0 place) }
    {
        match &self.body {
            Body::Empty => None,
            Body::Pack(packed) => first_place(store.bytes(packed.at)),
            Body::Table(table) => next_item(table, 0, table.top()),
        }
    }

    // The place of the field behind the one at a place.
    fn place_behind<B: BlockStore>(&self, store: &B, place: usize) -> Option<usize>
        requires sound { IsFields (B.blocks store.now) self.now }
        requires place { (i : ℕ) × IsPlace (B.blocks store.now) self.now.body i place }
        ensures { (i : ℕ) → IsPlace (B.blocks store.now) self.now.body i place
            → MatchOption result (i + 1 ≡ length (listed (B.blocks store.now) self.now)) (λ to. IsPlace (B.blocks store.now) self.now.body (i + 1) to) }
    {
        match &self.body {
            Body::Empty => None,
            Body::Pack(packed) => next_place(store.bytes(packed.at), place),
            Body::Table(table) => {
                let top = table.top();
                next_item(table, place + 1, top)
            }
        }
    }

    /// The place of the first field in the hash's own order: the order of the pairs of a listpack, of the item numbers of a dictionary.
    pub fn first<B: BlockStore>(&self, store: &B) -> Option<Cursor>
        requires { IsFields (B.blocks store.now) self.now }
        ensures { MatchOption result (length (listed (B.blocks store.now) self.now) ≡ 0) (λ cursor. IsCursor (B.blocks store.now) self.now cursor × (cursor.index ≡ 0)) }
    {
        match self.first_place(store) {
            Some(place) => Some(Cursor { index: 0, place }),
            None => None,
        }
    }

    /// The field at a place, and its value.
    pub fn pair<'a, B: BlockStore>(
        &'a self,
        store: &'a B,
        cursor: Cursor,
    ) -> (Element<'a>, Element<'a>)
        requires sound { IsFields (B.blocks store.now) self.now }
        requires cursor { IsCursor (B.blocks store.now) self.now cursor }
        ensures { (element_text result.0, element_text result.1) ≡ slice_index_or (listed (B.blocks store.now) self.now) cursor.index ([], []) }
    {
        match &self.body {
            Body::Empty => unreachable!(),
            Body::Pack(packed) => pair_from(store.bytes(packed.at), cursor.place),
            Body::Table(table) => {
                let (key, value) = table.entry(cursor.place);
                (
                    Element::Text(store.bytes(key)),
                    Element::Text(store.bytes(*value)),
                )
            }
        }
    }

    /// The place of the next field. From the first one on, all are met in one pass over the hash.
    pub fn next<B: BlockStore>(&self, store: &B, cursor: Cursor) -> Option<Cursor>
        requires sound { IsFields (B.blocks store.now) self.now }
        requires cursor { IsCursor (B.blocks store.now) self.now cursor }
        ensures { MatchOption result (cursor.index + 1 ≡ length (listed (B.blocks store.now) self.now)) (λ to. IsCursor (B.blocks store.now) self.now to × (to.index ≡ cursor.index + 1)) }
    {
        let left = self.len() - cursor.index;
        if left == 1 {
            return None;
        }
        match self.place_behind(store, cursor.place) {
            Some(place) => Some(Cursor {
                index: cursor.index + 1,
                place,
            }),
            None => None,
        }
    }
}
