// Members by their item numbers.

ghost use Rattle.std.specs.Prelude.{◌≡◌, ℕ, ◌<◌, ◌↔◌, Some, IsSome, IsTrue, [], length, slice_index_or};
ghost use Rattle.blocks.specs.Blocks.{Blocks};
ghost use Rattle.listpack.specs.Element.{element_text};
ghost use Rattle.listpack.specs.Pack.{IsAt, IsPack, texts};
ghost use Rattle.set_object.specs.Members.{IsMembers, listed};
ghost use Rattle.set_object.specs.Items.{IsPlace, member_at, top_of};

use crate::Members;
use crate::members::Body;
use crate::packs::number_element;
use blocks::BlockStore;
use listpack::Element;

// The offset of the element at an index of a listpack.
fn offset_of(bytes: &[u8], index: usize) -> usize
    requires pack { IsPack bytes.now }
    requires inside { index < length (texts bytes.now) }
    ensures { IsAt bytes.now index result }
{
    match listpack::known(bytes).seek(index) {
        Some(at) => at,
        None => unreachable!(),
    }
}

impl Members {
    /// A number above each item number: that of the dictionary, or the number of the members of a packed set.
    pub fn top(&self) -> usize
        ensures value { result ≡ top_of self.now }
        ensures above { (m : Blocks) → IsMembers m self.now → (at : ℕ) → IsSome (member_at m self.now at) → at < result }
    {
        match &self.body {
            Body::Empty => 0,
            Body::Numbers(packed) => packed.len,
            Body::Pack(packed) => packed.len,
            Body::Table(table) => table.top(),
        }
    }

    /// Whether a member has the item number.
    pub fn is_entry(&self, item: usize) -> bool
        ensures { (m : Blocks) → IsMembers m self.now → IsTrue result ↔ IsSome (member_at m self.now item) }
    {
        match &self.body {
            Body::Empty => false,
            Body::Numbers(packed) => item < packed.len,
            Body::Pack(packed) => item < packed.len,
            Body::Table(table) => table.is_entry(item),
        }
    }

    /// The member of an item number.
    pub fn at<'a, B: BlockStore>(&'a self, store: &'a B, item: usize) -> Element<'a>
        requires sound { IsMembers (B.blocks store.now) self.now }
        requires entry { IsSome (member_at (B.blocks store.now) self.now item) }
        ensures { member_at (B.blocks store.now) self.now item ≡ Some (element_text result) }
    {
        let place = match &self.body {
            Body::Pack(packed) => offset_of(store.bytes(packed.at), item),
            _ => item,
        };
        self.element_at(store, place)
    }

    // The member at a place of its form.
    pub(crate) fn element_at<'a, B: BlockStore>(&'a self, store: &'a B, place: usize) -> Element<'a>
        requires sound { IsMembers (B.blocks store.now) self.now }
        requires place { (i : ℕ) × IsPlace (B.blocks store.now) self.now.body i place }
        ensures { (i : ℕ) → IsPlace (B.blocks store.now) self.now.body i place → element_text result ≡ slice_index_or (listed (B.blocks store.now) self.now) i [] }
    {
        match &self.body {
            Body::Empty => unreachable!(),
            Body::Numbers(packed) => number_element(store.bytes(packed.at), place),
            Body::Pack(packed) => listpack::known(store.bytes(packed.at)).get(place),
            Body::Table(table) => Element::Text(store.bytes(table.entry(place).0)),
        }
    }
}
