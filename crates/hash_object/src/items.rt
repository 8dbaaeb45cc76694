// Fields and values by their item numbers.

ghost use Rattle.std.specs.Prelude.{◌≡◌, ℕ, ◌<◌, ◌↔◌, Some, IsSome, IsTrue};
ghost use Rattle.blocks.specs.Blocks.{Blocks};
ghost use Rattle.listpack.specs.Element.{element_text};
ghost use Rattle.hash_object.specs.Fields.{IsFields};
ghost use Rattle.hash_object.specs.Items.{pair_at, top_of};

use crate::Fields;
use crate::fields::Body;
use crate::packs::pair_from;
use blocks::BlockStore;
use listpack::Element;
use pack_pairs::seek;

impl Fields {
    /// A number above each item number: that of the dictionary, or the number of the fields of a packed hash.
    pub fn top(&self) -> usize
        ensures value { result ≡ top_of self.now }
        ensures above { (m : Blocks) → IsFields m self.now → (at : ℕ) → IsSome (pair_at m self.now at) → at < result }
    {
        match &self.body {
            Body::Empty => 0,
            Body::Pack(packed) => packed.len,
            Body::Table(table) => table.top(),
        }
    }

    /// Whether a field has the item number.
    pub fn is_entry(&self, item: usize) -> bool
        ensures { (m : Blocks) → IsFields m self.now → IsTrue result ↔ IsSome (pair_at m self.now item) }
    {
        match &self.body {
            Body::Empty => false,
            Body::Pack(packed) => item < packed.len,
            Body::Table(table) => table.is_entry(item),
        }
    }

    /// The field of an item number, and its value.
    pub fn at<'a, B: BlockStore>(&'a self, store: &'a B, item: usize) -> (Element<'a>, Element<'a>)
        requires sound { IsFields (B.blocks store.now) self.now }
        requires entry { IsSome (pair_at (B.blocks store.now) self.now item) }
        ensures { pair_at (B.blocks store.now) self.now item ≡ Some (element_text result.0, element_text result.1) }
    {
        match &self.body {
            Body::Empty => unreachable!(),
            Body::Pack(packed) => {
                let bytes = store.bytes(packed.at);
                pair_from(bytes, seek(bytes, item))
            }
            Body::Table(table) => {
                let (key, value) = table.entry(item);
                (
                    Element::Text(store.bytes(key)),
                    Element::Text(store.bytes(*value)),
                )
            }
        }
    }
}
