// Members and scores by their item numbers.

ghost use Rattle.std.specs.Prelude.{◌≡◌, ℕ, ◌<◌, ◌↔◌, Some, IsSome, IsTrue};
ghost use Rattle.blocks.specs.Blocks.{Blocks};
ghost use Rattle.listpack.specs.Element.{element_text};
ghost use Rattle.zset_object.specs.Scored.{IsScored};
ghost use Rattle.zset_object.specs.Items.{pair_at, top_of};

use crate::Scored;
use crate::packs::entry_at;
use crate::scored::Body;
use blocks::BlockStore;
use listpack::Element;
use pack_pairs::seek;

impl Scored {
    /// A number above each item number: that of the table, or the number of the members of a packed sorted set.
    pub fn top(&self) -> usize
        ensures value { result ≡ top_of self.now }
        ensures above { (m : Blocks) → IsScored m self.now → (at : ℕ) → IsSome (pair_at m self.now at) → at < result }
    {
        match &self.body {
            Body::Empty => 0,
            Body::Pack(packed) => packed.len,
            Body::Table(table) => table.top(),
        }
    }

    /// Whether a member has the item number.
    pub fn is_entry(&self, item: usize) -> bool
        ensures { (m : Blocks) → IsScored m self.now → IsTrue result ↔ IsSome (pair_at m self.now item) }
    {
        match &self.body {
            Body::Empty => false,
            Body::Pack(packed) => item < packed.len,
            Body::Table(table) => table.is_entry(item),
        }
    }

    /// The member of an item number, and its score.
    pub fn at<'a, B: BlockStore>(&'a self, store: &'a B, item: usize) -> (Element<'a>, i64)
        requires sound { IsScored (B.blocks store.now) self.now }
        requires entry { IsSome (pair_at (B.blocks store.now) self.now item) }
        ensures { pair_at (B.blocks store.now) self.now item ≡ Some (result.1, element_text result.0) }
    {
        match &self.body {
            Body::Empty => unreachable!(),
            Body::Pack(packed) => {
                let bytes = store.bytes(packed.at);
                entry_at(bytes, seek(bytes, item))
            }
            Body::Table(table) => {
                let (score, member) = table.entry(item);
                (Element::Text(store.bytes(member)), score)
            }
        }
    }
}
