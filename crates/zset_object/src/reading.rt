// Members, scores and ranks that are looked up.

ghost use Rattle.std.specs.Prelude.{◌≡◌, ◌≤◌, None, Some, MatchOption, count_by, int_lt, slice_get};
ghost use Rattle.std.specs.FinMap.{get, len};
ghost use Rattle.listpack.specs.Element.{element_text};
ghost use Rattle.zset_object.specs.Orders.{HasRank};
ghost use Rattle.zset_object.specs.Scored.{IsScored, scores, ranked};

use crate::Scored;
use crate::packs::{entry_at, find_index, find_score, place_of};
use crate::scored::Body;
use blocks::BlockStore;
use listpack::Element;
use pack_pairs::seek;

impl Scored {
    /// The score of a member. `None` comes exactly where it isn't there.
    pub fn score<B: BlockStore>(&self, store: &B, member: &[u8]) -> Option<i64>
        requires { IsScored (B.blocks store.now) self.now }
        ensures { result ≡ get (scores (B.blocks store.now) self.now) member.now }
    {
        match &self.body {
            Body::Empty => None,
            Body::Pack(packed) => find_score(store.bytes(packed.at), member),
            Body::Table(table) => table.score(store, member),
        }
    }

    /// The rank of a member, from 0 on. `None` comes exactly where it isn't there.
    pub fn rank<B: BlockStore>(&self, store: &B, member: &[u8]) -> Option<usize>
        requires { IsScored (B.blocks store.now) self.now }
        ensures { MatchOption result (get (scores (B.blocks store.now) self.now) member.now ≡ None)
            (λ rank. HasRank (scores (B.blocks store.now) self.now) (ranked (B.blocks store.now) self.now) member.now rank) }
    {
        match &self.body {
            Body::Empty => None,
            Body::Pack(packed) => find_index(store.bytes(packed.at), member),
            Body::Table(table) => table.rank(store, member),
        }
    }

    /// The member at a rank, and its score. `None` comes exactly from the number of members on.
    pub fn at_rank<'a, B: BlockStore>(
        &'a self,
        store: &'a B,
        rank: usize,
    ) -> Option<(Element<'a>, i64)>
        requires { IsScored (B.blocks store.now) self.now }
        ensures { MatchOption result (len (scores (B.blocks store.now) self.now) ≤ rank) (λ pair. slice_get (ranked (B.blocks store.now) self.now) rank ≡ Some (pair.1, element_text pair.0)) }
    {
        match &self.body {
            Body::Empty => None,
            Body::Pack(packed) => {
                if rank >= packed.len {
                    return None;
                }
                let bytes = store.bytes(packed.at);
                Some(entry_at(bytes, seek(bytes, rank)))
            }
            Body::Table(table) => match table.at_rank(rank) {
                Some((score, member)) => Some((Element::Text(store.bytes(member)), score)),
                None => None,
            },
        }
    }

    /// How many scores are below this one: the rank of the first member with this score or a higher one.
    pub fn below<B: BlockStore>(&self, store: &B, least: i64) -> usize
        requires { IsScored (B.blocks store.now) self.now }
        ensures { result ≡ count_by (λ key. int_lt key.0 least) (ranked (B.blocks store.now) self.now) }
    {
        match &self.body {
            Body::Empty => 0,
            // the empty member stands before all others of its score
            Body::Pack(packed) => place_of(store.bytes(packed.at), least, &[]),
            Body::Table(table) => table.below(least),
        }
    }
}
