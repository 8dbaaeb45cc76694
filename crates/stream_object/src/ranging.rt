// Entries between two ids.

ghost use Rattle.std.specs.Prelude.{◌≡◌, ◌≤◌, Some, length, map, IfOk, IfSome, IfNone};
ghost use Rattle.stream_object.specs.Parts.{HasParts, parts_of};
ghost use Rattle.stream_object.specs.Ranges.{Ends, Follows, Goes, ahead, range_of, taken, wanted_in};
ghost use Rattle.stream_object.specs.Streams.{IsStream, stream_of};

use crate::Memory;
use crate::nodes::near;
use crate::owned::Owned;
use crate::picking::take_wanted;
use crate::spot::Spot;
use crate::stream::Stream;
use crate::wanted::Wanted;
use blocks::BlockStore;
use rax_packed::PackedTree;
use std::alloc::Global;
use stream_node::Id;

// From where a walk over the nodes begins.
fn begin<B: BlockStore>(store: &B, tree: &PackedTree, wanted: Wanted) -> Id
    requires { HasParts (B.blocks store.now) tree.now (parts_of (B.blocks store.now) tree.now) }
    ensures { wanted_in wanted (ahead wanted.back (Some result) (parts_of (B.blocks store.now) tree.now)) ≡ wanted_in wanted (parts_of (B.blocks store.now) tree.now) }
{
    if wanted.back {
        return wanted.to;
    }
    match near(store, tree, wanted.from, false) {
        Some(spot) => spot.key,
        None => wanted.from,
    }
}

// From where a walk goes on behind the node of this key. `None` comes only where no node behind it has what is wanted.
fn beyond(wanted: Wanted, key: Id) -> Option<Id>
    ensures some { IfSome result (Follows wanted.back key) }
    ensures none { IfNone result (Ends wanted wanted.back key) }
{
    if wanted.back {
        return if wanted.from.is_below(key) {
            key.previous()
        } else {
            None
        };
    }
    if key.is_below(wanted.to) {
        key.next()
    } else {
        None
    }
}

// Puts what is wanted of the next node behind what was found, and answers from where the walk goes on.
fn step<B: BlockStore>(
    alloc: Global,
    store: &B,
    tree: &PackedTree,
    at: Id,
    wanted: Wanted,
    found: &mut Vec<Owned>,
) -> Result<Option<Id>, Memory>
    requires parts { HasParts (B.blocks store.now) tree.now (parts_of (B.blocks store.now) tree.now) }
    requires within { length found.old.items ≤ wanted.limit }
    ensures { IfOk result (Goes wanted (parts_of (B.blocks store.now) tree.now) at found.old.items found.new.items) }
{
    let Some(spot) = near(store, tree, at, !wanted.back) else {
        return Ok(None);
    };
    let Spot { key, bytes, .. } = spot;
    take_wanted(alloc, key, bytes, wanted, found)?;
    if found.len() as u64 >= wanted.limit {
        return Ok(None);
    }
    Ok(beyond(wanted, key))
}

impl Stream {
    /// The entries between two ids, both counted in: the first ones in their order, or from the last one back, and not more than
    /// `limit`.
    pub fn range<B: BlockStore>(
        &self,
        store: &B,
        from: Id,
        to: Id,
        back: bool,
        limit: u64,
    ) -> Result<Vec<Owned>, Memory>
        requires { IsStream (B.blocks store.now) self.now }
        ensures { IfOk result (λ found. map taken found.items ≡ range_of (stream_of (B.blocks store.now) self.now) from to back limit) }
    {
        let wanted = Wanted {
            from,
            to,
            back,
            limit,
        };
        let mut found = Vec::new(self.alloc);
        let mut next = Some(begin(store, &self.tree, wanted));
        while let Some(at) = next {
            next = step(self.alloc, store, &self.tree, at, wanted, &mut found)?;
        }
        Ok(found)
    }
}
