// Entries put behind all others.

ghost use Rattle.std.specs.Prelude.{◌≡◌, ◌<◌, ◌≤◌, length, IfOk, OnErr};
ghost use Rattle.blocks.specs.Blocks.{Served};
ghost use Rattle.stream_node.specs.Room.{alone_len};
ghost use Rattle.stream_object.specs.Parts.{HasParts, parts_of};
ghost use Rattle.stream_object.specs.Streams.{AreBelow, Grows};
ghost use Rattle.stream_object.specs.Tail.{IsKept};

use crate::Memory;
use crate::node::{Growth, begun, joined};
use crate::nodes::{extend, put_last, replace};
use crate::spot::Spot;
use crate::tail::{Tail, last_node};
use blocks::BlockStore;
use rax_packed::PackedTree;
use std::alloc::Global;
use stream_node::{Id, Pairs};

// An entry in a node of its own behind all others. Answers that node.
fn put_alone<B: BlockStore>(
    alloc: Global,
    store: &mut B,
    tree: &mut PackedTree,
    id: Id,
    pairs: &Pairs,
) -> Result<Tail, Memory>
    requires parts { HasParts (B.blocks store.old) tree.old (parts_of (B.blocks store.old) tree.old) }
    requires below { AreBelow id (parts_of (B.blocks store.old) tree.old) }
    requires some { 0 < length pairs.now }
    requires short { alone_len id pairs.now ≤ 536870000 }
    ensures grows { IfOk result (Grows (B.blocks store.old) (B.blocks store.new) tree.old tree.new id pairs.now) }
    ensures served { Served B.step store.old store.new }
    ensures err_tree { OnErr result (tree.new ≡ tree.old) }
    ensures err_blocks { OnErr result (B.blocks store.new ≡ B.blocks store.old) }
{
    let pack = begun(alloc, id, pairs)?;
    let at = put_last(store, tree, id, &pack)?;
    Ok(Tail { key: id, at })
}

/// Puts an entry behind all others: into the last node, or where that would have too many entries or bytes into a new one.
/// Answers the last node. `kept` is the one until then, where it is known. `Memory` leaves all as before.
pub(crate) fn put_entry<B: BlockStore>(
    alloc: Global,
    store: &mut B,
    tree: &mut PackedTree,
    kept: Option<Tail>,
    id: Id,
    pairs: &Pairs,
) -> Result<Tail, Memory>
    requires parts { HasParts (B.blocks store.old) tree.old (parts_of (B.blocks store.old) tree.old) }
    requires kept { IsKept (parts_of (B.blocks store.old) tree.old) kept }
    requires below { AreBelow id (parts_of (B.blocks store.old) tree.old) }
    requires some { 0 < length pairs.now }
    requires short { alone_len id pairs.now ≤ 536870000 }
    ensures grows { IfOk result (Grows (B.blocks store.old) (B.blocks store.new) tree.old tree.new id pairs.now) }
    ensures served { Served B.step store.old store.new }
    ensures err_tree { OnErr result (tree.new ≡ tree.old) }
    ensures err_blocks { OnErr result (B.blocks store.new ≡ B.blocks store.old) }
{
    let Some(spot) = last_node(store, tree, kept) else {
        return put_alone(alloc, store, tree, id, pairs);
    };
    let Spot { key, at, bytes } = spot;
    match joined(alloc, key, bytes, id, pairs)? {
        Growth::Over(behind) => {
            let at = extend(store, tree, key, at, &behind)?;
            Ok(Tail { key, at })
        }
        Growth::Whole(pack) => {
            let at = replace(store, tree, key, at, &pack)?;
            Ok(Tail { key, at })
        }
        Growth::Full => put_alone(alloc, store, tree, id, pairs),
    }
}
