// Passes over the keys of a tree in their order, which count the blocks of each.

ghost use Rattle.std.specs.Prelude.{◌≡◌, ◌≢◌, ◌+◌, ◌-◌, ◌≤◌, ◌++◌, map, true, length, take, drop};
ghost use Rattle.rax_packed.specs.Costs.{cost_under, costs, costs_at, costs_from, costs_in, counted, going, pass_over};
ghost use Rattle.rax_packed.specs.Trees.{node_at, IsTreeAt};
ghost use Rattle.rax_packed.specs.Ways.{aside, links_in};

use crate::node::{Way, parts, way_of};
use crate::seek::{Key, ended, next_turn, rest_of};
use blocks::{BlockRef, BlockStore};

/// The most blocks of a key: one node for each byte of it, a last leaf, and that of its value.
const MOST_BLOCKS: u32 = 18;

/// How far a pass over the keys of a map came.
#[derive(Clone, Copy, Debug)]
pub struct Passed {
    /// How many blocks the keys have that it passed.
    pub used: u32,
    /// The key to go on from. `None` where it passed the last one.
    pub next: Option<[u8; 16]>,
}

/// A pass on its way.
#[derive(Clone, Copy)]
pub(crate) struct Pass {
    /// How many blocks it may still count.
    pub(crate) left: u32,
    /// The key before which it has ended.
    pub(crate) next: Option<Key>,
}

impl Pass {
    // Counts so many blocks of the key that a leaf's prefix ends, or ends before that key.
    fn count(&mut self, path: &Key, depth: usize, prefix: &[u8], blocks: u32)
        requires few { blocks ≤ 18 }
        requires whole { depth + length prefix.now ≡ 16 }
        ensures { going self.new ≡ counted self.old.left self.old.next (record { key = take depth path.now ++ prefix.now; blocks = blocks }) }
    {
        if self.next.is_some() {
            return;
        }
        if self.left < MOST_BLOCKS {
            self.next = Some(ended(path, depth, prefix));
        } else {
            self.left -= blocks;
        }
    }
}

/// Goes through the keys of a tree from one on, where its first bytes lead to the tree. Of the nodes down to the tree's top one, so
/// many have the tree's least key.
pub(crate) fn pass_below<B: BlockStore>(
    store: &B,
    at: BlockRef,
    key: &Key,
    depth: usize,
    nodes: u32,
    pass: &mut Pass,
)
    requires within { depth ≤ 16 }
    requires tree { IsTreeAt (16 - depth) (B.blocks store.now) at }
    requires few { nodes ≤ depth + 1 }
    ensures { going pass.new ≡ pass_over (going pass.old) (map (cost_under (take depth key.now)) (costs_from (costs_at (16 - depth) (B.blocks store.now) nodes at) (drop depth key.now))) }
{
    match way_of(store.bytes(at), rest_of(key, depth)) {
        Way::Leaf(_) => pass_rest(store, at, key, depth, 0, nodes, pass),
        Way::Parts(shared) => {
            if key[depth + shared] < store.bytes(at)[2 + shared] {
                pass_rest(store, at, key, depth, 0, nodes, pass);
            }
        }
        Way::Missing(place, _) => {
            pass_rest(store, at, key, depth, place, above(place, nodes), pass);
        }
        Way::Link(place, from, to) => {
            pass_below(store, to, key, depth + from, above(place, nodes) + 1, pass);
            pass_rest(store, at, key, depth, place + 1, 0, pass);
        }
    }
}

// How many of the nodes that have a tree's least key have that of the link at a place: none where there is a link before it.
fn above(place: usize, nodes: u32) -> u32
    ensures first { place ≡ 0 → result ≡ nodes }
    ensures other { place ≢ 0 → result ≡ 0 }
{
    if place == 0 { nodes } else { 0 }
}

// Goes through the keys of a tree that stands where a path leads, from those of the link at a place on. Of the nodes down to the
// tree's top one, so many have the least one of these keys.
fn pass_rest<B: BlockStore>(
    store: &B,
    at: BlockRef,
    path: &Key,
    depth: usize,
    place: usize,
    nodes: u32,
    pass: &mut Pass,
)
    requires within { depth ≤ 16 }
    requires tree { IsTreeAt (16 - depth) (B.blocks store.now) at }
    requires place { place ≤ length (links_in (node_at (B.blocks store.now) at)) }
    requires few { nodes ≤ depth + 1 }
    ensures { going pass.new ≡ pass_over (going pass.old)
        (map (cost_under (take depth path.now)) (costs_in (costs (16 - depth) (B.blocks store.now)) nodes (aside true place (node_at (B.blocks store.now) at)))) }
{
    let bytes = store.bytes(at);
    if bytes[0] == 0 {
        pass.count(path, depth, parts(bytes).0, nodes + 1);
        return;
    }
    let mut next = place;
    // The nodes down to the link's that have the least key below it.
    let mut least = nodes + 1;
    while let Some(turn) = next_turn(bytes, path, depth, next, true) {
        pass_rest(store, turn.to, &turn.path, turn.depth, 0, least, pass);
        if pass.next.is_some() {
            return;
        }
        next += 1;
        least = 1;
    }
}
