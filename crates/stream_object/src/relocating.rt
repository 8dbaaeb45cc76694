// Streams whose blocks move.

ghost use Rattle.std.specs.Prelude.{◌≡◌, ◌==◌, ◌≤◌, count_by};
ghost use Rattle.blocks.specs.Slabs.{Calmer};
ghost use Rattle.collection_walk.specs.Marks.{is_passed, ArePassed};
ghost use Rattle.stream_node.specs.Ids.{id_number};
ghost use Rattle.stream_object.specs.Found.{Stands};
ghost use Rattle.stream_object.specs.Parts.{HasParts, all_refs, parts_of};
ghost use Rattle.stream_object.specs.Relocation.{IsBounded, IsRelocated, Moves, PassesAll, tree_marks};
ghost use Rattle.stream_object.specs.Streams.{IsStream, marks, refs};

use crate::nodes::near;
use crate::spot::Spot;
use crate::stream::Stream;
use blocks::{BlockRef, BlockStore, Moved, settle};
use rax_packed::PackedTree;
use stream_node::Id;

/// The most blocks of a key: the nodes of the tree whose least key it is, and its own node.
const MOST_BLOCKS: u32 = 18;

// Moves the blocks of a key that want it, and answers how many blocks it has.
fn pass_key<B: BlockStore>(store: &mut B, tree: &mut PackedTree, key: Id, at: BlockRef) -> u32
    requires parts { HasParts (B.blocks store.old) tree.old (parts_of (B.blocks store.old) tree.old) }
    requires stands { Stands (parts_of (B.blocks store.old) tree.old) key at }
    ensures moves { Moves (B.blocks store.old) (B.blocks store.new) tree.old tree.new }
    ensures passed { PassesAll (B.heap store.new) (λ n. n == id_number key) (tree_marks (B.blocks store.old) tree.old) (all_refs (B.blocks store.old) tree.old)
        (all_refs (B.blocks store.new) tree.new) }
    ensures count { result ≡ count_by (λ n. n == id_number key) (tree_marks (B.blocks store.old) tree.old) }
    ensures few { result ≤ 18 }
    ensures calmer { Calmer (B.heap store.old) (B.heap store.new) }
{
    let name = key.key();
    let count = tree.nodes_of(store, &name).len() as u32 + 1;
    tree.relocate_path(store, &name);
    let new = settle(store, at);
    tree.set(store, &name, new);
    count
}

// Counts the blocks of the keys from a mark on, of as many keys as there is room for all blocks of one more.
fn count_keys<B: BlockStore>(store: &B, tree: &PackedTree, from: u128, room: u32) -> Moved
    requires parts { HasParts (B.blocks store.now) tree.now (parts_of (B.blocks store.now) tree.now) }
    requires room { 32 ≤ room }
    ensures { IsBounded (tree_marks (B.blocks store.now) tree.now) from room result }
{
    let passed = tree.pass_from(store, &Id::of_number(from).key(), room);
    let used = passed.used;
    match passed.next {
        Some(key) => Moved {
            next: Some(Id::of_key(&key).number()),
            used,
        },
        None => Moved { next: None, used },
    }
}

// Moves the blocks of the keys from a mark on that want it, of as many keys as there is room for all blocks of one more.
fn pass_keys<B: BlockStore>(store: &mut B, tree: &mut PackedTree, from: u128, room: u32) -> Moved
    requires parts { HasParts (B.blocks store.old) tree.old (parts_of (B.blocks store.old) tree.old) }
    requires room { 32 ≤ room }
    ensures moves { Moves (B.blocks store.old) (B.blocks store.new) tree.old tree.new }
    ensures passed { PassesAll (B.heap store.new) (is_passed from result.next) (tree_marks (B.blocks store.old) tree.old) (all_refs (B.blocks store.old) tree.old)
        (all_refs (B.blocks store.new) tree.new) }
    ensures bounded { IsBounded (tree_marks (B.blocks store.old) tree.old) from room result }
    ensures calmer { Calmer (B.heap store.old) (B.heap store.new) }
{
    let mut at = Id::of_number(from);
    let mut used = 0;
    'keys: while let Some(spot) = near(store, tree, at, true) {
        let Spot { key, at: block, .. } = spot;
        if room - used < MOST_BLOCKS {
            return Moved {
                next: Some(key.number()),
                used,
            };
        }
        used += pass_key(store, tree, key, block);
        match key.next() {
            Some(next) => at = next,
            None => return Moved { next: None, used },
        }
    }
    Moved { next: None, used }
}

impl Stream {
    /// Goes through its blocks from the mark `from` on, at most `room` of them, and moves each that wants it. The mark of a node is
    /// its key as a number, and that of a node of the tree the least key below it. It passes the blocks of a key together, and
    /// begins them only where there is room for 18 more. Where no block of the store wants to move, they are counted alone, in one
    /// way through the tree. It takes no memory.
    pub fn relocate_part<B: BlockStore>(&mut self, store: &mut B, from: u128, room: u32) -> Moved
        requires is_stream { IsStream (B.blocks store.old) self.old }
        requires room { 32 ≤ room }
        ensures relocated { IsRelocated (B.blocks store.old) (B.blocks store.new) self.old self.new }
        ensures passed { ArePassed (B.heap store.new) (is_passed from result.next) (marks (B.blocks store.old) self.old) (refs (B.blocks store.old) self.old) (refs (B.blocks store.new) self.new) }
        ensures bounded { IsBounded (marks (B.blocks store.old) self.old) from room result }
        ensures calmer { Calmer (B.heap store.old) (B.heap store.new) }
    {
        if store.is_calm() {
            return count_keys(store, &self.tree, from, room);
        }
        let moved = pass_keys(store, &mut self.tree, from, room);
        self.tail = None;
        moved
    }
}
