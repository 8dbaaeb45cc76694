//! The map.

ghost use Rattle.std.specs.Prelude.{◌≡◌, ◌≤◌, Some, None, [], true, false, IfOk, OnOk, OnErr, IfSome, IfNone, OnSome, IsSome, is_some, length};
ghost use Rattle.blocks.specs.Blocks.{Blocks, Changes, Served};
ghost use Rattle.blocks.specs.Slabs.{Calmer};

use crate::Memory;
use crate::build::leaf_bytes;
use crate::copy::copy_below;
use crate::cut::cut_below;
use crate::edit::set_below;
use crate::grow::add_below;
use crate::look::find_below;
use crate::pass::{Pass, Passed, pass_below};
use crate::path::{PathNodes, nodes_below};
use crate::release::release_below;
use crate::relocate::relocate_below;
use crate::seek::seek_below;
use blocks::{BlockRef, BlockStore, put_block};
use std::alloc::AllocError;

/// An ordered map from keys of sixteen bytes to references, in the order of the keys' bytes. It owns the blocks of its
/// nodes in the store that each call is lent, and no other block: not those that its values name.
#[derive(Debug, Drop)]
pub struct PackedTree {
    root: Option<BlockRef>,
    nodes: u64,
    keys: u64,
}

impl PackedTree {
    ghost use Rattle.std.specs.Option.{option_map};
    ghost use Rattle.rax_packed.specs.Costs.{costs_from, costs_of, passed};
    ghost use Rattle.rax_packed.specs.Exact.{PlacesExactly, PlacesNone};
    ghost use Rattle.rax_packed.specs.Packed.{value_at, with_entry, without, nearest};
    ghost use Rattle.rax_packed.specs.Maps.{entries_of, refs_of, marks_of, IsSound};
    ghost use Rattle.rax_packed.specs.Paths.{nodes_with, moved, ArePassed};

    /// The map of no key. It takes no memory.
    pub fn new() -> PackedTree
        ensures entries { (blocks : Blocks) → entries_of blocks result ≡ [] }
        ensures refs { (blocks : Blocks) → refs_of blocks result ≡ [] }
        ensures sound { (blocks : Blocks) → IsSound blocks result }
    {
        PackedTree {
            root: None,
            nodes: 0,
            keys: 0,
        }
    }

    /// The number of its nodes, each of which is a block that it owns. It looks at no block.
    pub fn nodes(&self) -> u64
        ensures { (blocks : Blocks) → IsSound blocks self.now → result ≡ length (refs_of blocks self.now) }
    {
        self.nodes
    }

    /// The number of keys. It looks at no block.
    pub fn len(&self) -> u64
        ensures { (blocks : Blocks) → IsSound blocks self.now → result ≡ length (entries_of blocks self.now) }
    {
        self.keys
    }

    /// The value at a key, and `None` where the map has no such key.
    pub fn find<B: BlockStore>(&self, store: &B, key: &[u8; 16]) -> Option<BlockRef>
        requires { IsSound (B.blocks store.now) self.now }
        ensures { result ≡ value_at (entries_of (B.blocks store.now) self.now) key.now }
    {
        match self.root {
            None => None,
            Some(at) => find_below(store, at, key),
        }
    }

    /// The least key of the map that is this one or comes after it, in the order of the bytes, and `None` where there is
    /// none.
    pub fn seek_at_or_after<B: BlockStore>(&self, store: &B, key: &[u8; 16]) -> Option<[u8; 16]>
        requires { IsSound (B.blocks store.now) self.now }
        ensures { result ≡ option_map (λ e. e.key) (nearest true (entries_of (B.blocks store.now) self.now) key.now) }
    {
        match self.root {
            None => None,
            Some(at) => seek_below(store, at, key, 0, true),
        }
    }

    /// The greatest key of the map that is this one or comes before it, in the order of the bytes, and `None` where there
    /// is none.
    pub fn seek_at_or_before<B: BlockStore>(&self, store: &B, key: &[u8; 16]) -> Option<[u8; 16]>
        requires { IsSound (B.blocks store.now) self.now }
        ensures { result ≡ option_map (λ e. e.key) (nearest false (entries_of (B.blocks store.now) self.now) key.now) }
    {
        match self.root {
            None => None,
            Some(at) => seek_below(store, at, key, 0, false),
        }
    }

    /// Puts a value at a key, and answers what stood there. `Memory` leaves the map and all blocks.
    pub fn insert<B: BlockStore>(
        &mut self,
        store: &mut B,
        key: &[u8; 16],
        value: BlockRef,
    ) -> Result<Option<BlockRef>, Memory>
        requires { IsSound (B.blocks store.old) self.old }
        ensures sound { IsSound (B.blocks store.new) self.new }
        ensures old { IfOk result (λ old. old ≡ value_at (entries_of (B.blocks store.old) self.old) key.now) }
        ensures inserted { OnOk result (entries_of (B.blocks store.new) self.new ≡ with_entry (entries_of (B.blocks store.old) self.old) key.now value) }
        ensures changes { Changes (B.blocks store.old) (B.blocks store.new) (refs_of (B.blocks store.old) self.old) (refs_of (B.blocks store.new) self.new) }

        // Each node placed is just as long as its block, where it is new or has got another link.
        ensures exact { OnOk result (PlacesExactly (B.blocks store.old) (B.blocks store.new)) }
        ensures served { Served B.step store.old store.new }

        // Want of memory changes nothing.
        ensures err_tree { OnErr result (self.new ≡ self.old) }
        ensures err_blocks { OnErr result (B.blocks store.new ≡ B.blocks store.old) }
    {
        let Some(at) = self.root else {
            self.root = Some(put_block(store, leaf_bytes(key, value).as_slice())?);
            self.nodes = 1;
            self.keys = 1;
            return Ok(None);
        };
        match set_below(store, at, key, value) {
            Some(old) => Ok(Some(old)),
            None => {
                self.grow(store, at, key, value)?;
                Ok(None)
            }
        }
    }

    // Puts in a key that is missing below the root. `Memory`, which comes too where a count would pass the greatest number,
    // leaves the map and all blocks.
    fn grow<B: BlockStore>(
        &mut self,
        store: &mut B,
        at: BlockRef,
        key: &[u8; 16],
        value: BlockRef,
    ) -> Result<(), Memory>
        requires sound { IsSound (B.blocks store.old) self.old }
        requires root { self.old.root ≡ Some at }
        requires missing { value_at (entries_of (B.blocks store.old) self.old) key.now ≡ None }
        ensures sound { OnOk result (IsSound (B.blocks store.new) self.new) }
        ensures inserted { OnOk result (entries_of (B.blocks store.new) self.new ≡ with_entry (entries_of (B.blocks store.old) self.old) key.now value) }
        ensures changes { OnOk result (Changes (B.blocks store.old) (B.blocks store.new) (refs_of (B.blocks store.old) self.old) (refs_of (B.blocks store.new) self.new)) }
        ensures exact { OnOk result (PlacesExactly (B.blocks store.old) (B.blocks store.new)) }
        ensures served { Served B.step store.old store.new }
        ensures err_tree { OnErr result (self.new ≡ self.old) }
        ensures err_blocks { OnErr result (B.blocks store.new ≡ B.blocks store.old) }
    {
        let Some(keys) = self.keys.checked_add(1) else {
            return Err(AllocError);
        };
        if self.nodes > u64::MAX - 2 {
            return Err(AllocError);
        }
        let grown = add_below(store, at, key, value)?;
        self.root = Some(grown.at);
        self.nodes += grown.more;
        self.keys = keys;
        Ok(())
    }

    /// Puts a value at a key that stands in the map, and answers whether it does. It takes no memory.
    pub fn set<B: BlockStore>(&mut self, store: &mut B, key: &[u8; 16], value: BlockRef) -> bool
        requires { IsSound (B.blocks store.old) self.old }
        ensures sound { IsSound (B.blocks store.new) self.new }
        ensures set { result ≡ true → entries_of (B.blocks store.new) self.new ≡ with_entry (entries_of (B.blocks store.old) self.old) key.now value }
        ensures marks { result ≡ true → marks_of (B.blocks store.new) self.new ≡ marks_of (B.blocks store.old) self.old }
        ensures slabs { B.heap store.new ≡ B.heap store.old }
        ensures there { result ≡ is_some (value_at (entries_of (B.blocks store.old) self.old) key.now) }
        ensures changes { Changes (B.blocks store.old) (B.blocks store.new) (refs_of (B.blocks store.old) self.old) (refs_of (B.blocks store.new) self.new) }
        ensures served { Served B.step store.old store.new }
        ensures unchanged { result ≡ false → B.blocks store.new ≡ B.blocks store.old }
    {
        match self.root {
            None => false,
            Some(at) => match set_below(store, at, key, value) {
                Some(_) => true,
                None => false,
            },
        }
    }

    /// Takes a key out, and answers what stood there. It takes no memory.
    pub fn remove<B: BlockStore>(&mut self, store: &mut B, key: &[u8; 16]) -> Option<BlockRef>
        requires { IsSound (B.blocks store.old) self.old }
        ensures sound { IsSound (B.blocks store.new) self.new }
        ensures old { result ≡ value_at (entries_of (B.blocks store.old) self.old) key.now }
        ensures removed { entries_of (B.blocks store.new) self.new ≡ without (entries_of (B.blocks store.old) self.old) key.now }
        ensures changes { Changes (B.blocks store.old) (B.blocks store.new) (refs_of (B.blocks store.old) self.old) (refs_of (B.blocks store.new) self.new) }
        ensures none { PlacesNone (B.blocks store.old) (B.blocks store.new) }
        ensures served { Served B.step store.old store.new }
    {
        let Some(at) = self.root else {
            return None;
        };
        let Some(value) = find_below(store, at, key) else {
            return None;
        };
        let cut = cut_below(store, at, key);
        if cut.gone {
            self.root = None;
        }
        self.nodes -= cut.fewer;
        self.keys -= 1;
        Some(value)
    }

    /// The nodes whose least key is this one of the map, from the top. It takes no memory.
    pub fn nodes_of<B: BlockStore>(&self, store: &B, key: &[u8; 16]) -> PathNodes
        requires sound { IsSound (B.blocks store.now) self.now }
        requires stands { IsSome (value_at (entries_of (B.blocks store.now) self.now) key.now) }
        ensures { result ≡ nodes_with (marks_of (B.blocks store.now) self.now) key.now }
    {
        let mut nodes = PathNodes::new();
        match self.root {
            None => {}
            Some(at) => nodes_below(store, at, key, &mut nodes),
        }
        nodes
    }

    /// Goes through the keys from one on, in their order, and counts the blocks of each: the nodes whose least key it is, and that
    /// of its value. It ends before the first key at which fewer than 18 of `room` are left. It takes no memory.
    pub fn pass_from<B: BlockStore>(&self, store: &B, from: &[u8; 16], room: u32) -> Passed
        requires { IsSound (B.blocks store.now) self.now }
        ensures { result ≡ passed room (costs_from (costs_of (B.blocks store.now) self.now) from.now) }
    {
        let mut pass = Pass {
            left: room,
            next: None,
        };
        match self.root {
            None => {}
            Some(at) => pass_below(store, at, from, 0, 1, &mut pass),
        }
        Passed {
            used: room - pass.left,
            next: pass.next,
        }
    }

    /// Moves the nodes whose least key is this one of the map that want it, and lets the node above each, or the map, name
    /// it where it stands then. Answers how many moved. It takes no memory.
    pub fn relocate_path<B: BlockStore>(&mut self, store: &mut B, key: &[u8; 16]) -> u32
        requires sound { IsSound (B.blocks store.old) self.old }
        requires stands { IsSome (value_at (entries_of (B.blocks store.old) self.old) key.now) }
        ensures sound { IsSound (B.blocks store.new) self.new }
        ensures entries { entries_of (B.blocks store.new) self.new ≡ entries_of (B.blocks store.old) self.old }
        ensures changes { Changes (B.blocks store.old) (B.blocks store.new) (refs_of (B.blocks store.old) self.old) (refs_of (B.blocks store.new) self.new) }
        ensures passed { ArePassed (B.heap store.old) (B.heap store.new) key.now (marks_of (B.blocks store.old) self.old) (marks_of (B.blocks store.new) self.new) }
        ensures moved { result ≡ moved (marks_of (B.blocks store.old) self.old) (marks_of (B.blocks store.new) self.new) }
        ensures few { result ≤ 17 }
        ensures calmer { Calmer (B.heap store.old) (B.heap store.new) }
    {
        let Some(at) = self.root else { unreachable!() };
        let passed = relocate_below(store, at, key);
        self.root = Some(passed.at);
        passed.moved
    }

    /// A map of the same entries, over as many nodes of its own, in blocks that weren't live. `Memory` leaves all blocks.
    pub fn copy<B: BlockStore>(&self, store: &mut B) -> Result<PackedTree, Memory>
        requires { IsSound (B.blocks store.old) self.now }
        ensures sound { IfOk result (λ copy. IsSound (B.blocks store.new) copy) }
        ensures entries { IfOk result (λ copy. entries_of (B.blocks store.new) copy ≡ entries_of (B.blocks store.old) self.now) }
        ensures nodes { IfOk result (λ copy. length (refs_of (B.blocks store.new) copy) ≡ length (refs_of (B.blocks store.old) self.now)) }
        ensures changes { IfOk result (λ copy. Changes (B.blocks store.old) (B.blocks store.new) [] (refs_of (B.blocks store.new) copy)) }
        ensures served { Served B.step store.old store.new }
        ensures err { OnErr result (B.blocks store.new ≡ B.blocks store.old) }
    {
        match self.root {
            None => Ok(PackedTree::new()),
            Some(at) => {
                let root = copy_below(store, at, 16)?;
                Ok(PackedTree {
                    root: Some(root),
                    nodes: self.nodes,
                    keys: self.keys,
                })
            }
        }
    }

    /// Gives back all nodes. It takes no memory.
    pub fn release<B: BlockStore>(self, store: &mut B)
        requires { IsSound (B.blocks store.old) self }
        ensures changes { Changes (B.blocks store.old) (B.blocks store.new) (refs_of (B.blocks store.old) self) [] }
        ensures served { Served B.step store.old store.new }
    {
        if let Some(at) = self.root {
            release_below(store, at, 16);
        }
    }
}
