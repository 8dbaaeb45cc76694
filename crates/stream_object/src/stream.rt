// Streams.

ghost use Rattle.std.specs.Prelude.{◌≡◌, ◌↔◌, ◌-◌, ◌^◌, ◌<◌, ◌≤◌, [], IsTrue, length, min, OnOk, OnErr, IfErr};
ghost use Rattle.blocks.specs.Blocks.{Blocks, Served};
ghost use Rattle.std.specs.FinMap.{empty};
ghost use Rattle.stream_node.specs.Entry.{IsBelow};
ghost use Rattle.stream_node.specs.Room.{alone_len};
ghost use Rattle.stream_object.specs.Streams.{AreBelow, IsAddable, IsChanged, IsStream, Refuses, added, appended, marks, nodes, refs, stream_of};

use crate::Memory;
use crate::fault::AddFault;
use crate::growing::put_entry;
use crate::tail::Tail;
use blocks::BlockStore;
use rax_packed::PackedTree;
use std::alloc::{AllocError, Global};
use stream_groups::Groups;
use stream_node::{Id, Pairs};

/// Entries by rising ids, with consumer groups. It owns the blocks of its nodes and of the tree that names them in the store
/// that each call is lent, and no other block.
///
/// A node is a listpack of at most 100 entries; a node of more than one entry that the stream has written has at most 4,096 bytes.
#[derive(Drop)]
pub struct Stream {
    pub(crate) alloc: Global,
    pub(crate) tree: PackedTree,
    pub(crate) len: u64,
    pub(crate) last: Id,
    pub(crate) deleted: Id,
    pub(crate) added: u64,
    pub(crate) groups: Groups,
    pub(crate) tail: Option<Tail>,
}

// A count, or the greatest number where it is above.
fn limited(count: u128) -> u32
    ensures { result ≡ min count (2 ^ 32 - 1) }
{
    count.min(u32::MAX as u128) as u32
}

impl Stream {
    /// A stream without entries and groups, to which nothing was added. It takes no memory.
    pub fn new(alloc: Global) -> Stream
        ensures is_stream { (m : Blocks) → IsStream m result }
        ensures empty { (m : Blocks) → stream_of m result ≡ record { entries = []; last = (0, 0); deleted = (0, 0); added = 0; groups = empty } }
        ensures refs { (m : Blocks) → refs m result ≡ [] }
    {
        let zero = Id { ms: 0, seq: 0 };
        Stream {
            alloc,
            tree: PackedTree::new(),
            len: 0,
            last: zero,
            deleted: zero,
            added: 0,
            groups: Groups::new(alloc),
            tail: None,
        }
    }

    /// The number of entries.
    pub fn len(&self) -> u64
        ensures { (m : Blocks) → IsStream m self.now → result ≡ length (stream_of m self.now).entries }
    {
        self.len
    }

    /// Whether there is no entry.
    pub fn is_empty(&self) -> bool
        ensures { (m : Blocks) → IsStream m self.now → IsTrue result ↔ ((stream_of m self.now).entries ≡ []) }
    {
        self.len == 0
    }

    /// The last id.
    pub fn last_id(&self) -> Id
        ensures { (m : Blocks) → (stream_of m self.now).last ≡ (result.ms, result.seq) }
    {
        self.last
    }

    /// The greatest id of an entry that was deleted.
    pub fn greatest_deleted(&self) -> Id
        ensures { (m : Blocks) → (stream_of m self.now).deleted ≡ (result.ms, result.seq) }
    {
        self.deleted
    }

    /// How many entries were added, modulo 2^64.
    pub fn added(&self) -> u64
        ensures { (m : Blocks) → (stream_of m self.now).added ≡ result }
    {
        self.added
    }

    /// How many blocks it has: nodes, and nodes of the tree that names them. The greatest number stands for all above it too. It looks at
    /// no block.
    pub fn units(&self) -> u32
        ensures { (m : Blocks) → IsStream m self.now → result ≡ min (length (marks m self.now)) (2 ^ 32 - 1) }
    {
        limited(self.tree.nodes() as u128 + self.tree.len() as u128)
    }

    /// Puts an entry behind all others, which doesn't count as added. `Memory` leaves all as before.
    pub(crate) fn append<B: BlockStore>(
        &mut self,
        store: &mut B,
        id: Id,
        pairs: &Pairs,
    ) -> Result<(), Memory>
        requires is_stream { IsStream (B.blocks store.old) self.old }
        requires below { AreBelow id (nodes (B.blocks store.old) self.old) }
        requires some { 0 < length pairs.now }
        requires short { alone_len id pairs.now ≤ 536870000 }
        ensures appended { OnOk result (IsChanged (B.blocks store.old) (B.blocks store.new) self.old self.new (appended (stream_of (B.blocks store.old) self.old) id pairs.now)) }
        ensures served { Served B.step store.old store.new }
        ensures err_stream { OnErr result (self.new ≡ self.old) }
        ensures err_blocks { OnErr result (B.blocks store.new ≡ B.blocks store.old) }
    {
        let Some(len) = self.len.checked_add(1) else {
            return Err(AllocError);
        };
        let tail = put_entry(self.alloc, store, &mut self.tree, self.tail, id, pairs)?;
        self.tail = Some(tail);
        self.len = len;
        self.last = id;
        Ok(())
    }

    /// Adds an entry behind all others. It has at least one field with its value, and at most 1,048,576 fields and values of
    /// together at most 524,288,000 bytes.
    ///
    /// `NotAbove` comes exactly where the id isn't above the last one, which it carries. After a refusal all is as before.
    pub fn add<B: BlockStore>(
        &mut self,
        store: &mut B,
        id: Id,
        pairs: &Pairs,
    ) -> Result<(), AddFault>
        requires is_stream { IsStream (B.blocks store.old) self.old }
        requires addable { IsAddable pairs.now }
        ensures added { OnOk result (IsChanged (B.blocks store.old) (B.blocks store.new) self.old self.new (added (stream_of (B.blocks store.old) self.old) id pairs.now)) }
        ensures above { OnOk result (IsBelow self.old.last id) }
        ensures fault { IfErr result (Refuses self.old.last id) }
        ensures served { Served B.step store.old store.new }
        ensures err_stream { OnErr result (self.new ≡ self.old) }
        ensures err_blocks { OnErr result (B.blocks store.new ≡ B.blocks store.old) }
    {
        if !self.last.is_below(id) {
            return Err(AddFault::NotAbove(self.last));
        }
        match self.append(store, id, pairs) {
            Ok(()) => {
                self.added = self.added.wrapping_add(1);
                Ok(())
            }
            Err(_) => Err(AddFault::Memory),
        }
    }
}
