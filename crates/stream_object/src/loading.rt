// Nodes of a file put behind all entries.

ghost use Rattle.std.specs.Prelude.{◌≡◌, ◌↔◌, ◌<◌, ◌≤◌, ◌∷◌, [], ℕ, length, take, IsTrue, IfSome, OnOk, OnErr};
ghost use Rattle.std.specs.List.{AllByRecursion};
ghost use Rattle.blocks.specs.Blocks.{Blocks, Served};
ghost use Rattle.listpack.specs.Pack.{texts};
ghost use Rattle.stream_node.specs.Entries.{entries_of};
ghost use Rattle.stream_node.specs.Entry.{IsBelow};
ghost use Rattle.stream_node.specs.declared.id.Id.{Id};
ghost use Rattle.stream_node.specs.Room.{alone_len};
ghost use Rattle.stream_node.specs.View.{stored};
ghost use Rattle.stream_object.specs.Loading.{AreAbove, AreLiveUpto, IsFileNode, loaded};
ghost use Rattle.stream_object.specs.Streams.{AreBelow, AreUpto, IsChanged, IsStream, nodes, stream_of};
ghost use Rattle.stream_object.specs.Whole.{MayStandWhole};

use crate::Memory;
use crate::node::entries;
use crate::nodes::put_last;
use crate::stream::Stream;
use crate::tail::Tail;
use crate::whole::{end_of, listed};
use blocks::BlockStore;
use std::alloc::AllocError;
use stream_node::{Entry, Id};

impl Stream {
    /// Whether each id of a file's node is above the last one. `load_node` asks for no more than that.
    pub fn is_followed_by(&self, key: Id, pack: &[u8]) -> bool
        requires { IsFileNode key pack.now }
        ensures above { IsTrue result ↔ AllByRecursion (λ e. IsBelow self.now.last e.id) (entries_of key (texts pack.now)) }
        ensures enough { IsTrue result → (m : Blocks) → IsStream m self.now → AreAbove (nodes m self.now) (entries_of key (texts pack.now)) }
    {
        match listed(key, pack).next() {
            Some(first) => self.last.is_below(first.id()),
            None => true,
        }
    }

    // Puts an entry of a node behind all others, or leaves it out where it is marked deleted. Its id is the last one then.
    // `Memory` leaves all as before.
    fn load_entry<B: BlockStore>(&mut self, store: &mut B, entry: &Entry) -> Result<(), Memory>
        requires is_stream { IsStream (B.blocks store.old) self.old }
        requires below { AreBelow (stored entry.now).id (nodes (B.blocks store.old) self.old) }
        requires some { 0 < length (stored entry.now).pairs }
        requires short { alone_len (stored entry.now).id (stored entry.now).pairs ≤ 536870000 }
        ensures loaded { OnOk result (IsChanged (B.blocks store.old) (B.blocks store.new) self.old self.new (loaded (stream_of (B.blocks store.old) self.old) (stored entry.now ∷ []))) }
        ensures last { OnOk result (self.new.last ≡ (stored entry.now).id) }
        ensures upto { OnOk result ((id : Id) → AreUpto id (nodes (B.blocks store.old) self.old) → AreLiveUpto id (stored entry.now ∷ []) → AreUpto id (nodes (B.blocks store.new) self.new)) }
        ensures served { Served B.step store.old store.new }
        ensures err_stream { OnErr result (self.new ≡ self.old) }
        ensures err_blocks { OnErr result (B.blocks store.new ≡ B.blocks store.old) }
    {
        if entry.deleted() {
            self.last = entry.id();
            return Ok(());
        }
        let pairs = entry.to_pairs(self.alloc)?;
        self.append(store, entry.id(), &pairs)
    }

    // Puts the entries of a node behind all others one by one, but for those that are marked deleted. After `Memory` some of the
    // first are there.
    fn load_each<B: BlockStore>(
        &mut self,
        store: &mut B,
        key: Id,
        pack: &[u8],
    ) -> Result<(), Memory>
        requires is_stream { IsStream (B.blocks store.old) self.old }
        requires is_node { IsFileNode key pack.now }
        requires above { AreAbove (nodes (B.blocks store.old) self.old) (entries_of key (texts pack.now)) }
        ensures loaded { OnOk result (IsChanged (B.blocks store.old) (B.blocks store.new) self.old self.new (loaded (stream_of (B.blocks store.old) self.old) (entries_of key (texts pack.now)))) }
        ensures upto { OnOk result
            ((id : Id) → AreUpto id (nodes (B.blocks store.old) self.old) → AreLiveUpto id (entries_of key (texts pack.now)) → AreUpto id (nodes (B.blocks store.new) self.new)) }
        ensures served { Served B.step store.old store.new }
        ensures err_some { OnErr result
            ((n : ℕ) × (n ≤ length (entries_of key (texts pack.now))) × IsChanged (B.blocks store.old) (B.blocks store.new) self.old self.new
            (loaded (stream_of (B.blocks store.old) self.old) (take n (entries_of key (texts pack.now))))) }
    {
        for entry in listed(key, pack) {
            self.load_entry(store, &entry)?;
        }
        Ok(())
    }

    // Places a node as it is, in one block behind all others. `last` is the id of its last entry. `Memory` leaves all as before.
    fn load_whole<B: BlockStore>(
        &mut self,
        store: &mut B,
        key: Id,
        pack: &[u8],
        last: Id,
    ) -> Result<(), Memory>
        requires is_stream { IsStream (B.blocks store.old) self.old }
        requires below { IsBelow self.old.last key }
        requires whole { MayStandWhole key pack.now last }
        ensures loaded { OnOk result (IsChanged (B.blocks store.old) (B.blocks store.new) self.old self.new (loaded (stream_of (B.blocks store.old) self.old) (entries_of key (texts pack.now)))) }
        ensures upto { OnOk result
            ((id : Id) → AreUpto id (nodes (B.blocks store.old) self.old) → AreLiveUpto id (entries_of key (texts pack.now)) → AreUpto id (nodes (B.blocks store.new) self.new)) }
        ensures served { Served B.step store.old store.new }
        ensures err_stream { OnErr result (self.new ≡ self.old) }
        ensures err_blocks { OnErr result (B.blocks store.new ≡ B.blocks store.old) }
    {
        let count = entries(key, pack).len() as u64;
        let Some(len) = self.len.checked_add(count) else {
            return Err(AllocError);
        };
        let at = put_last(store, &mut self.tree, key, pack)?;
        self.tail = Some(Tail { key, at });
        self.len = len;
        self.last = last;
        Ok(())
    }

    // The id of the last entry of a file's node, where the node may stand behind all others as it is.
    fn end_behind(&self, key: Id, pack: &[u8]) -> Option<Id>
        requires { IsFileNode key pack.now }
        ensures whole { IfSome result (λ last. MayStandWhole key pack.now last) }
        ensures below { IfSome result (λ _. IsBelow self.now.last key) }
    {
        if self.last.is_below(key) {
            end_of(key, pack)
        } else {
            None
        }
    }

    /// Puts the entries of a file's node behind all others, but for those that are marked deleted. The last id is the greatest
    /// of the node then, or stays where the node has no entry; how many were added stays. A node whose entries are all marked
    /// deleted takes no block. Its entries that are marked deleted bound nothing: the nodes are up to each id then that both the
    /// nodes before and the node's other entries were up to.
    ///
    /// A node that may stand as it is becomes one of the stream's: its key is above the last id and not above its first entry, and
    /// it has at most 100 entries, none of them marked deleted. Else its entries are put in one by one, as `add` writes them.
    ///
    /// All ids of the node are to be above those of all entries that the stream's nodes hold. After `Memory` the first entries of
    /// the node may be there.
    pub fn load_node<B: BlockStore>(
        &mut self,
        store: &mut B,
        key: Id,
        pack: &[u8],
    ) -> Result<(), Memory>
        requires is_stream { IsStream (B.blocks store.old) self.old }
        requires is_node { IsFileNode key pack.now }
        requires above { AreAbove (nodes (B.blocks store.old) self.old) (entries_of key (texts pack.now)) }
        ensures loaded { OnOk result (IsChanged (B.blocks store.old) (B.blocks store.new) self.old self.new (loaded (stream_of (B.blocks store.old) self.old) (entries_of key (texts pack.now)))) }
        ensures upto { OnOk result
            ((id : Id) → AreUpto id (nodes (B.blocks store.old) self.old) → AreLiveUpto id (entries_of key (texts pack.now)) → AreUpto id (nodes (B.blocks store.new) self.new)) }
        ensures served { Served B.step store.old store.new }
        ensures err_some { OnErr result
            ((n : ℕ) × (n ≤ length (entries_of key (texts pack.now))) × IsChanged (B.blocks store.old) (B.blocks store.new) self.old self.new
            (loaded (stream_of (B.blocks store.old) self.old) (take n (entries_of key (texts pack.now))))) }
    {
        match self.end_behind(key, pack) {
            Some(last) => self.load_whole(store, key, pack, last),
            None => self.load_each(store, key, pack),
        }
    }
}
