// Members that are given scores.

ghost use Rattle.std.specs.Prelude.{◌≡◌, ◌≢◌, ◌≤◌, [], ◌∷◌, Some, max, not, length, IfOk, OnOk, OnErr};
ghost use Rattle.std.specs.FinMap.{insert, contains_key, len};
ghost use Rattle.blocks.specs.Blocks.{Changes, Owned, Served};
ghost use Rattle.object_codec.specs.declared.form.Form.{Form};
ghost use Rattle.zset_object.specs.Orders.{IsRisen};
ghost use Rattle.zset_object.specs.Packed.{IsScorePack, IsIndex, scores_in, longest_in};
ghost use Rattle.zset_object.specs.Scored.{IsScored, IsChanged, IsPlacedBody, IsPlacedTable, scores, form_of, form_of_body, listed_of, refs_of_body};

use crate::Scored;
use crate::filling::table_of_pack;
use crate::packs::{find_index, pack_with};
use crate::scored::{Body, Packed};
use blocks::{BlockRef, BlockStore, Memory, put_block};
use collection_walk::replace_block;
use object_codec::{Form, zset_form};
use score_table::ScoreTable;
use std::mem;

impl Body {
    // Puts a listpack in the place of that of a packed sorted set: over it where both have as many bytes. It answers the block that has
    // it, and `Memory` leaves all blocks.
    fn put_bytes<B: BlockStore>(&self, store: &mut B, bytes: &[u8]) -> Result<BlockRef, Memory>
        requires owned { Owned (refs_of_body self.now) (B.blocks store.old) }
        requires packed { form_of_body self.now ≢ Form.Skiplist }
        ensures bytes { IfOk result (λ at. B.blocks store.new at ≡ Some bytes.now) }
        ensures changes { IfOk result (λ at. Changes (B.blocks store.old) (B.blocks store.new) (refs_of_body self.now) (at ∷ [])) }
        ensures served { Served B.step store.old store.new }
        ensures err_blocks { OnErr result (B.blocks store.new ≡ B.blocks store.old) }
    {
        match self {
            Body::Empty => put_block(store, bytes),
            Body::Pack(packed) => replace_block(store, packed.at, bytes),
            Body::Table(_) => unreachable!(),
        }
    }
}

impl Scored {
    // The index of a member's pair in a packed sorted set.
    fn index_of<B: BlockStore>(&self, store: &B, member: &[u8]) -> Option<usize>
        requires sound { IsScored (B.blocks store.now) self.now }
        requires packed { form_of self.now ≢ Form.Skiplist }
        ensures { IsIndex (listed_of (B.blocks store.now) self.now.body) member.now result }
    {
        match &self.body {
            Body::Empty => None,
            Body::Pack(packed) => find_index(store.bytes(packed.at), member),
            Body::Table(_) => unreachable!(),
        }
    }

    // The listpack of a packed sorted set with this score of a member, whose pair's index is at hand.
    fn bytes_with<B: BlockStore>(
        &self,
        store: &B,
        index: Option<usize>,
        member: &[u8],
        score: i64,
    ) -> Result<Vec<u8>, Memory>
        requires sound { IsScored (B.blocks store.now) self.now }
        requires packed { form_of self.now ≢ Form.Skiplist }
        requires index { IsIndex (listed_of (B.blocks store.now) self.now.body) member.now index }
        requires short { length member.now ≤ self.now.limits.zset_value }
        ensures pack { IfOk result (λ new. IsScorePack new.items) }
        ensures scores { IfOk result (λ new. scores_in new.items ≡ insert (scores (B.blocks store.now) self.now) member.now score) }
        ensures short { IfOk result (λ new. longest_in new.items ≤ self.now.limits.zset_value) }
    {
        match &self.body {
            Body::Empty => pack_with(
                self.alloc,
                &pack_pairs::empty(self.alloc)?,
                index,
                score,
                member,
            ),
            Body::Pack(packed) => pack_with(
                self.alloc,
                store.bytes(packed.at),
                index,
                score,
                member,
            ),
            Body::Table(_) => unreachable!(),
        }
    }

    // Puts a listpack of the members with this score of one of them, so many then, in the place of the old one. `Memory` leaves the
    // sorted set and all blocks.
    fn put_pack<B: BlockStore>(
        &mut self,
        store: &mut B,
        count: usize,
        index: Option<usize>,
        member: &[u8],
        score: i64,
    ) -> Result<(), Memory>
        requires sound { IsScored (B.blocks store.old) self.old }
        requires packed { form_of self.old ≢ Form.Skiplist }
        requires index { IsIndex (listed_of (B.blocks store.old) self.old.body) member.now index }
        requires count { count ≡ len (insert (scores (B.blocks store.old) self.old) member.now score) }
        requires few { count ≤ self.old.limits.zset_entries }
        requires short { length member.now ≤ self.old.limits.zset_value }
        ensures set { OnOk result (IsChanged (B.blocks store.old) (B.blocks store.new) self.old self.new (insert (scores (B.blocks store.old) self.old) member.now score)) }
        ensures form { OnOk result (form_of self.new ≡ Form.Listpack) }
        ensures served { Served B.step store.old store.new }
        ensures err_scored { OnErr result (self.new ≡ self.old) }
        ensures err_blocks { OnErr result (B.blocks store.new ≡ B.blocks store.old) }
    {
        let bytes = self.bytes_with(store, index, member, score)?;
        let at = self.body.put_bytes(store, &bytes)?;
        self.body = Body::Pack(Packed { at, len: count });
        Ok(())
    }

    // A table of the members of a packed sorted set. `Memory` leaves all blocks.
    fn table_all<B: BlockStore>(&self, store: &mut B) -> Result<ScoreTable, Memory>
        requires sound { IsScored (B.blocks store.old) self.now }
        requires packed { form_of self.now ≢ Form.Skiplist }
        ensures placed { IfOk result (λ table. IsPlacedTable (B.blocks store.old) (B.blocks store.new) self.now.seed table (scores (B.blocks store.old) self.now)) }
        ensures served { Served B.step store.old store.new }
        ensures err_blocks { OnErr result (B.blocks store.new ≡ B.blocks store.old) }
    {
        match &self.body {
            Body::Empty => Ok(ScoreTable::new(self.alloc, self.seed)),
            Body::Pack(packed) => {
                let bytes = Vec::from_slice(self.alloc, store.bytes(packed.at))?;
                table_of_pack(self.alloc, self.seed, store, &bytes, packed.len)
            }
            Body::Table(_) => unreachable!(),
        }
    }

    // Places the members of a packed sorted set, with this score of one of them, as a table. `Memory` leaves all blocks.
    fn place_table<B: BlockStore>(
        &self,
        store: &mut B,
        member: &[u8],
        score: i64,
    ) -> Result<Body, Memory>
        requires sound { IsScored (B.blocks store.old) self.now }
        requires packed { form_of self.now ≢ Form.Skiplist }
        ensures placed { IfOk result
            (λ body. IsPlacedBody (B.blocks store.old) (B.blocks store.new) self.now.limits self.now.seed body (insert (scores (B.blocks store.old) self.now) member.now score)) }
        ensures form { IfOk result (λ body. form_of_body body ≡ Form.Skiplist) }
        ensures served { Served B.step store.old store.new }
        ensures err_blocks { OnErr result (B.blocks store.new ≡ B.blocks store.old) }
    {
        let mut table = self.table_all(store)?;
        match table.set(store, score, member) {
            Ok(_) => Ok(Body::Table(table)),
            Err(error) => {
                table.release(store);
                Err(error)
            }
        }
    }

    // Puts a table of the members, with this score of one of them, in the place of the listpack. `Memory` leaves the sorted set and all
    // blocks.
    fn put_table<B: BlockStore>(
        &mut self,
        store: &mut B,
        member: &[u8],
        score: i64,
    ) -> Result<(), Memory>
        requires sound { IsScored (B.blocks store.old) self.old }
        requires packed { form_of self.old ≢ Form.Skiplist }
        ensures set { OnOk result (IsChanged (B.blocks store.old) (B.blocks store.new) self.old self.new (insert (scores (B.blocks store.old) self.old) member.now score)) }
        ensures form { OnOk result (form_of self.new ≡ Form.Skiplist) }
        ensures served { Served B.step store.old store.new }
        ensures err_scored { OnErr result (self.new ≡ self.old) }
        ensures err_blocks { OnErr result (B.blocks store.new ≡ B.blocks store.old) }
    {
        let body = self.place_table(store, member, score)?;
        mem::replace(&mut self.body, body).release(store);
        Ok(())
    }

    // Gives a member of a packed sorted set this score, in the form that the members have then. `Memory` leaves the sorted set and all
    // blocks.
    fn put_with<B: BlockStore>(
        &mut self,
        store: &mut B,
        index: Option<usize>,
        member: &[u8],
        score: i64,
    ) -> Result<(), Memory>
        requires sound { IsScored (B.blocks store.old) self.old }
        requires packed { form_of self.old ≢ Form.Skiplist }
        requires index { IsIndex (listed_of (B.blocks store.old) self.old.body) member.now index }
        ensures set { OnOk result (IsChanged (B.blocks store.old) (B.blocks store.new) self.old self.new (insert (scores (B.blocks store.old) self.old) member.now score)) }
        ensures form { OnOk result (IsRisen self.old.limits (form_of self.old) (insert (scores (B.blocks store.old) self.old) member.now score) (form_of self.new)) }
        ensures served { Served B.step store.old store.new }
        ensures err_scored { OnErr result (self.new ≡ self.old) }
        ensures err_blocks { OnErr result (B.blocks store.new ≡ B.blocks store.old) }
    {
        let count = self.len() + usize::from(index.is_none());
        match zset_form(&self.limits, count, member.len()) {
            Form::Listpack => self.put_pack(store, count, index, member, score),
            Form::Skiplist => self.put_table(store, member, score),
            _ => unreachable!(),
        }
    }

    /// Gives a member this score, and answers whether the member is new. The form is then the least one that the members fit and that
    /// isn't below the old one. The block of a packed sorted set is written over where its new listpack is just as long, and else given
    /// back.
    ///
    /// `Memory` leaves the sorted set and all blocks.
    pub fn set<B: BlockStore>(
        &mut self,
        store: &mut B,
        member: &[u8],
        score: i64,
    ) -> Result<bool, Memory>
        requires { IsScored (B.blocks store.old) self.old }
        ensures there { IfOk result (λ new. new ≡ not (contains_key (scores (B.blocks store.old) self.old) member.now)) }
        ensures set { OnOk result (IsChanged (B.blocks store.old) (B.blocks store.new) self.old self.new (insert (scores (B.blocks store.old) self.old) member.now score)) }
        ensures form { OnOk result (IsRisen self.old.limits (form_of self.old) (insert (scores (B.blocks store.old) self.old) member.now score) (form_of self.new)) }
        ensures served { Served B.step store.old store.new }
        ensures err_scored { OnErr result (self.new ≡ self.old) }
        ensures err_blocks { OnErr result (B.blocks store.new ≡ B.blocks store.old) }
    {
        if let Body::Table(table) = &mut self.body {
            return table.set(store, score, member);
        }
        let index = self.index_of(store, member);
        self.put_with(store, index, member, score)?;
        Ok(index.is_none())
    }
}
