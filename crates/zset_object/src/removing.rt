// Members that are taken out.

ghost use Rattle.std.specs.Prelude.{◌≡◌, ◌≢◌, ◌≤◌, true, false, is_some, IfOk, IfSome, IfNone, OnOk, OnErr, Ok, slice_range};
ghost use Rattle.std.specs.FinMap.{len, remove, contains_key};
ghost use Rattle.blocks.specs.Blocks.{Served};
ghost use Rattle.object_codec.specs.declared.form.Form.{Form};
ghost use Rattle.pack_pairs.specs.Pairs.{IsFirst};
ghost use Rattle.rehash_dict.specs.Tables.{IsSettled};
ghost use Rattle.score_table.specs.Ranking.{without_each};
ghost use Rattle.score_table.specs.Scored.{IsScoreTable, IsChanged as IsTableChanged, scores as scores_in_table, ranked as ranked_in_table, tables as tables_of_table};
ghost use Rattle.zset_object.specs.declared.scored.Body.{Body};
ghost use Rattle.zset_object.specs.Scored.{IsScored, IsChanged, IsPlacedBody, scores, ranked, form_of, form_of_body, listed_of, tables};

use crate::Scored;
use crate::packs::{find_index, without_range};
use crate::scored::{Body, Packed};
use blocks::{BlockStore, Memory, put_block};
use score_table::ScoreTable;
use std::mem;

// Takes a member out of a table, and answers whether it was there. A table that finds no memory to shrink is left without it.
fn take_out<B: BlockStore>(
    store: &mut B,
    table: &mut ScoreTable,
    member: &[u8],
) -> Result<bool, Memory>
    requires { IsScoreTable (B.blocks store.old) table.old }
    ensures there { IfOk result (λ was. was ≡ contains_key (scores_in_table (B.blocks store.old) table.old) member.now) }
    ensures removed { result ≡ Ok true → IsTableChanged (B.blocks store.old) (B.blocks store.new) table.old table.new (remove (scores_in_table (B.blocks store.old) table.old) member.now) }
    ensures err_removed { OnErr result (IsTableChanged (B.blocks store.old) (B.blocks store.new) table.old table.new (remove (scores_in_table (B.blocks store.old) table.old) member.now)) }
    ensures served { Served B.step store.old store.new }
    ensures settled { result ≡ Ok true → IsSettled (tables_of_table (B.blocks store.new) table.new) }
    ensures same_table { result ≡ Ok false → table.new ≡ table.old }
    ensures same_blocks { result ≡ Ok false → B.blocks store.new ≡ B.blocks store.old }
{
    match table.take_out(store, member) {
        Some(_) => {
            table.shrink()?;
            Ok(true)
        }
        None => Ok(false),
    }
}

// Takes the members from a rank to below another one out of a table. A table that finds no memory to shrink is left without them.
fn take_range<B: BlockStore>(
    store: &mut B,
    table: &mut ScoreTable,
    from: usize,
    to: usize,
) -> Result<(), Memory>
    requires sound { IsScoreTable (B.blocks store.old) table.old }
    requires order { from ≤ to }
    requires inside { to ≤ len (scores_in_table (B.blocks store.old) table.old) }
    ensures removed { IsTableChanged (B.blocks store.old) (B.blocks store.new) table.old table.new
        (without_each (scores_in_table (B.blocks store.old) table.old) (slice_range (ranked_in_table (B.blocks store.old) table.old) from to)) }
    ensures settled { OnOk result (IsSettled (tables_of_table (B.blocks store.new) table.new)) }
    ensures served { Served B.step store.old store.new }
{
    table.take_range(store, from, to);
    table.shrink()?;
    Ok(())
}

impl Scored {
    // Places the pairs of a listpack without the one of a member, whose index is at hand. `Memory` leaves all blocks.
    fn place_fewer<B: BlockStore>(
        &self,
        store: &mut B,
        packed: Packed,
        index: usize,
        member: &[u8],
    ) -> Result<Body, Memory>
        requires sound { IsScored (B.blocks store.old) self.now }
        requires body { self.now.body ≡ Body.Pack packed }
        requires first { IsFirst member.now (listed_of (B.blocks store.old) self.now.body) index }
        ensures placed { IfOk result (λ body. IsPlacedBody (B.blocks store.old) (B.blocks store.new) self.now.limits self.now.seed body (remove (scores (B.blocks store.old) self.now) member.now)) }
        ensures form { IfOk result (λ body. form_of_body body ≡ Form.Listpack) }
        ensures served { Served B.step store.old store.new }
        ensures err_blocks { OnErr result (B.blocks store.new ≡ B.blocks store.old) }
    {
        let _member = member;
        if packed.len == 1 {
            return Ok(Body::Empty);
        }
        let bytes = pack_pairs::without(self.alloc, store.bytes(packed.at), index)?;
        let at = put_block(store, &bytes)?;
        let len = packed.len - 1;
        Ok(Body::Pack(Packed { at, len }))
    }

    // Places the members of a packed sorted set without one of them. `None` comes exactly where it isn't there, and `Memory` leaves all
    // blocks.
    fn place_without<B: BlockStore>(
        &self,
        store: &mut B,
        member: &[u8],
    ) -> Result<Option<Body>, Memory>
        requires sound { IsScored (B.blocks store.old) self.now }
        requires packed { form_of self.now ≢ Form.Skiplist }
        ensures there { IfOk result (λ left. is_some left ≡ contains_key (scores (B.blocks store.old) self.now) member.now) }
        ensures placed { IfOk result
            (λ left. IfSome left
            (λ body. IsPlacedBody (B.blocks store.old) (B.blocks store.new) self.now.limits self.now.seed body (remove (scores (B.blocks store.old) self.now) member.now))) }
        ensures form { IfOk result (λ left. IfSome left (λ body. form_of_body body ≡ Form.Listpack)) }
        ensures served { Served B.step store.old store.new }
        ensures none_blocks { IfOk result (λ left. IfNone left (B.blocks store.new ≡ B.blocks store.old)) }
        ensures err_blocks { OnErr result (B.blocks store.new ≡ B.blocks store.old) }
    {
        let Body::Pack(packed) = self.body else {
            return Ok(None);
        };
        match find_index(store.bytes(packed.at), member) {
            Some(index) => match self.place_fewer(store, packed, index, member) {
                Ok(body) => Ok(Some(body)),
                Err(error) => Err(error),
            },
            None => Ok(None),
        }
    }

    /// Takes a member out, and answers whether it was there. The form stays.
    ///
    /// `Memory` leaves a packed sorted set and all blocks. A table that finds no memory to shrink is left without the member.
    pub fn remove<B: BlockStore>(&mut self, store: &mut B, member: &[u8]) -> Result<bool, Memory>
        requires { IsScored (B.blocks store.old) self.old }
        ensures there { IfOk result (λ was. was ≡ contains_key (scores (B.blocks store.old) self.old) member.now) }
        ensures removed { result ≡ Ok true → IsChanged (B.blocks store.old) (B.blocks store.new) self.old self.new (remove (scores (B.blocks store.old) self.old) member.now) }
        ensures form { form_of self.new ≡ form_of self.old }
        ensures settled { result ≡ Ok true → IsSettled (tables (B.blocks store.new) self.new) }
        ensures served { Served B.step store.old store.new }

        // Nothing changes where the member wasn't there.
        ensures same_scored { result ≡ Ok false → self.new ≡ self.old }
        ensures same_blocks { result ≡ Ok false → B.blocks store.new ≡ B.blocks store.old }

        ensures err_scored { OnErr result (form_of self.old ≢ Form.Skiplist → self.new ≡ self.old) }
        ensures err_blocks { OnErr result (form_of self.old ≢ Form.Skiplist → B.blocks store.new ≡ B.blocks store.old) }
        ensures err_removed { OnErr result
            (form_of self.old ≡ Form.Skiplist → IsChanged (B.blocks store.old) (B.blocks store.new) self.old self.new (remove (scores (B.blocks store.old) self.old) member.now)) }
    {
        if let Body::Table(table) = &mut self.body {
            return take_out(store, table, member);
        }
        match self.place_without(store, member)? {
            Some(body) => {
                mem::replace(&mut self.body, body).release(store);
                Ok(true)
            }
            None => Ok(false),
        }
    }

    // Places the pairs of a listpack without those from an index to below another one. `Memory` leaves all blocks.
    fn place_outside<B: BlockStore>(
        &self,
        store: &mut B,
        packed: Packed,
        from: usize,
        to: usize,
    ) -> Result<Body, Memory>
        requires sound { IsScored (B.blocks store.old) self.now }
        requires body { self.now.body ≡ Body.Pack packed }
        requires order { from ≤ to }
        requires inside { to ≤ packed.len }
        ensures placed { IfOk result
            (λ body. IsPlacedBody (B.blocks store.old) (B.blocks store.new) self.now.limits self.now.seed body
            (without_each (scores (B.blocks store.old) self.now) (slice_range (ranked (B.blocks store.old) self.now) from to))) }
        ensures form { IfOk result (λ body. form_of_body body ≡ Form.Listpack) }
        ensures served { Served B.step store.old store.new }
        ensures err_blocks { OnErr result (B.blocks store.new ≡ B.blocks store.old) }
    {
        let gone = to - from;
        if gone == packed.len {
            return Ok(Body::Empty);
        }
        let bytes = without_range(self.alloc, store.bytes(packed.at), from, to)?;
        let at = put_block(store, &bytes)?;
        let len = packed.len - gone;
        Ok(Body::Pack(Packed { at, len }))
    }

    // Takes the members from a rank to below another one out of a packed sorted set. `Memory` leaves it and all blocks.
    fn cut_packed<B: BlockStore>(
        &mut self,
        store: &mut B,
        from: usize,
        to: usize,
    ) -> Result<(), Memory>
        requires sound { IsScored (B.blocks store.old) self.old }
        requires packed { form_of self.old ≢ Form.Skiplist }
        requires order { from ≤ to }
        requires inside { to ≤ len (scores (B.blocks store.old) self.old) }
        ensures removed { OnOk result
            (IsChanged (B.blocks store.old) (B.blocks store.new) self.old self.new
            (without_each (scores (B.blocks store.old) self.old) (slice_range (ranked (B.blocks store.old) self.old) from to))) }
        ensures form { form_of self.new ≡ form_of self.old }
        ensures served { Served B.step store.old store.new }
        ensures err_scored { OnErr result (self.new ≡ self.old) }
        ensures err_blocks { OnErr result (B.blocks store.new ≡ B.blocks store.old) }
    {
        let Body::Pack(packed) = self.body else {
            return Ok(());
        };
        let body = self.place_outside(store, packed, from, to)?;
        mem::replace(&mut self.body, body).release(store);
        Ok(())
    }

    /// Takes the members from a rank to below another one out. Their place is found once, and the form stays.
    ///
    /// `Memory` leaves a packed sorted set and all blocks. A table that finds no memory to shrink is left without the members.
    pub fn remove_range<B: BlockStore>(
        &mut self,
        store: &mut B,
        from: usize,
        to: usize,
    ) -> Result<(), Memory>
        requires sound { IsScored (B.blocks store.old) self.old }
        requires order { from ≤ to }
        requires inside { to ≤ len (scores (B.blocks store.old) self.old) }
        ensures removed { OnOk result
            (IsChanged (B.blocks store.old) (B.blocks store.new) self.old self.new
            (without_each (scores (B.blocks store.old) self.old) (slice_range (ranked (B.blocks store.old) self.old) from to))) }
        ensures form { form_of self.new ≡ form_of self.old }
        ensures settled { OnOk result (IsSettled (tables (B.blocks store.new) self.new)) }
        ensures served { Served B.step store.old store.new }

        ensures err_scored { OnErr result (form_of self.old ≢ Form.Skiplist → self.new ≡ self.old) }
        ensures err_blocks { OnErr result (form_of self.old ≢ Form.Skiplist → B.blocks store.new ≡ B.blocks store.old) }
        ensures err_removed { OnErr result
            (form_of self.old ≡ Form.Skiplist → IsChanged (B.blocks store.old) (B.blocks store.new) self.old self.new
            (without_each (scores (B.blocks store.old) self.old) (slice_range (ranked (B.blocks store.old) self.old) from to))) }
    {
        if let Body::Table(table) = &mut self.body {
            return take_range(store, table, from, to);
        }
        self.cut_packed(store, from, to)
    }
}
