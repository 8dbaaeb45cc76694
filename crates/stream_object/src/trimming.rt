// Entries taken out from the front.

ghost use Rattle.std.specs.Prelude.{◌≡◌, ◌+◌, ◌-◌, ◌<◌, ◌≤◌, ℕ, length, IfOk, OnOk, OnErr};
ghost use Rattle.blocks.specs.Blocks.{Served};
ghost use Rattle.stream_object.specs.Below.{count_low, from_id};
ghost use Rattle.stream_object.specs.Streams.{IsChanged, IsStream, dropping, entries, stream_of};

use crate::Memory;
use crate::below::count_below;
use crate::node::{first_live, live_count};
use crate::nodes::{LEAST, drop_node, near};
use crate::removing::mark_out;
use crate::spot::Spot;
use crate::stream::Stream;
use crate::tail::beside;
use blocks::BlockStore;
use stream_node::Id;

impl Stream {
    // Takes out some of the first entries, at most so many: those of the first node together, or one of them. Answers how many.
    // `Memory` leaves all as before.
    fn drop_some<B: BlockStore>(&mut self, store: &mut B, most: u64) -> Result<u64, Memory>
        requires is_stream { IsStream (B.blocks store.old) self.old }
        requires some { 0 < most }
        requires within { most ≤ self.old.len }
        ensures dropped { IfOk result (λ n. IsChanged (B.blocks store.old) (B.blocks store.new) self.old self.new (dropping (stream_of (B.blocks store.old) self.old) n)) }
        ensures some { IfOk result (λ n. 0 < n) }
        ensures within { IfOk result (λ n. n ≤ most) }
        ensures len { IfOk result (λ n. self.new.len + n ≡ self.old.len) }
        ensures served { Served B.step store.old store.new }
        ensures err_stream { OnErr result (self.new ≡ self.old) }
        ensures err_blocks { OnErr result (B.blocks store.new ≡ B.blocks store.old) }
    {
        let Some(spot) = near(store, &self.tree, LEAST, true) else {
            unreachable!()
        };
        let Spot { key, at, bytes } = spot;
        let count = live_count(bytes) as u64;
        if count <= most {
            drop_node(store, &mut self.tree, key, at);
            self.tail = beside(self.tail, key);
            self.len -= count;
            return Ok(count);
        }
        let first = first_live(key, bytes);
        mark_out(self.alloc, store, &mut self.tree, key, at, first)?;
        self.tail = beside(self.tail, key);
        self.len -= 1;
        Ok(1)
    }

    // Takes out so many of the first entries. After `Memory` some of them are out, in order.
    fn drop_front<B: BlockStore>(&mut self, store: &mut B, count: u64) -> Result<(), Memory>
        requires is_stream { IsStream (B.blocks store.old) self.old }
        requires within { count ≤ self.old.len }
        ensures dropped { OnOk result (IsChanged (B.blocks store.old) (B.blocks store.new) self.old self.new (dropping (stream_of (B.blocks store.old) self.old) count)) }
        ensures served { Served B.step store.old store.new }
        ensures err_some { OnErr result ((n : ℕ) × (n ≤ count) × IsChanged (B.blocks store.old) (B.blocks store.new) self.old self.new (dropping (stream_of (B.blocks store.old) self.old) n)) }
    {
        let mut left = count;
        while left > 0 {
            left -= self.drop_some(store, left)?;
        }
        Ok(())
    }

    /// Takes out entries from the front, so that at most `keep` are left, and answers how many. After `Memory` some of them are
    /// out, in order.
    pub fn trim_len<B: BlockStore>(&mut self, store: &mut B, keep: u64) -> Result<u64, Memory>
        requires { IsStream (B.blocks store.old) self.old }
        ensures count { IfOk result (λ n. n ≡ length (entries (B.blocks store.old) self.old) - keep) }
        ensures trimmed { OnOk result
            (IsChanged (B.blocks store.old) (B.blocks store.new) self.old self.new
            (dropping (stream_of (B.blocks store.old) self.old) (length (entries (B.blocks store.old) self.old) - keep))) }
        ensures served { Served B.step store.old store.new }
        ensures err_some { OnErr result
            ((n : ℕ) × (n ≤ length (entries (B.blocks store.old) self.old) - keep)
            × IsChanged (B.blocks store.old) (B.blocks store.new) self.old self.new (dropping (stream_of (B.blocks store.old) self.old) n)) }
    {
        let count = self.len.saturating_sub(keep);
        self.drop_front(store, count)?;
        Ok(count)
    }

    // How many entries of the first node are below an id. There are none exactly where no entry at all is below it.
    fn first_below<B: BlockStore>(&self, store: &B, least: Id) -> u64
        requires { IsStream (B.blocks store.now) self.now }
        ensures within { result ≤ count_low least (entries (B.blocks store.now) self.now) }
        ensures none { result ≡ 0 → count_low least (entries (B.blocks store.now) self.now) ≡ 0 }
    {
        match near(store, &self.tree, LEAST, true) {
            Some(spot) => count_below(spot.key, spot.bytes, least) as u64,
            None => 0,
        }
    }

    /// Takes out the entries below an id, from the front, and answers how many. After `Memory` some of them are out, in order.
    pub fn trim_id<B: BlockStore>(&mut self, store: &mut B, least: Id) -> Result<u64, Memory>
        requires { IsStream (B.blocks store.old) self.old }
        ensures count { IfOk result (λ n. n ≡ count_low least (entries (B.blocks store.old) self.old)) }
        ensures trimmed { OnOk result (IsChanged (B.blocks store.old) (B.blocks store.new) self.old self.new (from_id (stream_of (B.blocks store.old) self.old) least)) }
        ensures served { Served B.step store.old store.new }
        ensures err_some { OnErr result
            ((n : ℕ) × (n ≤ count_low least (entries (B.blocks store.old) self.old))
            × IsChanged (B.blocks store.old) (B.blocks store.new) self.old self.new (dropping (stream_of (B.blocks store.old) self.old) n)) }
    {
        let len = self.len;
        'nodes: loop {
            let low = self.first_below(store, least);
            if low == 0 {
                return Ok(len - self.len);
            }
            self.drop_front(store, low)?;
        }
    }
}
