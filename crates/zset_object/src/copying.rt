// Sorted sets copied.

ghost use Rattle.std.specs.Prelude.{◌≡◌, [], IfOk, OnErr};
ghost use Rattle.blocks.specs.Blocks.{Changes, Served};
ghost use Rattle.rehash_dict.specs.Keyed.{hash_of};
ghost use Rattle.rehash_dict.specs.Grown.{Grown};
ghost use Rattle.score_table.specs.Scored.{no_tables};
ghost use Rattle.zset_object.specs.Scored.{IsScored, IsPlacedBody, KeepsSettings, scores, form_of, form_of_body, refs, tables};

use crate::Scored;
use crate::scored::{Body, Packed};
use blocks::{BlockStore, Memory};
use collection_walk::copy_block;

impl Scored {
    // Places a body of the same members, scores and form. `Memory` leaves all blocks.
    fn copy_body<B: BlockStore>(&self, store: &mut B) -> Result<Body, Memory>
        requires { IsScored (B.blocks store.old) self.now }
        ensures placed { IfOk result (λ body. IsPlacedBody (B.blocks store.old) (B.blocks store.new) self.now.limits self.now.seed body (scores (B.blocks store.old) self.now)) }
        ensures form { IfOk result (λ body. form_of_body body ≡ form_of self.now) }
        ensures served { Served B.step store.old store.new }
        ensures err_blocks { OnErr result (B.blocks store.new ≡ B.blocks store.old) }
    {
        match &self.body {
            Body::Empty => Ok(Body::Empty),
            Body::Pack(packed) => {
                let at = copy_block(self.alloc, store, packed.at)?;
                let len = packed.len;
                Ok(Body::Pack(Packed { at, len }))
            }
            Body::Table(table) => Ok(Body::Table(table.copy(self.alloc, self.seed, store)?)),
        }
    }

    /// A sorted set of the same members and scores in the same form, over blocks that weren't live. A table takes them in the order of
    /// their item numbers.
    ///
    /// `Memory` leaves all blocks.
    pub fn copy<B: BlockStore>(&self, store: &mut B) -> Result<Scored, Memory>
        requires { IsScored (B.blocks store.old) self.now }
        ensures sound { IfOk result (λ copy. IsScored (B.blocks store.new) copy) }
        ensures scores { IfOk result (λ copy. scores (B.blocks store.new) copy ≡ scores (B.blocks store.old) self.now) }
        ensures form { IfOk result (λ copy. form_of copy ≡ form_of self.now) }
        ensures changes { IfOk result (λ copy. Changes (B.blocks store.old) (B.blocks store.new) [] (refs copy)) }
        ensures grown { IfOk result (λ copy. Grown (hash_of self.now.seed) no_tables (tables (B.blocks store.new) copy)) }
        ensures settings { IfOk result (λ copy. KeepsSettings self.now copy) }
        ensures served { Served B.step store.old store.new }
        ensures err_blocks { OnErr result (B.blocks store.new ≡ B.blocks store.old) }
    {
        let body = self.copy_body(store)?;
        Ok(Scored {
            alloc: self.alloc,
            limits: self.limits,
            seed: self.seed,
            body,
        })
    }
}
