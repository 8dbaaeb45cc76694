ghost use Rattle.std.specs.Prelude.{◌≡◌, [], None};
ghost use Rattle.std.specs.FinMap.{empty, len};
ghost use Rattle.blocks.specs.Blocks.{Blocks, Changes, Owned, Served};
ghost use Rattle.object_codec.specs.Limits.{AreInRange};
ghost use Rattle.object_codec.specs.Forms.{IsLeast};
ghost use Rattle.score_table.specs.Scored.{no_tables};
ghost use Rattle.zset_object.specs.Orders.{FitsScored};
ghost use Rattle.zset_object.specs.Scored.{IsScored, scores, refs, refs_of_body, form_of, tables};

use blocks::{BlockRef, BlockStore};
use object_codec::{Form, Limits};
use score_table::ScoreTable;
use std::alloc::Global;

/// The block of a packed sorted set, and the number of its members.
#[derive(Clone, Copy, Debug)]
pub(crate) struct Packed {
    pub(crate) at: BlockRef,
    pub(crate) len: usize,
}

// The members and scores, as they are kept.
#[derive(Drop)]
pub(crate) enum Body {
    // none, and no block
    Empty,
    // a listpack in order: a member, its score, the next member, and so on
    Pack(Packed),
    // a dictionary and an ordered list, which share a block for each member
    Table(ScoreTable),
}

/// A sorted set: a finite map from members, which are byte strings, to scores, in the order of the scores and, where these are the same,
/// of the members' bytes. It owns its blocks in the store that each call is lent, and no other block.
///
/// It is a listpack while its members are few enough and short enough, and else a table, which it stays.
#[derive(Drop)]
pub struct Scored {
    pub(crate) alloc: Global,
    pub(crate) limits: Limits,
    pub(crate) seed: u64,
    pub(crate) body: Body,
}

impl Body {
    // Gives back all blocks.
    pub(crate) fn release<B: BlockStore>(self, store: &mut B)
        requires { Owned (refs_of_body self) (B.blocks store.old) }
        ensures changes { Changes (B.blocks store.old) (B.blocks store.new) (refs_of_body self) [] }
        ensures served { Served B.step store.old store.new }
    {
        match self {
            Body::Empty => {}
            Body::Pack(packed) => store.give_back(packed.at),
            Body::Table(table) => table.release(store),
        }
    }
}

impl Scored {
    /// An empty sorted set, which will be kept by these limits. The seed is that of the dictionary's hashes and of the list's heights. It
    /// takes no memory.
    pub fn new(alloc: Global, limits: Limits, seed: u64) -> Scored
        requires { AreInRange limits }
        ensures sound { (m : Blocks) → IsScored m result }
        ensures empty { (m : Blocks) → scores m result ≡ empty }
        ensures form { IsLeast (FitsScored limits empty) (form_of result) }
        ensures refs { refs result ≡ [] }
        ensures tables { (m : Blocks) → tables m result ≡ no_tables }
        ensures limits { result.limits ≡ limits }
        ensures seed { result.seed ≡ seed }
    {
        Scored {
            alloc,
            limits,
            seed,
            body: Body::Empty,
        }
    }

    /// Gives back all blocks of the sorted set.
    pub fn release<B: BlockStore>(self, store: &mut B)
        requires { Owned (refs self) (B.blocks store.old) }
        ensures changes { Changes (B.blocks store.old) (B.blocks store.new) (refs self) [] }
        ensures served { Served B.step store.old store.new }
    {
        self.body.release(store);
    }

    /// The number of members.
    pub fn len(&self) -> usize
        ensures { (m : Blocks) → IsScored m self.now → result ≡ len (scores m self.now) }
    {
        match &self.body {
            Body::Empty => 0,
            Body::Pack(packed) => packed.len,
            Body::Table(table) => table.len(),
        }
    }

    /// How the sorted set is kept.
    pub fn form(&self) -> Form
        ensures { result ≡ form_of self.now }
    {
        match &self.body {
            Body::Empty | Body::Pack(_) => Form::Listpack,
            Body::Table(_) => Form::Skiplist,
        }
    }
}
