ghost use Rattle.std.specs.Prelude.{◌≡◌, ◌≤◌, [], IfSome, IfNone};
ghost use Rattle.std.specs.FinMap.{empty, len};
ghost use Rattle.blocks.specs.Blocks.{Blocks};
ghost use Rattle.object_codec.specs.Limits.{AreInRange};
ghost use Rattle.object_codec.specs.Forms.{IsLeast};
ghost use Rattle.set_object.specs.Strings.{has, FitsMembers};
ghost use Rattle.set_object.specs.Members.{IsMembers, members, refs, form_of, tables, no_tables};

use crate::packs::{find_text, number_among};
use blocks::{BlockRef, BlockStore};
use object_codec::{Form, Limits};
use rehash_dict::Dict;
use std::alloc::Global;

/// The block of a packed collection, and the number of its elements.
#[derive(Clone, Copy, Debug)]
pub(crate) struct Packed {
    pub(crate) at: BlockRef,
    pub(crate) len: usize,
}

// The members, as they are kept.
#[derive(Drop)]
pub(crate) enum Body {
    // none, and no block
    Empty,
    // an intset
    Numbers(Packed),
    // a listpack
    Pack(Packed),
    // a dictionary, each of whose members is a block
    Table(Dict<()>),
}

/// A set of byte strings. It owns its blocks in the store that each call is lent, and no other block.
///
/// It is an intset while all members are canonical texts of signed numbers of 64 bits and few enough, a listpack while they are
/// few and short enough, and else a dictionary. A form that it has left it doesn't take again, but a packed set whose last member
/// goes is as a new one.
#[derive(Drop)]
pub struct Members {
    pub(crate) alloc: Global,
    pub(crate) limits: Limits,
    pub(crate) seed: u64,
    pub(crate) body: Body,
}

impl Members {
    /// An empty set, which will be kept by these limits. The seed is that of a dictionary's hashes. It takes no memory.
    pub fn new(alloc: Global, limits: Limits, seed: u64) -> Members
        requires { AreInRange limits }
        ensures sound { (m : Blocks) → IsMembers m result }
        ensures empty { (m : Blocks) → members m result ≡ empty }
        ensures form { IsLeast (FitsMembers limits empty) (form_of result) }
        ensures refs { refs result ≡ [] }
        ensures tables { (m : Blocks) → tables m result ≡ no_tables }
        ensures limits { result.limits ≡ limits }
        ensures seed { result.seed ≡ seed }
    {
        Members {
            alloc,
            limits,
            seed,
            body: Body::Empty,
        }
    }

    /// The number of members.
    pub fn len(&self) -> usize
        ensures { (m : Blocks) → IsMembers m self.now → result ≡ len (members m self.now) }
    {
        match &self.body {
            Body::Empty => 0,
            Body::Numbers(packed) => packed.len,
            Body::Pack(packed) => packed.len,
            Body::Table(table) => table.len(),
        }
    }

    /// How the set is kept.
    pub fn form(&self) -> Form
        ensures { result ≡ form_of self.now }
    {
        match &self.body {
            Body::Empty | Body::Numbers(_) => Form::Intset,
            Body::Pack(_) => Form::Listpack,
            Body::Table(_) => Form::Hashtable,
        }
    }

    /// Whether a string is a member.
    pub fn has<B: BlockStore>(&self, store: &B, member: &[u8]) -> bool
        requires { IsMembers (B.blocks store.now) self.now }
        ensures { result ≡ has (members (B.blocks store.now) self.now) member.now }
    {
        match &self.body {
            Body::Empty => false,
            Body::Numbers(packed) => number_among(store.bytes(packed.at), member).is_some(),
            Body::Pack(packed) => find_text(store.bytes(packed.at), member).is_some(),
            Body::Table(table) => table.find(store, member).is_some(),
        }
    }
}
