ghost use Rattle.std.specs.Prelude.{◌≡◌, [], MatchOption, None, Some};
ghost use Rattle.std.specs.FinMap.{empty, get, len};
ghost use Rattle.blocks.specs.Blocks.{Blocks, Changes, Owned, Served};
ghost use Rattle.listpack.specs.Element.{element_text};
ghost use Rattle.object_codec.specs.Limits.{AreInRange};
ghost use Rattle.object_codec.specs.Forms.{IsLeast};
ghost use Rattle.rehash_dict.specs.Keyed.{Keyed};
ghost use Rattle.hash_object.specs.Maps.{FitsFields};
ghost use Rattle.hash_object.specs.Hashed.{fields_in, blocks_of};
ghost use Rattle.hash_object.specs.Fields.{IsFields, fields, refs, refs_of_body, form_of, tables, no_tables};

use crate::hashed::end_table;
use blocks::{BlockRef, BlockStore};
use listpack::Element;
use object_codec::{Form, Limits};
use pack_pairs::find_second;
use rehash_dict::Dict;
use std::alloc::Global;

/// The block of a packed hash, and the number of its fields.
#[derive(Clone, Copy, Debug)]
pub(crate) struct Packed {
    pub(crate) at: BlockRef,
    pub(crate) len: usize,
}

// The fields and values, as they are kept.
#[derive(Drop)]
pub(crate) enum Body {
    // none, and no block
    Empty,
    // a listpack: a field, its value, the next field, and so on
    Pack(Packed),
    // a dictionary, each of whose fields and values is a block
    Table(Dict<BlockRef>),
}

/// A hash: a finite map from fields to values, which are byte strings. It owns its blocks in the store that each call is lent, and no
/// other block.
///
/// It is a listpack while its fields are few enough and they and their values short enough, and else a dictionary, which it stays.
#[derive(Drop)]
pub struct Fields {
    pub(crate) alloc: Global,
    pub(crate) limits: Limits,
    pub(crate) seed: u64,
    pub(crate) body: Body,
}

impl Body {
    // Gives back all blocks.
    pub(crate) fn release<B: BlockStore>(self, store: &mut B)
        requires { Owned (refs_of_body self) (B.blocks store.old) }
        ensures changes { Changes (B.blocks store.old) (B.blocks store.new) (refs_of_body self) [] }
        ensures served { Served B.step store.old store.new }
    {
        match self {
            Body::Empty => {}
            Body::Pack(packed) => store.give_back(packed.at),
            Body::Table(table) => end_table(store, table),
        }
    }
}

// The value of a field of the dictionary.
fn value_of<'a, B: BlockStore>(
    store: &'a B,
    table: &'a Dict<BlockRef>,
    field: &[u8],
) -> Option<Element<'a>>
    requires keyed { Keyed (B.blocks store.now) table.now }
    requires owned { Owned (blocks_of table.now) (B.blocks store.now) }
    ensures { MatchOption result (get (fields_in (B.blocks store.now) table.now) field.now ≡ None) (λ value. get (fields_in (B.blocks store.now) table.now) field.now ≡ Some (element_text value)) }
{
    match table.find(store, field) {
        Some(at) => Some(Element::Text(store.bytes(*table.entry(at).1))),
        None => None,
    }
}

impl Fields {
    /// An empty hash, which will be kept by these limits. The seed is that of a dictionary's hashes. It takes no memory.
    pub fn new(alloc: Global, limits: Limits, seed: u64) -> Fields
        requires { AreInRange limits }
        ensures sound { (m : Blocks) → IsFields m result }
        ensures empty { (m : Blocks) → fields m result ≡ empty }
        ensures form { IsLeast (FitsFields limits empty) (form_of result) }
        ensures refs { refs result ≡ [] }
        ensures tables { (m : Blocks) → tables m result ≡ no_tables }
        ensures limits { result.limits ≡ limits }
        ensures seed { result.seed ≡ seed }
    {
        Fields {
            alloc,
            limits,
            seed,
            body: Body::Empty,
        }
    }

    /// Gives back all blocks of the hash.
    pub fn release<B: BlockStore>(self, store: &mut B)
        requires { Owned (refs self) (B.blocks store.old) }
        ensures changes { Changes (B.blocks store.old) (B.blocks store.new) (refs self) [] }
        ensures served { Served B.step store.old store.new }
    {
        self.body.release(store);
    }

    /// The number of fields.
    pub fn len(&self) -> usize
        ensures { (m : Blocks) → IsFields m self.now → result ≡ len (fields m self.now) }
    {
        match &self.body {
            Body::Empty => 0,
            Body::Pack(packed) => packed.len,
            Body::Table(table) => table.len(),
        }
    }

    /// How the hash is kept.
    pub fn form(&self) -> Form
        ensures { result ≡ form_of self.now }
    {
        match &self.body {
            Body::Empty | Body::Pack(_) => Form::Listpack,
            Body::Table(_) => Form::Hashtable,
        }
    }

    /// The value of a field. `None` comes exactly where the field isn't there.
    pub fn get<'a, B: BlockStore>(&'a self, store: &'a B, field: &[u8]) -> Option<Element<'a>>
        requires { IsFields (B.blocks store.now) self.now }
        ensures { MatchOption result (get (fields (B.blocks store.now) self.now) field.now ≡ None) (λ value. get (fields (B.blocks store.now) self.now) field.now ≡ Some (element_text value)) }
    {
        match &self.body {
            Body::Empty => None,
            Body::Pack(packed) => find_second(store.bytes(packed.at), field),
            Body::Table(table) => value_of(store, table, field),
        }
    }
}
