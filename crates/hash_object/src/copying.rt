// Hashes copied.

ghost use Rattle.std.specs.Prelude.{◌≡◌, [], List, ℕ, Some, IfOk, OnOk, OnErr, IsSome};
ghost use Rattle.std.specs.FinMap.{insert};
ghost use Rattle.blocks.specs.Blocks.{Changes, Owned, Served};
ghost use Rattle.rehash_dict.specs.Keyed.{Keyed, Lacks, hash_of};
ghost use Rattle.rehash_dict.specs.Table.{item};
ghost use Rattle.rehash_dict.specs.Grown.{Grown};
ghost use Rattle.hash_object.specs.Hashed.{IsHashed, fields_in, blocks_of, no_fields};
ghost use Rattle.hash_object.specs.Items.{entry_at};
ghost use Rattle.hash_object.specs.Fields.{IsFields, IsPlacedBody, KeepsSettings, fields, form_of, form_of_body, refs, tables, no_tables};

use crate::Fields;
use crate::fields::{Body, Packed};
use crate::hashed::{end_table, hash_field};
use blocks::{BlockRef, BlockStore, Memory};
use collection_walk::copy_block;
use rehash_dict::Dict;
use std::alloc::Global;

// Puts the field of an item number of one dictionary into another, which lacks it. `Memory` leaves dictionary and blocks.
fn copy_field<B: BlockStore>(
    alloc: Global,
    store: &mut B,
    source: &Dict<BlockRef>,
    at: usize,
    table: &mut Dict<BlockRef>,
) -> Result<(), Memory>
    requires source { Keyed (B.blocks store.old) source.now }
    requires source_owned { Owned (blocks_of source.now) (B.blocks store.old) }
    requires entry { IsSome (item source.now at) }
    requires keyed { Keyed (B.blocks store.old) table.old }
    requires owned { Owned (blocks_of table.old) (B.blocks store.old) }
    requires absent { (k v : List ℕ) → entry_at (B.blocks store.old) (item source.now at) ≡ Some (k, v) → Lacks (B.blocks store.old) table.old k }
    ensures hashed { OnOk result
        ((k v : List ℕ) → entry_at (B.blocks store.old) (item source.now at) ≡ Some (k, v)
        → IsHashed (B.blocks store.old) (B.blocks store.new) table.old table.new (insert (fields_in (B.blocks store.old) table.old) k v)) }
    ensures served { Served B.step store.old store.new }
    ensures err_table { OnErr result (table.new ≡ table.old) }
    ensures err_blocks { OnErr result (B.blocks store.new ≡ B.blocks store.old) }
{
    let (key, value) = source.entry(at);
    let field_bytes = Vec::from_slice(alloc, store.bytes(key))?;
    let value_bytes = Vec::from_slice(alloc, store.bytes(*value))?;
    hash_field(store, table, &field_bytes, &value_bytes)
}

// A dictionary of the fields of another, put in in the order of their item numbers. `Memory` leaves all blocks.
fn copy_table<B: BlockStore>(
    alloc: Global,
    seed: u64,
    store: &mut B,
    source: &Dict<BlockRef>,
) -> Result<Dict<BlockRef>, Memory>
    requires keyed { Keyed (B.blocks store.old) source.now }
    requires owned { Owned (blocks_of source.now) (B.blocks store.old) }
    ensures hashed { IfOk result (λ table. IsHashed (B.blocks store.old) (B.blocks store.new) (no_fields seed) table (fields_in (B.blocks store.old) source.now)) }
    ensures served { Served B.step store.old store.new }
    ensures err_blocks { OnErr result (B.blocks store.new ≡ B.blocks store.old) }
{
    let mut table = Dict::new(alloc, seed);
    for at in 0..source.top() {
        if source.is_entry(at) {
            if let Err(error) = copy_field(alloc, store, source, at, &mut table) {
                end_table(store, table);
                return Err(error);
            }
        }
    }
    Ok(table)
}

impl Fields {
    // Places a body of the same fields, values and form. `Memory` leaves all blocks.
    fn copy_body<B: BlockStore>(&self, store: &mut B) -> Result<Body, Memory>
        requires { IsFields (B.blocks store.old) self.now }
        ensures placed { IfOk result (λ body. IsPlacedBody (B.blocks store.old) (B.blocks store.new) self.now body (fields (B.blocks store.old) self.now)) }
        ensures form { IfOk result (λ body. form_of_body body ≡ form_of self.now) }
        ensures served { Served B.step store.old store.new }
        ensures err_blocks { OnErr result (B.blocks store.new ≡ B.blocks store.old) }
    {
        match &self.body {
            Body::Empty => Ok(Body::Empty),
            Body::Pack(packed) => {
                let at = copy_block(self.alloc, store, packed.at)?;
                let len = packed.len;
                Ok(Body::Pack(Packed { at, len }))
            }
            Body::Table(table) => Ok(Body::Table(copy_table(self.alloc, self.seed, store, table)?)),
        }
    }

    /// A hash of the same fields and values in the same form, over blocks that weren't live. A dictionary takes them in the order of
    /// their item numbers.
    ///
    /// `Memory` leaves all blocks.
    pub fn copy<B: BlockStore>(&self, store: &mut B) -> Result<Fields, Memory>
        requires { IsFields (B.blocks store.old) self.now }
        ensures sound { IfOk result (λ copy. IsFields (B.blocks store.new) copy) }
        ensures fields { IfOk result (λ copy. fields (B.blocks store.new) copy ≡ fields (B.blocks store.old) self.now) }
        ensures form { IfOk result (λ copy. form_of copy ≡ form_of self.now) }
        ensures changes { IfOk result (λ copy. Changes (B.blocks store.old) (B.blocks store.new) [] (refs copy)) }
        ensures grown { IfOk result (λ copy. Grown (hash_of self.now.seed) no_tables (tables (B.blocks store.new) copy)) }
        ensures settings { IfOk result (λ copy. KeepsSettings self.now copy) }
        ensures served { Served B.step store.old store.new }
        ensures err_blocks { OnErr result (B.blocks store.new ≡ B.blocks store.old) }
    {
        let body = self.copy_body(store)?;
        Ok(Fields {
            alloc: self.alloc,
            limits: self.limits,
            seed: self.seed,
            body,
        })
    }
}
