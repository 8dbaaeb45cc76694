// Sets copied.

ghost use Rattle.std.specs.Prelude.{◌≡◌, [], IfOk, OnOk, OnErr, IsSome, false};
ghost use Rattle.std.specs.FinMap.{insert};
ghost use Rattle.blocks.specs.Blocks.{Changes, Served};
ghost use Rattle.rehash_dict.specs.Keyed.{Keyed, hash_of, key_of};
ghost use Rattle.rehash_dict.specs.Table.{item};
ghost use Rattle.rehash_dict.specs.MapOf.{content};
ghost use Rattle.rehash_dict.specs.Grown.{Grown};
ghost use Rattle.set_object.specs.Strings.{has};
ghost use Rattle.set_object.specs.Hashed.{IsHashed, no_members};
ghost use Rattle.set_object.specs.Members.{IsMembers, IsPlacedBody, KeepsSettings, members, form_of, form_of_body, refs, tables, no_tables};

use crate::Members;
use crate::hashed::hash_member;
use crate::members::{Body, Packed};
use blocks::{BlockStore, Memory};
use collection_walk::{copy_block, end_table};
use rehash_dict::Dict;
use std::alloc::Global;

// Puts the member of an item number of one dictionary into another, which lacks it. `Memory` leaves dictionary and blocks.
fn copy_member<B: BlockStore>(
    alloc: Global,
    store: &mut B,
    source: &Dict<()>,
    at: usize,
    table: &mut Dict<()>,
) -> Result<(), Memory>
    requires source { Keyed (B.blocks store.old) source.now }
    requires entry { IsSome (item source.now at) }
    requires keyed { Keyed (B.blocks store.old) table.old }
    requires absent { has (content (B.blocks store.old) table.old) (key_of (B.blocks store.old) (item source.now at)) ≡ false }
    ensures hashed { OnOk result
        (IsHashed (B.blocks store.old) (B.blocks store.new) table.old table.new (insert (content (B.blocks store.old) table.old) (key_of (B.blocks store.old) (item source.now at)) tt)) }
    ensures served { Served B.step store.old store.new }
    ensures err_table { OnErr result (table.new ≡ table.old) }
    ensures err_blocks { OnErr result (B.blocks store.new ≡ B.blocks store.old) }
{
    let bytes = Vec::from_slice(alloc, store.bytes(source.entry(at).0))?;
    hash_member(store, table, &bytes)
}

// A dictionary of the members of another, put in in the order of their item numbers. `Memory` leaves all blocks.
fn copy_table<B: BlockStore>(
    alloc: Global,
    seed: u64,
    store: &mut B,
    source: &Dict<()>,
) -> Result<Dict<()>, Memory>
    requires { Keyed (B.blocks store.old) source.now }
    ensures hashed { IfOk result (λ table. IsHashed (B.blocks store.old) (B.blocks store.new) (no_members seed) table (content (B.blocks store.old) source.now)) }
    ensures served { Served B.step store.old store.new }
    ensures err_blocks { OnErr result (B.blocks store.new ≡ B.blocks store.old) }
{
    let mut table = Dict::new(alloc, seed);
    for at in 0..source.top() {
        if source.is_entry(at) {
            if let Err(error) = copy_member(alloc, store, source, at, &mut table) {
                end_table(store, table);
                return Err(error);
            }
        }
    }
    Ok(table)
}

impl Members {
    // Places a body of the same members and form. `Memory` leaves all blocks.
    fn copy_body<B: BlockStore>(&self, store: &mut B) -> Result<Body, Memory>
        requires { IsMembers (B.blocks store.old) self.now }
        ensures placed { IfOk result (λ body. IsPlacedBody (B.blocks store.old) (B.blocks store.new) self.now body (members (B.blocks store.old) self.now)) }
        ensures form { IfOk result (λ body. form_of_body body ≡ form_of self.now) }
        ensures served { Served B.step store.old store.new }
        ensures err_blocks { OnErr result (B.blocks store.new ≡ B.blocks store.old) }
    {
        match &self.body {
            Body::Empty => Ok(Body::Empty),
            Body::Numbers(packed) => {
                let at = copy_block(self.alloc, store, packed.at)?;
                let len = packed.len;
                Ok(Body::Numbers(Packed { at, len }))
            }
            Body::Pack(packed) => {
                let at = copy_block(self.alloc, store, packed.at)?;
                let len = packed.len;
                Ok(Body::Pack(Packed { at, len }))
            }
            Body::Table(table) => Ok(Body::Table(copy_table(self.alloc, self.seed, store, table)?)),
        }
    }

    /// A set of the same members in the same form, over blocks that weren't live. A dictionary takes them in the order of their item
    /// numbers.
    ///
    /// `Memory` leaves all blocks.
    pub fn copy<B: BlockStore>(&self, store: &mut B) -> Result<Members, Memory>
        requires { IsMembers (B.blocks store.old) self.now }
        ensures sound { IfOk result (λ copy. IsMembers (B.blocks store.new) copy) }
        ensures members { IfOk result (λ copy. members (B.blocks store.new) copy ≡ members (B.blocks store.old) self.now) }
        ensures form { IfOk result (λ copy. form_of copy ≡ form_of self.now) }
        ensures changes { IfOk result (λ copy. Changes (B.blocks store.old) (B.blocks store.new) [] (refs copy)) }
        ensures grown { IfOk result (λ copy. Grown (hash_of self.now.seed) no_tables (tables (B.blocks store.new) copy)) }
        ensures settings { IfOk result (λ copy. KeepsSettings self.now copy) }
        ensures served { Served B.step store.old store.new }
        ensures err_blocks { OnErr result (B.blocks store.new ≡ B.blocks store.old) }
    {
        let body = self.copy_body(store)?;
        Ok(Members {
            alloc: self.alloc,
            limits: self.limits,
            seed: self.seed,
            body,
        })
    }
}
