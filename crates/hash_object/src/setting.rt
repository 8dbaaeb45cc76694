// Fields that are given values.

ghost use Rattle.std.specs.Prelude.{◌≡◌, ◌≢◌, ◌≤◌, [], ◌∷◌, Some, not, max, length, IfOk, OnOk, OnErr};
ghost use Rattle.std.specs.FinMap.{insert, contains_key, len};
ghost use Rattle.blocks.specs.Blocks.{Changes, Owned, Served};
ghost use Rattle.object_codec.specs.declared.form.Form.{Form};
ghost use Rattle.pack_pairs.specs.Pairs.{IsPairPack, pairs};
ghost use Rattle.hash_object.specs.Maps.{IsRisen};
ghost use Rattle.hash_object.specs.Hashed.{IsHashed, no_fields};
ghost use Rattle.hash_object.specs.Fields.{IsFields, IsChanged, IsPlacedBody, IsIndex, fields, form_of, form_of_body, listed_of, put_in, refs_of_body};

use crate::Fields;
use crate::fields::{Body, Packed};
use crate::hashed::{end_table, hash_pack, set_field};
use crate::packs::{find_index, pack_with};
use blocks::{BlockRef, BlockStore, Memory, put_block};
use collection_walk::replace_block;
use object_codec::{Form, hash_form};
use rehash_dict::Dict;
use std::mem;

impl Body {
    // Puts a listpack in the place of that of a packed hash: over it where both have as many bytes. It answers the block that has it, and
    // `Memory` leaves all blocks.
    fn put_bytes<B: BlockStore>(&self, store: &mut B, bytes: &[u8]) -> Result<BlockRef, Memory>
        requires owned { Owned (refs_of_body self.now) (B.blocks store.old) }
        requires packed { form_of_body self.now ≢ Form.Hashtable }
        ensures bytes { IfOk result (λ at. B.blocks store.new at ≡ Some bytes.now) }
        ensures changes { IfOk result (λ at. Changes (B.blocks store.old) (B.blocks store.new) (refs_of_body self.now) (at ∷ [])) }
        ensures served { Served B.step store.old store.new }
        ensures err_blocks { OnErr result (B.blocks store.new ≡ B.blocks store.old) }
    {
        match self {
            Body::Empty => put_block(store, bytes),
            Body::Pack(packed) => replace_block(store, packed.at, bytes),
            Body::Table(_) => unreachable!(),
        }
    }
}

impl Fields {
    // The index of a field's pair in a packed hash.
    fn index_of<B: BlockStore>(&self, store: &B, field: &[u8]) -> Option<usize>
        requires sound { IsFields (B.blocks store.now) self.now }
        requires packed { form_of self.now ≢ Form.Hashtable }
        ensures { IsIndex (listed_of (B.blocks store.now) self.now.body) field.now result }
    {
        match &self.body {
            Body::Empty => None,
            Body::Pack(packed) => find_index(store.bytes(packed.at), field),
            Body::Table(_) => unreachable!(),
        }
    }

    // The listpack of a packed hash with this value in the pair at an index, or with a pair more.
    fn bytes_with<B: BlockStore>(
        &self,
        store: &B,
        index: Option<usize>,
        field: &[u8],
        value: &[u8],
    ) -> Result<Vec<u8>, Memory>
        requires sound { IsFields (B.blocks store.now) self.now }
        requires packed { form_of self.now ≢ Form.Hashtable }
        requires index { IsIndex (listed_of (B.blocks store.now) self.now.body) field.now index }
        requires short { max (length field.now) (length value.now) ≤ 4096 }
        ensures pack { IfOk result (λ new. IsPairPack new.items) }
        ensures list { IfOk result (λ new. pairs new.items ≡ put_in (listed_of (B.blocks store.now) self.now.body) index field.now value.now) }
    {
        match &self.body {
            Body::Empty => pack_with(
                self.alloc,
                &pack_pairs::empty(self.alloc)?,
                index,
                field,
                value,
            ),
            Body::Pack(packed) => pack_with(
                self.alloc,
                store.bytes(packed.at),
                index,
                field,
                value,
            ),
            Body::Table(_) => unreachable!(),
        }
    }

    // Puts a listpack of the fields, with one more or another value, so many then, in the place of the old one. `Memory` leaves the hash
    // and all blocks.
    fn put_pack<B: BlockStore>(
        &mut self,
        store: &mut B,
        count: usize,
        index: Option<usize>,
        field: &[u8],
        value: &[u8],
    ) -> Result<(), Memory>
        requires sound { IsFields (B.blocks store.old) self.old }
        requires packed { form_of self.old ≢ Form.Hashtable }
        requires index { IsIndex (listed_of (B.blocks store.old) self.old.body) field.now index }
        requires count { count ≡ len (insert (fields (B.blocks store.old) self.old) field.now value.now) }
        requires few { count ≤ self.old.limits.hash_entries }
        requires short { max (length field.now) (length value.now) ≤ self.old.limits.hash_value }
        ensures set { OnOk result (IsChanged (B.blocks store.old) (B.blocks store.new) self.old self.new (insert (fields (B.blocks store.old) self.old) field.now value.now)) }
        ensures form { OnOk result (form_of self.new ≡ Form.Listpack) }
        ensures served { Served B.step store.old store.new }
        ensures err_fields { OnErr result (self.new ≡ self.old) }
        ensures err_blocks { OnErr result (B.blocks store.new ≡ B.blocks store.old) }
    {
        let bytes = self.bytes_with(store, index, field, value)?;
        let at = self.body.put_bytes(store, &bytes)?;
        self.body = Body::Pack(Packed { at, len: count });
        Ok(())
    }

    // A dictionary of the fields of a packed hash. `Memory` leaves all blocks.
    fn hash_all<B: BlockStore>(&self, store: &mut B) -> Result<Dict<BlockRef>, Memory>
        requires sound { IsFields (B.blocks store.old) self.now }
        requires packed { form_of self.now ≢ Form.Hashtable }
        ensures hashed { IfOk result (λ table. IsHashed (B.blocks store.old) (B.blocks store.new) (no_fields self.now.seed) table (fields (B.blocks store.old) self.now)) }
        ensures served { Served B.step store.old store.new }
        ensures err_blocks { OnErr result (B.blocks store.new ≡ B.blocks store.old) }
    {
        match &self.body {
            Body::Empty => Ok(Dict::new(self.alloc, self.seed)),
            Body::Pack(packed) => {
                let bytes = Vec::from_slice(self.alloc, store.bytes(packed.at))?;
                hash_pack(self.alloc, self.seed, store, &bytes, packed.len)
            }
            Body::Table(_) => unreachable!(),
        }
    }

    // Places the fields of a packed hash, with one more or another value, as blocks of their own. `Memory` leaves all blocks.
    fn place_table<B: BlockStore>(
        &self,
        store: &mut B,
        field: &[u8],
        value: &[u8],
    ) -> Result<Body, Memory>
        requires sound { IsFields (B.blocks store.old) self.now }
        requires packed { form_of self.now ≢ Form.Hashtable }
        ensures placed { IfOk result (λ body. IsPlacedBody (B.blocks store.old) (B.blocks store.new) self.now body (insert (fields (B.blocks store.old) self.now) field.now value.now)) }
        ensures form { IfOk result (λ body. form_of_body body ≡ Form.Hashtable) }
        ensures served { Served B.step store.old store.new }
        ensures err_blocks { OnErr result (B.blocks store.new ≡ B.blocks store.old) }
    {
        let mut table = self.hash_all(store)?;
        match set_field(store, &mut table, field, value) {
            Ok(_) => Ok(Body::Table(table)),
            Err(error) => {
                end_table(store, table);
                Err(error)
            }
        }
    }

    // Puts a dictionary of the fields, with one more or another value, in the place of the listpack. `Memory` leaves the hash and all
    // blocks.
    fn put_table<B: BlockStore>(
        &mut self,
        store: &mut B,
        field: &[u8],
        value: &[u8],
    ) -> Result<(), Memory>
        requires sound { IsFields (B.blocks store.old) self.old }
        requires packed { form_of self.old ≢ Form.Hashtable }
        ensures set { OnOk result (IsChanged (B.blocks store.old) (B.blocks store.new) self.old self.new (insert (fields (B.blocks store.old) self.old) field.now value.now)) }
        ensures form { OnOk result (form_of self.new ≡ Form.Hashtable) }
        ensures served { Served B.step store.old store.new }
        ensures err_fields { OnErr result (self.new ≡ self.old) }
        ensures err_blocks { OnErr result (B.blocks store.new ≡ B.blocks store.old) }
    {
        let body = self.place_table(store, field, value)?;
        mem::replace(&mut self.body, body).release(store);
        Ok(())
    }

    // Gives a field of a packed hash this value, in the form that the fields have then. `Memory` leaves the hash and all blocks.
    fn put_with<B: BlockStore>(
        &mut self,
        store: &mut B,
        index: Option<usize>,
        field: &[u8],
        value: &[u8],
    ) -> Result<(), Memory>
        requires sound { IsFields (B.blocks store.old) self.old }
        requires packed { form_of self.old ≢ Form.Hashtable }
        requires index { IsIndex (listed_of (B.blocks store.old) self.old.body) field.now index }
        ensures set { OnOk result (IsChanged (B.blocks store.old) (B.blocks store.new) self.old self.new (insert (fields (B.blocks store.old) self.old) field.now value.now)) }
        ensures form { OnOk result (IsRisen self.old.limits (form_of self.old) (insert (fields (B.blocks store.old) self.old) field.now value.now) (form_of self.new)) }
        ensures served { Served B.step store.old store.new }
        ensures err_fields { OnErr result (self.new ≡ self.old) }
        ensures err_blocks { OnErr result (B.blocks store.new ≡ B.blocks store.old) }
    {
        let count = self.len() + usize::from(index.is_none());
        match hash_form(&self.limits, count, field.len().max(value.len())) {
            Form::Listpack => self.put_pack(store, count, index, field, value),
            Form::Hashtable => self.put_table(store, field, value),
            _ => unreachable!(),
        }
    }

    /// Gives a field this value, and answers whether the field is new. The form is then the least one that the fields and values fit
    /// and that isn't below the old one. The block of a value that is overwritten in a dictionary is written over where the new one
    /// is just as long, and else given back, and so is that of a packed hash where its new listpack is just as long.
    ///
    /// `Memory` leaves the hash and all blocks.
    pub fn set<B: BlockStore>(
        &mut self,
        store: &mut B,
        field: &[u8],
        value: &[u8],
    ) -> Result<bool, Memory>
        requires { IsFields (B.blocks store.old) self.old }
        ensures there { IfOk result (λ new. new ≡ not (contains_key (fields (B.blocks store.old) self.old) field.now)) }
        ensures set { OnOk result (IsChanged (B.blocks store.old) (B.blocks store.new) self.old self.new (insert (fields (B.blocks store.old) self.old) field.now value.now)) }
        ensures form { OnOk result (IsRisen self.old.limits (form_of self.old) (insert (fields (B.blocks store.old) self.old) field.now value.now) (form_of self.new)) }
        ensures served { Served B.step store.old store.new }
        ensures err_fields { OnErr result (self.new ≡ self.old) }
        ensures err_blocks { OnErr result (B.blocks store.new ≡ B.blocks store.old) }
    {
        if let Body::Table(table) = &mut self.body {
            return set_field(store, table, field, value);
        }
        let index = self.index_of(store, field);
        self.put_with(store, index, field, value)?;
        Ok(index.is_none())
    }
}
