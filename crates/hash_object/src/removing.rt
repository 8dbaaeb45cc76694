// Fields that are taken out.

ghost use Rattle.std.specs.Prelude.{◌≡◌, ◌≢◌, ◌<◌, true, false, is_some, length, IfOk, IfSome, IfNone, OnErr, Ok};
ghost use Rattle.std.specs.FinMap.{remove, contains_key};
ghost use Rattle.blocks.specs.Blocks.{Served};
ghost use Rattle.object_codec.specs.declared.form.Form.{Form};
ghost use Rattle.pack_pairs.specs.Pairs.{IsFirst};
ghost use Rattle.rehash_dict.specs.Tables.{IsSettled};
ghost use Rattle.hash_object.specs.declared.fields.Body.{Body};
ghost use Rattle.hash_object.specs.Fields.{IsFields, IsChanged, IsPlacedBody, fields, form_of, form_of_body, listed_of, tables};

use crate::Fields;
use crate::fields::{Body, Packed};
use crate::hashed::unhash_field;
use crate::packs::find_index;
use blocks::{BlockStore, Memory, put_block};
use std::mem;

impl Fields {
    // Places the pairs of a listpack without the one of a field, whose index is at hand. `Memory` leaves all blocks.
    fn place_fewer<B: BlockStore>(
        &self,
        store: &mut B,
        packed: Packed,
        index: usize,
        field: &[u8],
    ) -> Result<Body, Memory>
        requires sound { IsFields (B.blocks store.old) self.now }
        requires body { self.now.body ≡ Body.Pack packed }
        requires first { IsFirst field.now (listed_of (B.blocks store.old) self.now.body) index }
        ensures placed { IfOk result (λ body. IsPlacedBody (B.blocks store.old) (B.blocks store.new) self.now body (remove (fields (B.blocks store.old) self.now) field.now)) }
        ensures form { IfOk result (λ body. form_of_body body ≡ Form.Listpack) }
        ensures served { Served B.step store.old store.new }
        ensures err_blocks { OnErr result (B.blocks store.new ≡ B.blocks store.old) }
    {
        let _field = field;
        if packed.len == 1 {
            return Ok(Body::Empty);
        }
        let bytes = pack_pairs::without(self.alloc, store.bytes(packed.at), index)?;
        let at = put_block(store, &bytes)?;
        let len = packed.len - 1;
        Ok(Body::Pack(Packed { at, len }))
    }

    // Places the fields of a packed hash without one of them. `None` comes exactly where it isn't there, and `Memory` leaves all
    // blocks.
    fn place_without<B: BlockStore>(
        &self,
        store: &mut B,
        field: &[u8],
    ) -> Result<Option<Body>, Memory>
        requires sound { IsFields (B.blocks store.old) self.now }
        requires packed { form_of self.now ≢ Form.Hashtable }
        ensures there { IfOk result (λ left. is_some left ≡ contains_key (fields (B.blocks store.old) self.now) field.now) }
        ensures placed { IfOk result (λ left. IfSome left (λ body. IsPlacedBody (B.blocks store.old) (B.blocks store.new) self.now body (remove (fields (B.blocks store.old) self.now) field.now))) }
        ensures form { IfOk result (λ left. IfSome left (λ body. form_of_body body ≡ Form.Listpack)) }
        ensures served { Served B.step store.old store.new }
        ensures none_blocks { IfOk result (λ left. IfNone left (B.blocks store.new ≡ B.blocks store.old)) }
        ensures err_blocks { OnErr result (B.blocks store.new ≡ B.blocks store.old) }
    {
        let Body::Pack(packed) = self.body else {
            return Ok(None);
        };
        match find_index(store.bytes(packed.at), field) {
            Some(index) => match self.place_fewer(store, packed, index, field) {
                Ok(body) => Ok(Some(body)),
                Err(error) => Err(error),
            },
            None => Ok(None),
        }
    }

    /// Takes a field out, and answers whether it was there. The form stays.
    ///
    /// `Memory` leaves a packed hash and all blocks. A dictionary that finds no memory to shrink is left without the field.
    pub fn remove<B: BlockStore>(&mut self, store: &mut B, field: &[u8]) -> Result<bool, Memory>
        requires { IsFields (B.blocks store.old) self.old }
        ensures there { IfOk result (λ was. was ≡ contains_key (fields (B.blocks store.old) self.old) field.now) }
        ensures removed { result ≡ Ok true → IsChanged (B.blocks store.old) (B.blocks store.new) self.old self.new (remove (fields (B.blocks store.old) self.old) field.now) }
        ensures form { form_of self.new ≡ form_of self.old }
        ensures settled { result ≡ Ok true → IsSettled (tables (B.blocks store.new) self.new) }
        ensures served { Served B.step store.old store.new }

        // Nothing changes where the field wasn't there.
        ensures same_fields { result ≡ Ok false → self.new ≡ self.old }
        ensures same_blocks { result ≡ Ok false → B.blocks store.new ≡ B.blocks store.old }

        ensures err_fields { OnErr result (form_of self.old ≢ Form.Hashtable → self.new ≡ self.old) }
        ensures err_blocks { OnErr result (form_of self.old ≢ Form.Hashtable → B.blocks store.new ≡ B.blocks store.old) }
        ensures err_removed { OnErr result
            (form_of self.old ≡ Form.Hashtable → IsChanged (B.blocks store.old) (B.blocks store.new) self.old self.new (remove (fields (B.blocks store.old) self.old) field.now)) }
    {
        if let Body::Table(table) = &mut self.body {
            return unhash_field(store, table, field);
        }
        match self.place_without(store, field)? {
            Some(body) => {
                mem::replace(&mut self.body, body).release(store);
                Ok(true)
            }
            None => Ok(false),
        }
    }
}
