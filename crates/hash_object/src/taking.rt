// Packed hashes that are made of a whole listpack.

ghost use Rattle.std.specs.Prelude.{◌≡◌, ◌++◌, ◌∷◌, [], ℕ, suc, ◌+◌, ◌*◌, ◌<◌, ◌≤◌, ◌↔◌, true, false, max, length, None, Ok, IsTrue, IfSome, IfNone, IfOk, OnErr};
ghost use Rattle.std.specs.FinMap.{empty};
ghost use Rattle.blocks.specs.Blocks.{Blocks, Served};
ghost use Rattle.listpack.specs.Element.{element_text};
ghost use Rattle.listpack.specs.Pack.{IsAt};
ghost use Rattle.listpack.specs.View.{bytes_of, list_of};
ghost use Rattle.object_codec.specs.Limits.{AreInRange};
ghost use Rattle.object_codec.specs.Forms.{IsLeast};
ghost use Rattle.object_codec.specs.declared.form.Form.{Form};
ghost use Rattle.pack_pairs.specs.Pairs.{IsPairPack, pairs, paired, second_of, map_of_pairs};
ghost use Rattle.hash_object.specs.Maps.{FitsFields};
ghost use Rattle.hash_object.specs.Fields.{IsFields, IsFieldPack, IsChanged, ArePackable, CanTake, IsPlacedWhole, fields, form_of, listed};

use crate::Fields;
use crate::fields::{Body, Packed};
use blocks::{BlockStore, Memory, put_block};
use itoa::Buffer;
use listpack::{Element, Pack};
use object_codec::{Form, Limits};
use pack_pairs::{are_once, find, longest_len, put_pair, text};
use std::alloc::Global;
use std::mem;

// The offset of the element behind the one at an offset, which isn't the last one.
fn behind(pack: &Pack<'_>, at: usize) -> usize
    requires { (i : ℕ) × IsAt (bytes_of pack.now) i at × (suc i < length (list_of pack.now)) }
    ensures { (i : ℕ) → IsAt (bytes_of pack.now) i at → IsAt (bytes_of pack.now) (i + 1) result }
{
    match pack.next(at) {
        Some(next) => next,
        None => unreachable!(),
    }
}

// Whether a pair may follow others: its texts are short enough, and none of those has its field.
fn may_follow(most: usize, pack: &[u8], field: &[u8], value: &[u8]) -> bool
    requires { IsPairPack pack.now }
    ensures { IsTrue result ↔ ((max (length field.now) (length value.now) ≤ most) × (second_of field.now (pairs pack.now) ≡ None)) }
{
    if field.len().max(value.len()) > most {
        return false;
    }
    match find(pack, field) {
        Some(_) => false,
        None => true,
    }
}

// The listpack with two elements more, behind so many pairs. `None` comes exactly where a text is too long or the field is there.
fn put_elements(
    limits: &Limits,
    pack: Vec<u8>,
    count: usize,
    field: Element<'_>,
    value: Element<'_>,
) -> Result<Option<Vec<u8>>, Memory>
    requires range { AreInRange limits.now }
    requires pack { IsFieldPack limits.now count pack.items }
    requires few { count < limits.now.hash_entries }
    ensures pack { IfOk result (λ made. IfSome made (λ new. IsFieldPack limits.now (count + 1) new.items)) }
    ensures list { IfOk result (λ made. IfSome made (λ new. pairs new.items ≡ pairs pack.items ++ (element_text field.entry, element_text value.entry) ∷ [])) }
    ensures none { IfOk result
        (λ made. IfNone made
        (second_of (element_text field.entry) (pairs pack.items) ≡ None → max (length (element_text field.entry)) (length (element_text value.entry)) ≤ limits.now.hash_value → ⊥)) }
{
    let (mut field_room, mut value_room) = (Buffer::new(), Buffer::new());
    let first = text(field, &mut field_room);
    let second = text(value, &mut value_room);
    if !may_follow(limits.hash_value as usize, &pack, first, second) {
        return Ok(None);
    }
    match put_pair(pack, count, first, second) {
        Ok(new) => Ok(Some(new)),
        Err(error) => Err(error),
    }
}

// The listpack of a packed hash of these elements, twice as many as its fields. `None` comes exactly where they may not be that.
fn repacked(
    alloc: Global,
    limits: &Limits,
    pack: &Pack<'_>,
    count: usize,
) -> Result<Option<Vec<u8>>, Memory>
    requires range { AreInRange limits.now }
    requires count { length (list_of pack.now) ≡ 2 * count }
    requires few { count ≤ limits.now.hash_entries }
    ensures pack { IfOk result (λ made. IfSome made (λ new. IsFieldPack limits.now count new.items)) }
    ensures list { IfOk result (λ made. IfSome made (λ new. pairs new.items ≡ paired (list_of pack.now))) }
    ensures none { IfOk result (λ made. IfNone made (ArePackable limits.now (list_of pack.now) → ⊥)) }
{
    let mut new = pack_pairs::empty(alloc)?;
    new.reserve(pack.bytes().len())?;
    let mut next = pack.first();
    for index in 0..count {
        match next {
            Some(first) => {
                let second = behind(pack, first);
                match put_elements(limits, new, index, pack.get(first), pack.get(second))? {
                    Some(more) => new = more,
                    None => return Ok(None),
                }
                next = pack.next(second);
            }
            None => unreachable!(),
        }
    }
    Ok(Some(new))
}

// Whether a listpack of so many pairs is, as it stands, that of a packed hash: spelled as the writer spells it, with short texts, and no
// field twice.
fn is_field_pack(
    alloc: Global,
    limits: &Limits,
    pack: &Pack<'_>,
    count: usize,
) -> Result<bool, Memory>
    requires count { length (list_of pack.now) ≡ 2 * count }
    requires few { count ≤ limits.now.hash_entries }
    ensures { IfOk result (λ stands. IsTrue stands ↔ IsFieldPack limits.now count (bytes_of pack.now)) }
{
    if !pack.is_written() {
        return Ok(false);
    }
    let bytes = pack.bytes();
    let longest = longest_len(bytes);
    let most = limits.hash_value as usize;
    if longest > most {
        return Ok(false);
    }
    are_once(alloc, bytes)
}

impl Fields {
    // Whether the hash is packed and has no field.
    fn is_fresh(&self) -> bool
        ensures { (m : Blocks) → IsFields m self.now → IsTrue result ↔ ((form_of self.now ≡ Form.Listpack) × (fields m self.now ≡ empty)) }
    {
        match self.form() {
            Form::Listpack => self.len() == 0,
            _ => false,
        }
    }

    // Places a listpack, that of a packed hash of so many pairs, as it stands.
    fn place_standing<B: BlockStore>(
        &self,
        store: &mut B,
        pack: &Pack<'_>,
        count: usize,
    ) -> Result<Body, Memory>
        requires count { length (list_of pack.now) ≡ 2 * count }
        requires pack { IsFieldPack self.now.limits count (bytes_of pack.now) }
        ensures placed { IfOk result (λ body. IsPlacedWhole (B.blocks store.old) (B.blocks store.new) self.now (list_of pack.now) body) }
        ensures served { Served B.step store.old store.new }
        ensures err_blocks { OnErr result (B.blocks store.new ≡ B.blocks store.old) }
    {
        let at = put_block(store, pack.bytes())?;
        Ok(Body::Pack(Packed { at, len: count }))
    }

    // Places a new listpack of these elements, twice as many as the pairs, each spelled anew. `None` comes exactly where they may not be
    // the pairs of a packed hash, and leaves all blocks, as `Memory` does.
    fn place_anew<B: BlockStore>(
        &self,
        store: &mut B,
        pack: &Pack<'_>,
        count: usize,
    ) -> Result<Option<Body>, Memory>
        requires range { AreInRange self.now.limits }
        requires count { length (list_of pack.now) ≡ 2 * count }
        requires few { count ≤ self.now.limits.hash_entries }
        ensures placed { IfOk result (λ made. IfSome made (λ body. IsPlacedWhole (B.blocks store.old) (B.blocks store.new) self.now (list_of pack.now) body)) }
        ensures none { IfOk result (λ made. IfNone made (ArePackable self.now.limits (list_of pack.now) → ⊥)) }
        ensures served { Served B.step store.old store.new }
        ensures none_blocks { IfOk result (λ made. IfNone made (B.blocks store.new ≡ B.blocks store.old)) }
        ensures err_blocks { OnErr result (B.blocks store.new ≡ B.blocks store.old) }
    {
        match repacked(self.alloc, &self.limits, pack, count)? {
            Some(bytes) => {
                let at = put_block(store, &bytes)?;
                Ok(Some(Body::Pack(Packed { at, len: count })))
            }
            None => Ok(None),
        }
    }

    // Places a listpack of these elements as the pairs of a packed hash: as it stands where it is one, and else a new one. `None` comes
    // exactly where they may not be that, and leaves all blocks, as `Memory` does.
    fn place_whole<B: BlockStore>(
        &self,
        store: &mut B,
        pack: &Pack<'_>,
    ) -> Result<Option<Body>, Memory>
        requires { AreInRange self.now.limits }
        ensures placed { IfOk result (λ made. IfSome made (λ body. IsPlacedWhole (B.blocks store.old) (B.blocks store.new) self.now (list_of pack.now) body)) }
        ensures none { IfOk result (λ made. IfNone made (ArePackable self.now.limits (list_of pack.now) → ⊥)) }
        ensures served { Served B.step store.old store.new }
        ensures none_blocks { IfOk result (λ made. IfNone made (B.blocks store.new ≡ B.blocks store.old)) }
        ensures err_blocks { OnErr result (B.blocks store.new ≡ B.blocks store.old) }
    {
        let elements = pack.len();
        let count = elements / 2;
        if elements % 2 == 1 {
            return Ok(None);
        }
        if count > self.limits.hash_entries as usize {
            return Ok(None);
        }
        let stands = is_field_pack(self.alloc, &self.limits, pack, count)?;
        if stands {
            let body = self.place_standing(store, pack, count)?;
            return Ok(Some(body));
        }
        self.place_anew(store, pack, count)
    }

    /// Takes the elements of a listpack as fields and values, and answers whether it did: exactly where the hash is packed and has no
    /// field, they come in twos, the limits of a packed hash allow them, and no field stands twice. The fields keep their order.
    /// A listpack that is spelled as the writer spells it becomes that of the hash as it stands, and else each text is spelled anew.
    ///
    /// Where it did not, and on `Memory`, the hash and all blocks stay.
    pub fn take_pack<B: BlockStore>(
        &mut self,
        store: &mut B,
        pack: &Pack<'_>,
    ) -> Result<bool, Memory>
        requires { IsFields (B.blocks store.old) self.old }
        ensures taken { IfOk result (λ taken. IsTrue taken ↔ CanTake (B.blocks store.old) self.old (list_of pack.now)) }
        ensures set { result ≡ Ok true → IsChanged (B.blocks store.old) (B.blocks store.new) self.old self.new (map_of_pairs (paired (list_of pack.now))) }
        ensures order { result ≡ Ok true → listed (B.blocks store.new) self.new ≡ paired (list_of pack.now) }
        ensures form { result ≡ Ok true → IsLeast (FitsFields self.old.limits (fields (B.blocks store.new) self.new)) (form_of self.new) }
        ensures served { Served B.step store.old store.new }

        // Nothing changes where it was not taken.
        ensures same_fields { result ≡ Ok false → self.new ≡ self.old }
        ensures same_blocks { result ≡ Ok false → B.blocks store.new ≡ B.blocks store.old }

        ensures err_fields { OnErr result (self.new ≡ self.old) }
        ensures err_blocks { OnErr result (B.blocks store.new ≡ B.blocks store.old) }
    {
        if !self.is_fresh() {
            return Ok(false);
        }
        match self.place_whole(store, pack)? {
            Some(body) => {
                mem::replace(&mut self.body, body).release(store);
                Ok(true)
            }
            None => Ok(false),
        }
    }
}
