// Members that are put in.

ghost use Rattle.std.specs.Prelude.{◌≡◌, ◌≢◌, [], not, true, false, IfOk, OnOk, OnErr, Ok};
ghost use Rattle.std.specs.FinMap.{insert};
ghost use Rattle.blocks.specs.Blocks.{Changes, Owned, Served};
ghost use Rattle.object_codec.specs.declared.form.Form.{Form};
ghost use Rattle.int_text.specs.Decimal.{canonical};
ghost use Rattle.object_codec.specs.Limits.{AreInRange};
ghost use Rattle.set_object.specs.Strings.{has, set_of, IsRisen};
ghost use Rattle.set_object.specs.Members.{IsMembers, IsChanged, IsNumbers, IsPackOf, IsNumberList, IsPlacedBody, members, number_texts, form_of, form_of_body, listed, refs, refs_of};

use crate::Members;
use crate::hashed::{hash_member, hash_pack};
use crate::members::{Body, Packed};
use crate::packs::{is_number, longest_number, pack_numbers};
use blocks::{BlockStore, Memory, put_block};
use collection_walk::end_table;
use int_text::read_i64;
use object_codec::{Form, Limits, set_form};
use std::mem;

// The form of so many numbers, those of an intset, with another member. Only where they leave the intset the longest text is looked
// for.
fn form_of_numbers(limits: &Limits, bytes: &[u8], len: usize, member: &[u8]) -> Form
    requires range { AreInRange limits.now }
    requires numbers { IsNumbers limits.now len bytes.now }
    requires absent { has (set_of (number_texts bytes.now)) member.now ≡ false }
    ensures { IsRisen limits.now Form.Intset (insert (set_of (number_texts bytes.now)) member.now tt) result }
{
    let number = is_number(member);
    if number && len < limits.set_intset as usize {
        return Form::Intset;
    }
    let most = longest_number(bytes).max(member.len());
    set_form(limits, number, len + 1, most)
}

impl Body {
    // Gives back all blocks.
    pub(crate) fn release<B: BlockStore>(self, store: &mut B)
        requires { Owned (refs_of self) (B.blocks store.old) }
        ensures changes { Changes (B.blocks store.old) (B.blocks store.new) (refs_of self) [] }
        ensures served { Served B.step store.old store.new }
    {
        match self {
            Body::Empty => {}
            Body::Numbers(packed) => store.give_back(packed.at),
            Body::Pack(packed) => store.give_back(packed.at),
            Body::Table(table) => end_table(store, table),
        }
    }
}

impl Members {
    /// Gives back all blocks of the set.
    pub fn release<B: BlockStore>(self, store: &mut B)
        requires { Owned (refs self) (B.blocks store.old) }
        ensures changes { Changes (B.blocks store.old) (B.blocks store.new) (refs self) [] }
        ensures served { Served B.step store.old store.new }
    {
        self.body.release(store);
    }

    // The form that the set has with another member.
    fn form_with<B: BlockStore>(&self, store: &B, member: &[u8]) -> Form
        requires sound { IsMembers (B.blocks store.now) self.now }
        requires absent { has (members (B.blocks store.now) self.now) member.now ≡ false }
        ensures { IsRisen self.now.limits (form_of self.now) (insert (members (B.blocks store.now) self.now) member.now tt) result }
    {
        match &self.body {
            Body::Empty => set_form(&self.limits, is_number(member), 1, member.len()),
            Body::Numbers(packed) => form_of_numbers(
                &self.limits,
                store.bytes(packed.at),
                packed.len,
                member,
            ),
            Body::Pack(packed) => set_form(&self.limits, false, packed.len + 1, member.len()),
            Body::Table(_) => Form::Hashtable,
        }
    }

    // An intset of the members of a set of numbers.
    fn copy_numbers<B: BlockStore>(&self, store: &B) -> Result<Vec<u8>, Memory>
        requires sound { IsMembers (B.blocks store.now) self.now }
        requires numbers { form_of self.now ≡ Form.Intset }
        ensures { IfOk result (λ set. IsNumberList (listed (B.blocks store.now) self.now) set.items) }
    {
        match &self.body {
            Body::Numbers(packed) => Vec::from_slice(self.alloc, store.bytes(packed.at)),
            _ => intset::empty(self.alloc),
        }
    }

    // A listpack of the members of a packed set.
    fn copy_pack<B: BlockStore>(&self, store: &B) -> Result<Vec<u8>, Memory>
        requires sound { IsMembers (B.blocks store.now) self.now }
        requires packed { form_of self.now ≢ Form.Hashtable }
        ensures { IfOk result (λ pack. IsPackOf (listed (B.blocks store.now) self.now) pack.items) }
    {
        match &self.body {
            Body::Empty => listpack::empty(self.alloc),
            Body::Numbers(packed) => pack_numbers(self.alloc, store.bytes(packed.at)),
            Body::Pack(packed) => Vec::from_slice(self.alloc, store.bytes(packed.at)),
            Body::Table(_) => unreachable!(),
        }
    }

    // Places an intset of the members and one more number. `Memory` leaves all blocks.
    fn place_number<B: BlockStore>(&self, store: &mut B, n: i64) -> Result<Body, Memory>
        requires sound { IsMembers (B.blocks store.old) self.now }
        requires absent { has (members (B.blocks store.old) self.now) (canonical n) ≡ false }
        requires risen { IsRisen self.now.limits (form_of self.now) (insert (members (B.blocks store.old) self.now) (canonical n) tt) Form.Intset }
        ensures placed { IfOk result (λ body. IsPlacedBody (B.blocks store.old) (B.blocks store.new) self.now body (insert (members (B.blocks store.old) self.now) (canonical n) tt)) }
        ensures form { IfOk result (λ body. form_of_body body ≡ Form.Intset) }
        ensures served { Served B.step store.old store.new }
        ensures err_blocks { OnErr result (B.blocks store.new ≡ B.blocks store.old) }
    {
        let mut bytes = self.copy_numbers(store)?;
        intset::add(&mut bytes, n)?;
        let len = self.len() + 1;
        let at = put_block(store, &bytes)?;
        Ok(Body::Numbers(Packed { at, len }))
    }

    // The same of the text of a number.
    fn place_number_text<B: BlockStore>(&self, store: &mut B, member: &[u8]) -> Result<Body, Memory>
        requires sound { IsMembers (B.blocks store.old) self.now }
        requires absent { has (members (B.blocks store.old) self.now) member.now ≡ false }
        requires risen { IsRisen self.now.limits (form_of self.now) (insert (members (B.blocks store.old) self.now) member.now tt) Form.Intset }
        ensures placed { IfOk result (λ body. IsPlacedBody (B.blocks store.old) (B.blocks store.new) self.now body (insert (members (B.blocks store.old) self.now) member.now tt)) }
        ensures form { IfOk result (λ body. form_of_body body ≡ Form.Intset) }
        ensures served { Served B.step store.old store.new }
        ensures err_blocks { OnErr result (B.blocks store.new ≡ B.blocks store.old) }
    {
        match read_i64(member) {
            Some(n) => self.place_number(store, n),
            None => unreachable!(),
        }
    }

    // Places a listpack of the members and one more. `Memory` leaves all blocks.
    fn place_pack<B: BlockStore>(&self, store: &mut B, member: &[u8]) -> Result<Body, Memory>
        requires sound { IsMembers (B.blocks store.old) self.now }
        requires absent { has (members (B.blocks store.old) self.now) member.now ≡ false }
        requires risen { IsRisen self.now.limits (form_of self.now) (insert (members (B.blocks store.old) self.now) member.now tt) Form.Listpack }
        ensures placed { IfOk result (λ body. IsPlacedBody (B.blocks store.old) (B.blocks store.new) self.now body (insert (members (B.blocks store.old) self.now) member.now tt)) }
        ensures form { IfOk result (λ body. form_of_body body ≡ Form.Listpack) }
        ensures served { Served B.step store.old store.new }
        ensures err_blocks { OnErr result (B.blocks store.new ≡ B.blocks store.old) }
    {
        let mut bytes = self.copy_pack(store)?;
        listpack::append(&mut bytes, member)?;
        let len = self.len() + 1;
        let at = put_block(store, &bytes)?;
        Ok(Body::Pack(Packed { at, len }))
    }

    // Places the members of a packed set and one more as blocks of their own. `Memory` leaves all blocks.
    fn place_table<B: BlockStore>(&self, store: &mut B, member: &[u8]) -> Result<Body, Memory>
        requires sound { IsMembers (B.blocks store.old) self.now }
        requires absent { has (members (B.blocks store.old) self.now) member.now ≡ false }
        requires packed { form_of self.now ≢ Form.Hashtable }
        ensures placed { IfOk result (λ body. IsPlacedBody (B.blocks store.old) (B.blocks store.new) self.now body (insert (members (B.blocks store.old) self.now) member.now tt)) }
        ensures form { IfOk result (λ body. form_of_body body ≡ Form.Hashtable) }
        ensures served { Served B.step store.old store.new }
        ensures err_blocks { OnErr result (B.blocks store.new ≡ B.blocks store.old) }
    {
        let bytes = self.copy_pack(store)?;
        let mut table = hash_pack(self.alloc, self.seed, store, &bytes)?;
        match hash_member(store, &mut table, member) {
            Ok(()) => Ok(Body::Table(table)),
            Err(error) => {
                end_table(store, table);
                Err(error)
            }
        }
    }

    // Places the members of a packed set and one more in the form that they have then. `Memory` leaves all blocks.
    fn place_with<B: BlockStore>(&self, store: &mut B, member: &[u8]) -> Result<Body, Memory>
        requires sound { IsMembers (B.blocks store.old) self.now }
        requires absent { has (members (B.blocks store.old) self.now) member.now ≡ false }
        requires packed { form_of self.now ≢ Form.Hashtable }
        ensures placed { IfOk result (λ body. IsPlacedBody (B.blocks store.old) (B.blocks store.new) self.now body (insert (members (B.blocks store.old) self.now) member.now tt)) }
        ensures form { IfOk result (λ body. IsRisen self.now.limits (form_of self.now) (insert (members (B.blocks store.old) self.now) member.now tt) (form_of_body body)) }
        ensures served { Served B.step store.old store.new }
        ensures err_blocks { OnErr result (B.blocks store.new ≡ B.blocks store.old) }
    {
        match self.form_with(store, member) {
            Form::Intset => self.place_number_text(store, member),
            Form::Listpack => self.place_pack(store, member),
            Form::Hashtable => self.place_table(store, member),
            _ => unreachable!(),
        }
    }

    /// Puts a member in, and answers whether it is new. After a new member the form is the least one that the members fit and that
    /// isn't below the old one.
    ///
    /// `Memory` leaves the set and all blocks.
    pub fn add<B: BlockStore>(&mut self, store: &mut B, member: &[u8]) -> Result<bool, Memory>
        requires { IsMembers (B.blocks store.old) self.old }
        ensures there { IfOk result (λ new. new ≡ not (has (members (B.blocks store.old) self.old) member.now)) }
        ensures added { result ≡ Ok true → IsChanged (B.blocks store.old) (B.blocks store.new) self.old self.new (insert (members (B.blocks store.old) self.old) member.now tt) }
        ensures form { result ≡ Ok true → IsRisen self.old.limits (form_of self.old) (insert (members (B.blocks store.old) self.old) member.now tt) (form_of self.new) }
        ensures served { Served B.step store.old store.new }

        // Nothing changes where the member was there, nor for want of memory.
        ensures same_set { result ≢ Ok true → self.new ≡ self.old }
        ensures same_blocks { result ≢ Ok true → B.blocks store.new ≡ B.blocks store.old }
    {
        if self.has(store, member) {
            return Ok(false);
        }
        if let Body::Table(table) = &mut self.body {
            hash_member(store, table, member)?;
            return Ok(true);
        }
        let body = self.place_with(store, member)?;
        mem::replace(&mut self.body, body).release(store);
        Ok(true)
    }
}
