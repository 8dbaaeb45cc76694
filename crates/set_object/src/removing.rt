// Members that are taken out.

ghost use Rattle.std.specs.Prelude.{◌≡◌, ◌≢◌, true, false, is_some, IfOk, IfSome, IfNone, OnErr, Ok};
ghost use Rattle.std.specs.FinMap.{remove, len};
ghost use Rattle.blocks.specs.Blocks.{Served};
ghost use Rattle.object_codec.specs.declared.form.Form.{Form};
ghost use Rattle.rehash_dict.specs.Tables.{IsSettled};
ghost use Rattle.set_object.specs.Strings.{has};
ghost use Rattle.set_object.specs.Members.{IsMembers, IsChanged, IsPacked, AreBytesOf, IsPlacedBody, members, form_of, form_of_body, form_left, repacked, tables};

use crate::Members;
use crate::hashed::unhash_member;
use crate::members::{Body, Packed};
use crate::packs::{numbers_without, pack_without};
use blocks::{BlockStore, Memory, put_block};
use std::mem;

impl Body {
    // The packed form of the same kind in another block.
    fn packed_in(&self, packed: Packed) -> Body
        requires { IsPacked self.now }
        ensures { result ≡ repacked self.now packed }
    {
        match self {
            Body::Numbers(_) => Body::Numbers(packed),
            Body::Pack(_) => Body::Pack(packed),
            _ => unreachable!(),
        }
    }
}

impl Members {
    // The bytes of a packed set without a member. `None` comes exactly where it isn't there.
    fn bytes_without<B: BlockStore>(
        &self,
        store: &B,
        member: &[u8],
    ) -> Result<Option<Vec<u8>>, Memory>
        requires sound { IsMembers (B.blocks store.now) self.now }
        requires packed { form_of self.now ≢ Form.Hashtable }
        ensures there { IfOk result (λ left. is_some left ≡ has (members (B.blocks store.now) self.now) member.now) }
        ensures left { IfOk result (λ left. IfSome left (λ bytes. AreBytesOf self.now.body (remove (members (B.blocks store.now) self.now) member.now) bytes.items)) }
    {
        match &self.body {
            Body::Empty => Ok(None),
            Body::Numbers(packed) => numbers_without(self.alloc, store.bytes(packed.at), member),
            Body::Pack(packed) => pack_without(self.alloc, store.bytes(packed.at), member),
            Body::Table(_) => unreachable!(),
        }
    }

    // Places the bytes of a packed set without a member, where others are left. `Memory` leaves all blocks.
    fn place_left<B: BlockStore>(
        &self,
        store: &mut B,
        member: &[u8],
        bytes: &[u8],
    ) -> Result<Body, Memory>
        requires sound { IsMembers (B.blocks store.old) self.now }
        requires there { has (members (B.blocks store.old) self.now) member.now ≡ true }
        requires left { AreBytesOf self.now.body (remove (members (B.blocks store.old) self.now) member.now) bytes.now }
        ensures placed { IfOk result (λ body. IsPlacedBody (B.blocks store.old) (B.blocks store.new) self.now body (remove (members (B.blocks store.old) self.now) member.now)) }
        ensures form { IfOk result (λ body. form_of_body body ≡ form_of self.now) }
        ensures served { Served B.step store.old store.new }
        ensures err_blocks { OnErr result (B.blocks store.new ≡ B.blocks store.old) }
    {
        let at = put_block(store, bytes)?;
        let len = self.len() - 1;
        Ok(self.body.packed_in(Packed { at, len }))
    }

    // What is left of a set of one member without another. `None` comes exactly where it isn't there.
    fn last_without<B: BlockStore>(&self, store: &B, member: &[u8]) -> Option<Body>
        requires sound { IsMembers (B.blocks store.now) self.now }
        requires packed { form_of self.now ≢ Form.Hashtable }
        requires last { len (members (B.blocks store.now) self.now) ≡ 1 }
        ensures there { is_some result ≡ has (members (B.blocks store.now) self.now) member.now }
        ensures placed { IfSome result (λ body. IsPlacedBody (B.blocks store.now) (B.blocks store.now) self.now body (remove (members (B.blocks store.now) self.now) member.now)) }
        ensures form { IfSome result (λ body. form_of_body body ≡ form_left (form_of self.now) (len (remove (members (B.blocks store.now) self.now) member.now))) }
    {
        if self.has(store, member) {
            Some(Body::Empty)
        } else {
            None
        }
    }

    // Places the members of a packed set without one of them. `None` comes exactly where it isn't there, and `Memory` leaves all
    // blocks.
    fn place_without<B: BlockStore>(
        &self,
        store: &mut B,
        member: &[u8],
    ) -> Result<Option<Body>, Memory>
        requires sound { IsMembers (B.blocks store.old) self.now }
        requires packed { form_of self.now ≢ Form.Hashtable }
        ensures there { IfOk result (λ left. is_some left ≡ has (members (B.blocks store.old) self.now) member.now) }
        ensures placed { IfOk result (λ left. IfSome left (λ body. IsPlacedBody (B.blocks store.old) (B.blocks store.new) self.now body (remove (members (B.blocks store.old) self.now) member.now))) }
        ensures form { IfOk result (λ left. IfSome left (λ body. form_of_body body ≡ form_left (form_of self.now) (len (remove (members (B.blocks store.old) self.now) member.now)))) }
        ensures served { Served B.step store.old store.new }
        ensures none_blocks { IfOk result (λ left. IfNone left (B.blocks store.new ≡ B.blocks store.old)) }
        ensures err_blocks { OnErr result (B.blocks store.new ≡ B.blocks store.old) }
    {
        if self.len() == 1 {
            return Ok(self.last_without(store, member));
        }
        match self.bytes_without(store, member)? {
            Some(bytes) => match self.place_left(store, member, &bytes) {
                Ok(body) => Ok(Some(body)),
                Err(error) => Err(error),
            },
            None => Ok(None),
        }
    }

    /// Takes a member out, and answers whether it was there. The form stays, but a packed set without a member is as a new one.
    ///
    /// `Memory` leaves a packed set and all blocks. A dictionary that finds no memory to shrink is left without the member.
    pub fn remove<B: BlockStore>(&mut self, store: &mut B, member: &[u8]) -> Result<bool, Memory>
        requires { IsMembers (B.blocks store.old) self.old }
        ensures there { IfOk result (λ was. was ≡ has (members (B.blocks store.old) self.old) member.now) }
        ensures removed { result ≡ Ok true → IsChanged (B.blocks store.old) (B.blocks store.new) self.old self.new (remove (members (B.blocks store.old) self.old) member.now) }
        ensures form { result ≡ Ok true → form_of self.new ≡ form_left (form_of self.old) (len (remove (members (B.blocks store.old) self.old) member.now)) }
        ensures settled { result ≡ Ok true → IsSettled (tables (B.blocks store.new) self.new) }
        ensures served { Served B.step store.old store.new }

        // Nothing changes where the member wasn't there.
        ensures same_set { result ≡ Ok false → self.new ≡ self.old }
        ensures same_blocks { result ≡ Ok false → B.blocks store.new ≡ B.blocks store.old }

        ensures err_set { OnErr result (form_of self.old ≢ Form.Hashtable → self.new ≡ self.old) }
        ensures err_blocks { OnErr result (form_of self.old ≢ Form.Hashtable → B.blocks store.new ≡ B.blocks store.old) }
        ensures err_form { OnErr result (form_of self.new ≡ form_of self.old) }
        ensures err_removed { OnErr result
            (form_of self.old ≡ Form.Hashtable → IsChanged (B.blocks store.old) (B.blocks store.new) self.old self.new (remove (members (B.blocks store.old) self.old) member.now)) }
    {
        if let Body::Table(table) = &mut self.body {
            return unhash_member(store, table, member);
        }
        match self.place_without(store, member)? {
            Some(body) => {
                mem::replace(&mut self.body, body).release(store);
                Ok(true)
            }
            None => Ok(false),
        }
    }
}
