// Lists that take a listpack whole, as one node.

ghost use Rattle.std.specs.Prelude.{◌≡◌, ◌∷◌, ◌++◌, ◌<◌, [], true, false, length, map, Ok, IfOk, IfSome, IfNone, OnErr};
ghost use Rattle.blocks.specs.Blocks.{Served};
ghost use Rattle.listpack.specs.Element.{element_text};
ghost use Rattle.listpack.specs.Pack.{texts};
ghost use Rattle.listpack.specs.View.{bytes_of, list_of};
ghost use Rattle.quicklist.specs.Nodes.{IsPacked, container_of};
ghost use Rattle.quicklist.specs.Chain.{elements, IsFormed, IsQuick, IsRisen, IsWritten};
ghost use Rattle.quicklist.specs.declared.node.Container.TheVariants.{Packed};

use crate::clearing::append_text;
use crate::locate::there;
use crate::node::Container;
use crate::piece::{PACKED_BYTES, Piece};
use crate::quick::Quick;
use blocks::{BlockStore, Memory};
use itoa::Buffer;
use listpack::{Element, Pack, entry_size};
use object_codec::Form;
use std::alloc::Global;

// Puts an element of this text behind those of a packed node, and answers whether it has room there.
fn append_fitting(pack: &mut Vec<u8>, text: &[u8]) -> Result<bool, Memory>
    requires packed { IsPacked pack.old.items }
    ensures packed { result ≡ Ok true → IsPacked pack.new.items }
    ensures list { result ≡ Ok true → texts pack.new.items ≡ texts pack.old.items ++ text.now ∷ [] }
{
    if text.len() > PACKED_BYTES {
        return Ok(false);
    }
    if pack.len() + entry_size(text) > PACKED_BYTES {
        return Ok(false);
    }
    append_text(pack, text)?;
    Ok(true)
}

// Puts an element behind those of a packed node, and answers whether it has room there.
fn append_whole(pack: &mut Vec<u8>, element: Element<'_>) -> Result<bool, Memory>
    requires packed { IsPacked pack.old.items }
    ensures packed { result ≡ Ok true → IsPacked pack.new.items }
    ensures list { result ≡ Ok true → texts pack.new.items ≡ texts pack.old.items ++ element_text element.entry ∷ [] }
{
    match element {
        Element::Text(part) => append_fitting(pack, part),
        Element::Number(n) => append_fitting(pack, Buffer::new().format(n).as_bytes()),
    }
}

// The bytes of a packed node of these elements, each spelled anew, or none where they are too many.
fn anew(alloc: Global, pack: &Pack<'_>, count: usize) -> Result<Option<Vec<u8>>, Memory>
    requires { count ≡ length (list_of pack.now) }
    ensures packed { IfOk result (λ made. IfSome made (λ v. IsPacked v.items)) }
    ensures list { IfOk result (λ made. IfSome made (λ v. texts v.items ≡ list_of pack.now)) }
{
    let mut new = listpack::empty(alloc)?;
    new.reserve(pack.bytes().len().min(PACKED_BYTES))?;
    let mut place = pack.first();
    for _ in 0..count {
        let at = there(place);
        if !append_whole(&mut new, pack.get(at))? {
            return Ok(None);
        }
        place = pack.next(at);
    }
    Ok(Some(new))
}

// The bytes of a listpack that is a packed node as it stands: short, and spelled as the writer spells its elements.
fn standing<'a>(pack: &Pack<'a>) -> Option<&'a [u8]>
    ensures packed { IfSome result (λ bytes. IsPacked bytes.now) }
    ensures list { IfSome result (λ bytes. texts bytes.now ≡ list_of pack.now) }
    ensures none { IfNone result (IsPacked (bytes_of pack.now) → ⊥) }
{
    let bytes = pack.bytes();
    let size = bytes.len();
    if size > PACKED_BYTES {
        return None;
    }
    if pack.is_written() { Some(bytes) } else { None }
}

impl Quick {
    // The form of the list with a node of these bytes behind the others. There is none where the elements belong into the one node of
    // a list of form listpack, since they have room there.
    fn form_with<B: BlockStore>(&self, store: &B, bytes: &[u8]) -> Option<Form>
        requires quick { IsQuick (B.blocks store.now) self.now }
        requires packed { IsPacked bytes.now }
        ensures risen { IfSome result (λ form. IsRisen self.now.form (elements (B.blocks store.now) self.now ++ texts bytes.now) form) }
        ensures formed { IfSome result (λ form. IsFormed form (map container_of self.now.nodes ++ Packed ∷ [])) }
    {
        if self.nodes.is_empty() {
            return Some(self.form);
        }
        match self.form {
            Form::Listpack => {
                let node = self.nodes[0];
                if node.bytes(store).len() + bytes.len() > PACKED_BYTES + 7 {
                    Some(Form::Quicklist)
                } else {
                    None
                }
            }
            _ => Some(Form::Quicklist),
        }
    }

    // Puts a packed node of these bytes behind the others, and answers whether its elements belong there.
    fn take_node<B: BlockStore>(
        &mut self,
        store: &mut B,
        bytes: &[u8],
        count: usize,
        len: usize,
    ) -> Result<bool, Memory>
        requires quick { IsQuick (B.blocks store.old) self.old }
        requires packed { IsPacked bytes.now }
        requires count { count ≡ length (texts bytes.now) }
        requires some { 0 < count }
        requires len { len ≡ length (elements (B.blocks store.old) self.old ++ texts bytes.now) }
        ensures taken { result ≡ Ok true → IsWritten (B.blocks store.old) (B.blocks store.new) self.old self.new (elements (B.blocks store.old) self.old ++ texts bytes.now) }
        ensures same_list { result ≡ Ok false → self.new ≡ self.old }
        ensures same_blocks { result ≡ Ok false → B.blocks store.new ≡ B.blocks store.old }
        ensures served { Served B.step store.old store.new }
        ensures err_list { OnErr result (self.new ≡ self.old) }
        ensures err_blocks { OnErr result (B.blocks store.new ≡ B.blocks store.old) }
    {
        match self.form_with(store, bytes) {
            Some(form) => {
                let piece = Piece {
                    container: Container::Packed,
                    count: count as u32,
                    bytes,
                };
                let k = self.nodes.len();
                self.exchange(store, k, 0, &[piece], len, form)?;
                Ok(true)
            }
            None => Ok(false),
        }
    }

    /// Puts the elements of a listpack behind those of the list, as one node, and answers whether it did. A listpack that is spelled as
    /// the writer spells it becomes the node as it stands, and else each text is spelled anew. It does not where there is no element, or
    /// more than one node or the list can hold, nor where all elements of the list have room in one node: then they belong in that node,
    /// and are to be put in one by one. So the form that the list has is the one that it has where they are put in one by one.
    ///
    /// Where it did not, and on `Memory`, the list and all blocks stay.
    pub fn take_pack<B: BlockStore>(
        &mut self,
        store: &mut B,
        pack: &Pack<'_>,
    ) -> Result<bool, Memory>
        requires quick { IsQuick (B.blocks store.old) self.old }
        ensures taken { result ≡ Ok true → IsWritten (B.blocks store.old) (B.blocks store.new) self.old self.new (elements (B.blocks store.old) self.old ++ list_of pack.now) }
        ensures same_list { result ≡ Ok false → self.new ≡ self.old }
        ensures same_blocks { result ≡ Ok false → B.blocks store.new ≡ B.blocks store.old }
        ensures served { Served B.step store.old store.new }
        ensures err_list { OnErr result (self.new ≡ self.old) }
        ensures err_blocks { OnErr result (B.blocks store.new ≡ B.blocks store.old) }
    {
        let count = pack.len();
        if count == 0 {
            return Ok(false);
        }
        let Some(len) = self.len.checked_add(count) else {
            return Ok(false);
        };
        if let Some(bytes) = standing(pack) {
            return self.take_node(store, bytes, count, len);
        }
        match anew(self.alloc, pack, count)? {
            Some(bytes) => self.take_node(store, &bytes, count, len),
            None => Ok(false),
        }
    }
}
