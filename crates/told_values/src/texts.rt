//! Strings, and the texts of elements.

ghost use Rattle.std.specs.Prelude.{◌≡◌, ◌↔◌, IfOk, IsTrue};
ghost use Rattle.blocks.specs.Blocks.{Owned};
ghost use Rattle.listpack.specs.Element.{element_text};
ghost use Rattle.string_object.specs.Text.{text_bytes, text_refs};

use blocks::{BlockStore, Memory};
use itoa::Buffer;
use listpack::Element;
use pack_pairs::text;
use std::alloc::Global;
use string_object::Text;

/// The text of an element, in bytes of its own.
pub(crate) fn owned(alloc: Global, element: Element<'_>) -> Result<Vec<u8>, Memory>
    ensures { IfOk result (λ bytes. bytes.items ≡ element_text element.entry) }
{
    let mut room = Buffer::new();
    Vec::from_slice(alloc, text(element, &mut room))
}

/// The bytes of a string.
pub(crate) fn read_text<B: BlockStore>(
    alloc: Global,
    store: &B,
    text: &Text,
) -> Result<Vec<u8>, Memory>
    requires { Owned (text_refs text.now) (B.blocks store.now) }
    ensures { IfOk result (λ bytes. bytes.items ≡ text_bytes (B.blocks store.now) text.now) }
{
    let mut room = [0; 20];
    Vec::from_slice(alloc, text.bytes(store, &mut room))
}

/// Whether both are the same bytes.
pub(crate) fn same_bytes(bytes: &Vec<u8>, other: &Vec<u8>) -> bool
    ensures { IsTrue result ↔ (bytes.now.items ≡ other.now.items) }
{
    bytes == other
}

/// The same of bytes that others own.
pub(crate) fn same_text(text: &[u8], other: &[u8]) -> bool
    ensures { IsTrue result ↔ (text.now ≡ other.now) }
{
    text == other
}
