// Which elements of a list go.

ghost use Rattle.std.specs.Prelude.{◌≡◌, bytes_eq};
ghost use Rattle.listpack.specs.Element.{element_text};
ghost use Rattle.quicklist.specs.Equal.{goes};

use itoa::Buffer;
use listpack::Element;

/// An end of a list.
#[derive(Clone, Copy, Debug, PartialEq, Eq)]
pub enum End {
    /// Where its first element stands.
    Head,
    /// Where its last element stands.
    Tail,
}

/// The elements that are this text, from the index `from` to below `to`.
#[derive(Clone, Copy)]
pub(crate) struct Reach<'a> {
    pub(crate) text: &'a [u8],
    pub(crate) from: usize,
    pub(crate) to: usize,
}

/// Whether an element is this text. A number is spelled for it outside the heap.
pub fn is_text(element: Element<'_>, text: &[u8]) -> bool
    ensures { result ≡ bytes_eq (element_text element.entry) text.now }
{
    match element {
        Element::Text(part) => part == text,
        Element::Number(n) => Buffer::new().format(n).as_bytes() == text,
    }
}

impl Reach<'_> {
    /// Whether the element at this index is one of them.
    pub(crate) fn takes(self, index: usize, element: Element<'_>) -> bool
        ensures { result ≡ goes self.entry index (element_text element.entry) }
    {
        self.from <= index && index < self.to && is_text(element, self.text)
    }
}
