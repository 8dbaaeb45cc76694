//! Elements of packed forms.

ghost use Rattle.listpack.specs.Element.{element_text};
ghost use Rattle.rdb_parts.specs.Pens.{Writes};
ghost use Rattle.rdb_parts.specs.Words.{string_word};

use itoa::Buffer;
use listpack::Element;
use outside::{HostFault, Shelf};
use pack_pairs::text;
use rdb_parts::{Pen, write_string};

/// Writes an element as a string.
pub(crate) fn write_element<F: Shelf>(
    shelf: &mut F,
    pen: &mut Pen,
    element: Element<'_>,
) -> Result<(), HostFault>
    ensures { Writes (F.seen shelf.old) (F.seen shelf.new) pen.old pen.new (string_word (element_text element.entry)) result }
{
    let mut room = Buffer::new();
    write_string(shelf, pen, text(element, &mut room))
}
