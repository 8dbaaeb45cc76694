//! Elements and counts as they are told in replies.

ghost use Rattle.std.specs.Prelude.{◌≡◌, [], ◌∷◌, pos, length, IfOk};
ghost use Rattle.int_text.specs.Decimal.{canonical};
ghost use Rattle.listpack.specs.Element.{element_text};
ghost use Rattle.plain_world.specs.declared.reply.Part.TheVariants as parts;

use itoa::Buffer;
use listpack::Element;
use plain_model::{Bytes, Memory, Reply};
use std::alloc::{AllocError, Global};

/// The decimal text of a whole number, on its own.
pub fn number_text(alloc: Global, n: i64) -> Result<Bytes, Memory>
    ensures { IfOk result (λ bytes. bytes ≡ canonical n) }
{
    Bytes::new(alloc, Buffer::new().format(n).as_bytes())
}

/// The bytes of an element, on their own.
pub fn bytes_of(alloc: Global, element: Element<'_>) -> Result<Bytes, Memory>
    ensures { IfOk result (λ bytes. bytes ≡ element_text element.entry) }
{
    match element {
        Element::Text(text) => Bytes::new(alloc, text),
        Element::Number(n) => number_text(alloc, n),
    }
}

/// How many bytes an element has.
pub fn length_of(element: Element<'_>) -> usize
    ensures { result ≡ length (element_text element.entry) }
{
    match element {
        Element::Text(text) => text.len(),
        Element::Number(n) => Buffer::new().format(n).as_bytes().len(),
    }
}

/// A count or an index as a number of a reply. One past 2^63 - 1 is want of memory.
pub fn reply_number(n: usize) -> Result<i64, Memory>
    ensures { IfOk result (λ number. number ≡ pos n) }
{
    match i64::try_from(n) {
        Ok(number) => Ok(number),
        Err(_) => Err(AllocError),
    }
}

/// A count as a reply.
pub fn count_reply(alloc: Global, n: usize) -> Result<Reply, Memory>
    ensures { IfOk result (λ reply. reply ≡ parts.Number (pos n) ∷ []) }
{
    Reply::number(alloc, reply_number(n)?)
}
