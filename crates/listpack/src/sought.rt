// Elements compared with a text.

ghost use Rattle.std.specs.Prelude.{◌≡◌, ◌↔◌, IsTrue};
ghost use Rattle.std.specs.Option.{ForSome, ForNone};
ghost use Rattle.int_text.specs.Decimal.{canonical, IsI64Text};
ghost use Rattle.listpack.specs.Element.{element_text};

use crate::encoding::Element;
use int_text::read_i64;

/// A text that is looked for among elements. It is read once as a number, so that no number has to be printed.
#[derive(Clone, Copy, Debug)]
pub struct Sought<'a> {
    text: &'a [u8],
    number: Option<i64>,
    ghost read: { ForSome number (λ n. text.now ≡ canonical n) },
    ghost none: { ForNone number (¬ (IsI64Text text.now)) },
}

impl<'a> Sought<'a> {
    ghost use Rattle.listpack.specs.View.{sought_text};

    /// This text.
    pub fn of(text: &'a [u8]) -> Sought<'a>
        ensures { sought_text result ≡ text.now }
    {
        Sought {
            text,
            number: read_i64(text),
        }
    }

    /// Whether it is the text of an element.
    #[inline(always)]
    pub fn is_text_of(&self, element: Element<'_>) -> bool
        ensures { IsTrue result ↔ (element_text element.entry ≡ sought_text self.now) }
    {
        match element {
            Element::Text(part) => part == self.text,
            Element::Number(n) => match self.number {
                Some(number) => number == n,
                None => false,
            },
        }
    }
}
