// Reading elements one behind the other. What reads them is inlined, so that a walk makes only those parts of an entry that it uses.

ghost use Rattle.std.specs.Prelude.{◌≡◌, ◌∷◌, ◌-◌, ◌<◌, ◌≤◌, ◌^◌, ◌↔◌, [], ℕ, ℤ, pos, List, IfSome, IfNone, IsTrue, FitsSigned, length, drop, slice_index_or};
ghost use Rattle.std.specs.Int.{w64};
ghost use Rattle.std.specs.Option.{ForSome, ForNone};
ghost use Rattle.int_text.specs.Decimal.{canonical, IsI64Text};
ghost use Rattle.listpack.specs.View.{bytes_of, list_of};
ghost use Rattle.listpack.specs.Element.{element_text};
ghost use Rattle.listpack.specs.Pack.{IsAt};
ghost use Rattle.stream_node.specs.Entry.{number};

use int_text::read_i64;
use listpack::{Element, Pack};

/// The elements of a listpack from one on.
#[derive(Clone, Copy, Debug)]
pub(crate) struct Rest<'a> {
    pack: Pack<'a>,
    // Where the first of them stands.
    at: Option<usize>,
    left: usize,
    ghost small: { left < 2 ^ 32 },
    ghost few: { left ≤ length (list_of pack) },
    ghost place: { ForSome at (λ o. IsAt (bytes_of pack) (length (list_of pack) - left) o) },
    ghost end: { ForNone at (left ≡ 0) },
}

// The number that an element is: a number, or its canonical text.
#[inline(always)]
fn number_of(element: &Element) -> Option<i64>
    ensures some { IfSome result (λ n. element_text element.now ≡ canonical n) }
    ensures fits { IfSome result (λ n. FitsSigned w64 n) }
    ensures none { IfNone result (¬ (IsI64Text (element_text element.now))) }
{
    match element {
        Element::Text(text) => read_i64(text),
        Element::Number(n) => Some(*n),
    }
}

impl<'a> Rest<'a> {
    ghost use Rattle.stream_node.specs.Rest.{rest_of};

    /// All elements.
    pub(crate) fn all(pack: &Pack<'a>) -> Rest<'a>
        ensures { rest_of result ≡ list_of pack.now }
    {
        Rest {
            pack: *pack,
            at: pack.first(),
            left: pack.len(),
        }
    }

    /// The last so many elements.
    pub(crate) fn last(pack: &Pack<'a>, count: usize) -> Rest<'a>
        requires { count ≤ length (list_of pack.now) }
        ensures { rest_of result ≡ drop (length (list_of pack.now) - count) (list_of pack.now) }
    {
        Rest {
            pack: *pack,
            at: pack.seek(pack.len() - count),
            left: count,
        }
    }

    /// How many elements are left.
    pub(crate) fn len(&self) -> usize
        ensures { result ≡ length (rest_of self.now) }
    {
        self.left
    }

    /// The first element, and those behind it.
    #[inline(always)]
    pub(crate) fn split_first(&self) -> Option<(Element<'a>, Rest<'a>)>
        ensures some { IfSome result (λ x. rest_of self.now ≡ element_text x.0 ∷ rest_of x.1) }
        ensures none { IfNone result (rest_of self.now ≡ []) }
    {
        match self.at {
            Some(at) => {
                let (element, next) = self.pack.step(at);
                let behind = Rest {
                    pack: self.pack,
                    at: next,
                    left: self.left - 1,
                };
                Some((element, behind))
            }
            None => None,
        }
    }

    // The elements behind the first one.
    #[inline(always)]
    fn behind_first(&self) -> Option<Rest<'a>>
        ensures some { IfSome result (λ x. (text : List ℕ) × (rest_of self.now ≡ text ∷ rest_of x)) }
        ensures none { IfNone result (rest_of self.now ≡ []) }
    {
        match self.at {
            Some(at) => Some(Rest {
                pack: self.pack,
                at: self.pack.next(at),
                left: self.left - 1,
            }),
            None => None,
        }
    }

    /// The number that is due first, and the elements behind it.
    #[inline(always)]
    pub(crate) fn split_number(&self) -> Option<(i64, Rest<'a>)>
        ensures some { IfSome result (λ x. rest_of self.now ≡ canonical x.0 ∷ rest_of x.1) }
        ensures fits { IfSome result (λ x. FitsSigned w64 x.0) }
        ensures none { IfNone result ((n : ℤ) (more : List (List ℕ)) → FitsSigned w64 n → rest_of self.now ≡ canonical n ∷ more → ⊥) }
    {
        let (element, behind) = self.split_first()?;
        let number = number_of(&element)?;
        Some((number, behind))
    }

    /// The number from 0 on that is due first, and the elements behind it.
    #[inline(always)]
    pub(crate) fn split_count(&self) -> Option<(usize, Rest<'a>)>
        ensures some { IfSome result (λ x. rest_of self.now ≡ number x.0 ∷ rest_of x.1) }
        ensures small { IfSome result (λ x. x.0 < 2 ^ 63) }
        ensures none { IfNone result ((n : ℕ) (more : List (List ℕ)) → n < 2 ^ 63 → rest_of self.now ≡ number n ∷ more → ⊥) }
    {
        let (number, behind) = self.split_number()?;
        if number < 0 {
            return None;
        }
        Some((number as usize, behind))
    }

    /// The elements behind this number, which is due first.
    #[inline(always)]
    pub(crate) fn skip_number(&self, due: usize) -> Option<Rest<'a>>
        requires { due < 2 ^ 63 }
        ensures some { IfSome result (λ x. rest_of self.now ≡ number due ∷ rest_of x) }
        ensures none { IfNone result ((more : List (List ℕ)) → rest_of self.now ≡ number due ∷ more → ⊥) }
    {
        let (count, behind) = self.split_count()?;
        if count == due { Some(behind) } else { None }
    }

    /// The elements behind so many.
    #[inline(always)]
    pub(crate) fn skip(&self, count: usize) -> Option<Rest<'a>>
        ensures some { IfSome result (λ x. rest_of x ≡ drop count (rest_of self.now)) }
        ensures enough { IfSome result (λ _. count ≤ length (rest_of self.now)) }
        ensures none { IfNone result (length (rest_of self.now) < count) }
    {
        if count > self.left {
            return None;
        }
        let mut rest = *self;
        for _ in 0..count {
            rest = rest.behind_first()?;
        }
        Some(rest)
    }

    /// The element behind so many.
    pub(crate) fn element(&self, index: usize) -> Element<'a>
        requires { index < length (rest_of self.now) }
        ensures { element_text result ≡ slice_index_or (rest_of self.now) index [] }
    {
        match self.skip(index) {
            Some(rest) => rest.first(),
            None => unreachable!(),
        }
    }

    // The first element.
    fn first(&self) -> Element<'a>
        requires { 0 < length (rest_of self.now) }
        ensures { element_text result ≡ slice_index_or (rest_of self.now) 0 [] }
    {
        match self.split_first() {
            Some((element, _)) => element,
            None => unreachable!(),
        }
    }
}
