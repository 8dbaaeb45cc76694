// Fields and values that are to be written.

ghost use Rattle.std.specs.Prelude.{◌≡◌, ◌↔◌, ◌<◌, ◌++◌, ◌∷◌, [], IsTrue, IfOk, OnOk, OnErr, length};
ghost use Rattle.listpack.specs.Element.{element_text};
ghost use Rattle.stream_node.specs.Pairs.{pair_at};

use int_text::print;
use listpack::{Element, Memory};
use std::alloc::Global;
use std::marker::Model;

#[derive(Debug, Drop)]
struct OwnedPair {
    field: Vec<u8>,
    value: Vec<u8>,
}

// The text of an element, as bytes of their own.
fn owned_text(alloc: Global, element: &Element) -> Result<Vec<u8>, Memory>
    ensures { IfOk result (λ text. text.items ≡ element_text element.now) }
{
    match element {
        Element::Text(part) => Vec::from_slice(alloc, part),
        Element::Number(n) => {
            let mut text = Vec::new(alloc);
            print(*n, &mut text)?;
            Ok(text)
        }
    }
}

/// The fields and values of an entry, in order.
#[derive(Debug, Drop)]
pub struct Pairs {
    alloc: Global,
    pairs: Vec<OwnedPair>,
}

impl Model for Pairs {
    ghost use Rattle.std.specs.Prelude.{List, ℕ, map};

    ghost Value = { List (List ℕ × List ℕ) };

    ghost view = { λ a. map (λ p. (p.field.items, p.value.items)) a.pairs.items };
}

impl Pairs {
    /// No fields and values.
    pub fn new(alloc: Global) -> Pairs
        ensures { result ≡ [] }
    {
        Pairs {
            alloc,
            pairs: Vec::new(alloc),
        }
    }

    /// Puts a field and its value behind all others. `Memory` leaves all as before.
    pub fn push(&mut self, field: &[u8], value: &[u8]) -> Result<(), Memory>
        ensures ok { OnOk result (self.new ≡ self.old ++ (field.now, value.now) ∷ []) }
        ensures memory { OnErr result (self.new ≡ self.old) }
    {
        let field = Vec::from_slice(self.alloc, field)?;
        let value = Vec::from_slice(self.alloc, value)?;
        self.pairs.push(OwnedPair { field, value })?;
        Ok(())
    }

    /// Puts the texts of a field and its value behind all others. `Memory` leaves all as before.
    pub(crate) fn push_elements(&mut self, field: &Element, value: &Element) -> Result<(), Memory>
        ensures ok { OnOk result (self.new ≡ self.old ++ (element_text field.now, element_text value.now) ∷ []) }
        ensures memory { OnErr result (self.new ≡ self.old) }
    {
        let field = owned_text(self.alloc, field)?;
        let value = owned_text(self.alloc, value)?;
        self.pairs.push(OwnedPair { field, value })?;
        Ok(())
    }

    /// How many fields there are.
    pub fn len(&self) -> usize
        ensures { result ≡ length self.now }
    {
        self.pairs.len()
    }

    pub fn is_empty(&self) -> bool
        ensures { IsTrue result ↔ (length self.now ≡ 0) }
    {
        self.pairs.is_empty()
    }

    /// The field at an index.
    pub fn field(&self, index: usize) -> &[u8]
        requires { index < length self.now }
        ensures { result.now ≡ (pair_at self.now index).0 }
    {
        &self.pairs[index].field
    }

    /// The value at an index.
    pub fn value(&self, index: usize) -> &[u8]
        requires { index < length self.now }
        ensures { result.now ≡ (pair_at self.now index).1 }
    {
        &self.pairs[index].value
    }
}
