// Walks over a list in both directions.

ghost use Rattle.std.specs.Prelude.{◌≡◌, ◌<◌, ◌≤◌, ◌+◌, ◌-◌, ℕ, [], length, slice_index_or, MatchOption};
ghost use Rattle.listpack.specs.Element.{element_text};
ghost use Rattle.quicklist.specs.Nodes.{IsHeld, held};
ghost use Rattle.quicklist.specs.Chain.{elements, IsQuick};
ghost use Rattle.quicklist.specs.Cursor.{IsOffsetIn, IsCursor};

use crate::locate::find;
use crate::node::Container;
use crate::quick::Quick;
use blocks::BlockStore;
use listpack::{Element, known};

/// The place of an element in a list, found once. An edit of the list ends it.
#[derive(Clone, Copy, Debug)]
pub struct Cursor {
    index: usize,
    node: usize,
    at: usize,
}

impl Cursor {
    /// The index of the element in the list.
    pub fn index(self) -> usize
        ensures { result ≡ self.index }
    {
        self.index
    }
}

/// Where the element at an index of a node of these bytes stands.
pub(crate) fn offset_in(container: Container, bytes: &[u8], index: usize) -> usize
    requires held { IsHeld container bytes.now }
    requires inside { index < length (held container bytes.now) }
    ensures { IsOffsetIn container bytes.now index result }
{
    match container {
        Container::Plain => 0,
        Container::Packed => match known(bytes).seek(index) {
            Some(at) => at,
            None => unreachable!(),
        },
    }
}

// The element that stands at an offset of a node of these bytes.
fn element_in(container: Container, bytes: &[u8], at: usize) -> Element<'_>
    requires held { IsHeld container bytes.now }
    requires at { (j : ℕ) × IsOffsetIn container bytes.now j at }
    ensures { (j : ℕ) → IsOffsetIn container bytes.now j at → element_text result ≡ slice_index_or (held container bytes.now) j [] }
{
    match container {
        Container::Plain => Element::Text(bytes),
        Container::Packed => known(bytes).get(at),
    }
}

// Where the element behind the one at an offset of a node stands.
fn offset_behind(container: Container, bytes: &[u8], at: usize) -> Option<usize>
    requires held { IsHeld container bytes.now }
    requires at { (j : ℕ) × IsOffsetIn container bytes.now j at }
    ensures { (j : ℕ) → IsOffsetIn container bytes.now j at
        → MatchOption result (j + 1 ≡ length (held container bytes.now)) (λ to. IsOffsetIn container bytes.now (j + 1) to) }
{
    match container {
        Container::Plain => None,
        Container::Packed => known(bytes).next(at),
    }
}

// Where the element before the one at an offset of a node stands.
fn offset_before(container: Container, bytes: &[u8], at: usize) -> Option<usize>
    requires held { IsHeld container bytes.now }
    requires at { (j : ℕ) × IsOffsetIn container bytes.now j at }
    ensures { (j : ℕ) → IsOffsetIn container bytes.now j at
        → MatchOption result (j ≡ 0) (λ to. (0 < j) × IsOffsetIn container bytes.now (j - 1) to) }
{
    match container {
        Container::Plain => None,
        Container::Packed => known(bytes).prev(at),
    }
}

impl Quick {
    /// The place of the element at an index.
    pub fn seek<B: BlockStore>(&self, store: &B, index: usize) -> Option<Cursor>
        requires { IsQuick (B.blocks store.now) self.now }
        ensures { MatchOption result (length (elements (B.blocks store.now) self.now) ≤ index) (λ cursor. IsCursor (B.blocks store.now) self.now cursor × (cursor.index ≡ index)) }
    {
        if index >= self.len {
            return None;
        }
        let (k, j) = find(&self.nodes, index, self.len);
        let node = self.nodes[k];
        Some(Cursor {
            index,
            node: k,
            at: offset_in(node.container, node.bytes(store), j),
        })
    }

    /// The element at a place.
    pub fn element<'a, B: BlockStore>(&self, store: &'a B, cursor: Cursor) -> Element<'a>
        requires quick { IsQuick (B.blocks store.now) self.now }
        requires cursor { IsCursor (B.blocks store.now) self.now cursor }
        ensures { element_text result ≡ slice_index_or (elements (B.blocks store.now) self.now) cursor.index [] }
    {
        let node = self.nodes[cursor.node];
        element_in(node.container, node.bytes(store), cursor.at)
    }

    /// The place of the next element towards the list's end.
    pub fn next<B: BlockStore>(&self, store: &B, cursor: Cursor) -> Option<Cursor>
        requires quick { IsQuick (B.blocks store.now) self.now }
        requires cursor { IsCursor (B.blocks store.now) self.now cursor }
        ensures { MatchOption result (cursor.index + 1 ≡ length (elements (B.blocks store.now) self.now)) (λ to. IsCursor (B.blocks store.now) self.now to × (to.index ≡ cursor.index + 1)) }
    {
        let left = self.len() - cursor.index;
        if left == 1 {
            return None;
        }
        let index = cursor.index + 1;
        let node = self.nodes[cursor.node];
        match offset_behind(node.container, node.bytes(store), cursor.at) {
            Some(at) => Some(Cursor {
                index,
                node: cursor.node,
                at,
            }),
            None => {
                let behind = self.nodes[cursor.node + 1];
                Some(Cursor {
                    index,
                    node: cursor.node + 1,
                    at: offset_in(behind.container, behind.bytes(store), 0),
                })
            }
        }
    }

    /// The place of the next element towards the list's head.
    pub fn prev<B: BlockStore>(&self, store: &B, cursor: Cursor) -> Option<Cursor>
        requires quick { IsQuick (B.blocks store.now) self.now }
        requires cursor { IsCursor (B.blocks store.now) self.now cursor }
        ensures { MatchOption result (cursor.index ≡ 0) (λ to. IsCursor (B.blocks store.now) self.now to × (to.index + 1 ≡ cursor.index)) }
    {
        if cursor.index == 0 {
            return None;
        }
        let index = cursor.index - 1;
        let node = self.nodes[cursor.node];
        match offset_before(node.container, node.bytes(store), cursor.at) {
            Some(at) => Some(Cursor {
                index,
                node: cursor.node,
                at,
            }),
            None => {
                let before = self.nodes[cursor.node - 1];
                let last = before.count as usize - 1;
                Some(Cursor {
                    index,
                    node: cursor.node - 1,
                    at: offset_in(before.container, before.bytes(store), last),
                })
            }
        }
    }
}
