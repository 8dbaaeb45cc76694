// Moving the nodes of a key's way.

ghost use Rattle.std.specs.Prelude.{◌≡◌, ◌≢◌, suc, ◌+◌, ◌≤◌, [], ◌∷◌, true, false, if◌then◌else◌, IsSome, length};
ghost use Rattle.blocks.specs.Blocks.{Changes, Owned, ref_eq};
ghost use Rattle.blocks.specs.Slabs.{wants, Calmer};
ghost use Rattle.rax_packed.specs.Packed.{value_at};
ghost use Rattle.rax_packed.specs.Paths.{is_first, moved, ArePassed};
ghost use Rattle.rax_packed.specs.Trees.{entries_at, marks_at, refs_at, Becomes, IsTreeAt};

use crate::grow::relink;
use crate::node::{Way, way_of};
use blocks::{BlockRef, BlockStore};

/// A tree of which the nodes of a key were passed.
#[derive(Clone, Copy)]
pub(crate) struct Passed {
    /// Where it stands now.
    pub(crate) at: BlockRef,
    /// Whether the key is its least one.
    pub(crate) least: bool,
    /// How many of its nodes moved.
    pub(crate) moved: u32,
}

/// Moves the nodes of a tree whose least key is this one that want it, from the leaf up, and lets those above name them
/// where they stand then.
pub(crate) fn relocate_below<B: BlockStore>(store: &mut B, at: BlockRef, rest: &[u8]) -> Passed
    requires tree { IsTreeAt (length rest.now) (B.blocks store.old) at }
    requires owned { Owned (refs_at (length rest.now) (B.blocks store.old) at) (B.blocks store.old) }
    requires short { length rest.now ≤ 16 }
    requires stands { IsSome (value_at (entries_at (length rest.now) (B.blocks store.old) at) rest.now) }
    ensures becomes { Becomes (length rest.now) (B.blocks store.old) (B.blocks store.new) at result.at (entries_at (length rest.now) (B.blocks store.old) at) }
    ensures passed { ArePassed (B.heap store.old) (B.heap store.new) rest.now (marks_at (length rest.now) (B.blocks store.old) at) (marks_at (length rest.now) (B.blocks store.new) result.at) }
    ensures moved { result.moved ≡ moved (marks_at (length rest.now) (B.blocks store.old) at) (marks_at (length rest.now) (B.blocks store.new) result.at) }
    ensures few { result.moved ≤ suc (length rest.now) }
    ensures least { result.least ≡ is_first (entries_at (length rest.now) (B.blocks store.old) at) rest.now }
    ensures calmer { Calmer (B.heap store.old) (B.heap store.new) }
{
    match way_of(store.bytes(at), rest) {
        Way::Leaf(_) => pass_node(store, at, true, 0),
        Way::Parts(_) => unreachable!(),
        Way::Missing(_, _) => unreachable!(),
        Way::Link(place, from, to) => {
            let below = relocate_below(store, to, &rest[from..]);
            relink(store, at, place, below.at);
            pass_node(store, at, is_least(place, below.least), below.moved)
        }
    }
}

// Whether a key that goes on by the link with this number is the least below the node, as it is below that link or isn't.
fn is_least(place: usize, below: bool) -> bool
    ensures first { place ≡ 0 → result ≡ below }
    ensures other { place ≢ 0 → result ≡ false }
{
    place == 0 && below
}

// Moves a node that wants it, where the key is the least below it, after so many moved.
fn pass_node<B: BlockStore>(store: &mut B, at: BlockRef, least: bool, count: u32) -> Passed
    requires live { IsSome (B.blocks store.old at) }
    requires few { count ≤ 16 }
    ensures bytes { B.blocks store.new result.at ≡ B.blocks store.old at }
    ensures changes { Changes (B.blocks store.old) (B.blocks store.new) (at ∷ []) (result.at ∷ []) }
    ensures calm { least ≡ true → wants (B.heap store.new) result.at ≡ false }
    ensures others { least ≡ false → result.at ≡ at }
    ensures stays { wants (B.heap store.old) at ≡ false → result.at ≡ at }
    ensures moved { result.moved ≡ (if ref_eq at result.at then 0 else 1) + count }
    ensures least { result.least ≡ least }
    ensures calmer { Calmer (B.heap store.old) (B.heap store.new) }
{
    if !least {
        return Passed {
            at,
            least,
            moved: count,
        };
    }
    match store.move_block(at) {
        Some(new) => Passed {
            at: new,
            least,
            moved: count + 1,
        },
        None => Passed {
            at,
            least,
            moved: count,
        },
    }
}
