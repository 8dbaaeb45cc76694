// Seeking the key that is nearest to another.

ghost use Rattle.std.specs.Prelude.{◌≡◌, ◌+◌, ◌-◌, ◌^◌, ◌<◌, ◌≤◌, ◌++◌, ◌∷◌, [], ◌↔◌, IsTrue, Some, None, IfNone, IfSome, IsSome, length, take, drop};
ghost use Rattle.std.specs.Option.{option_map};
ghost use Rattle.blocks.specs.Blocks.{bytes_at};
ghost use Rattle.rax_packed.specs.Nodes.{node_of};
ghost use Rattle.rax_packed.specs.Packed.{end_of, nearest};
ghost use Rattle.rax_packed.specs.Trees.{entries, entries_at, entries_in, node_at, IsTreeAt};
ghost use Rattle.rax_packed.specs.Ways.{IsInnerBytes, IsByteAhead, links_in, prefix_in, beside, aside};
ghost use Rattle.rax_packed.specs.Turns.{Turns, IsChosen, IsNearEnd, IsBehind};

use crate::node::{Way, link, parts, read_sections, way_of};
use blocks::{BlockRef, BlockStore};

/// A key.
pub(crate) type Key = [u8; 16];

/// Where a way goes on: the next node, the bytes of the key up to it, and how many those are.
#[derive(Clone, Copy)]
pub(crate) struct Turn {
    pub(crate) to: BlockRef,
    pub(crate) path: Key,
    pub(crate) depth: usize,
}

/// The key nearest to another in a tree that stands where the key's first bytes lead: the least that isn't before it, or
/// else the greatest that isn't after it.
pub(crate) fn seek_below<B: BlockStore>(
    store: &B,
    at: BlockRef,
    key: &Key,
    depth: usize,
    up: bool,
) -> Option<Key>
    requires within { depth ≤ 16 }
    requires tree { IsTreeAt (16 - depth) (B.blocks store.now) at }
    ensures { result ≡ option_map (λ e. take depth key.now ++ e.key) (nearest up (entries_at (16 - depth) (B.blocks store.now) at) (drop depth key.now)) }
{
    match way_of(store.bytes(at), rest_of(key, depth)) {
        Way::Leaf(_) => Some(*key),
        Way::Parts(shared) => {
            let node_byte = store.bytes(at)[2 + shared];
            if is_ahead(key[depth + shared], node_byte, up) {
                Some(end_below(store, at, key, depth, up))
            } else {
                None
            }
        }
        Way::Missing(place, _) => beyond(store, at, key, depth, place, up),
        Way::Link(place, from, to) => match seek_below(store, to, key, depth + from, up) {
            Some(found) => Some(found),
            None => beyond(store, at, key, depth, behind(place, up), up),
        },
    }
}

/// What is left of a key behind its first bytes.
pub(crate) fn rest_of(key: &Key, depth: usize) -> &[u8]
    requires { depth ≤ 16 }
    ensures rest { result.now ≡ drop depth key.now }
    ensures len { length result.now ≡ 16 - depth }
{
    &key[depth..]
}

// Whether a byte comes before another in a direction.
fn is_ahead(byte: u8, other: u8, up: bool) -> bool
    ensures { IsTrue result ↔ IsByteAhead up byte other }
{
    if up { byte < other } else { other < byte }
}

// The nearest key below the links on one side of a place of an inner node.
fn beyond<B: BlockStore>(
    store: &B,
    at: BlockRef,
    path: &Key,
    depth: usize,
    place: usize,
    up: bool,
) -> Option<Key>
    requires within { depth ≤ 16 }
    requires tree { IsTreeAt (16 - depth) (B.blocks store.now) at }
    requires inner { IsInnerBytes (bytes_at (B.blocks store.now) at) }
    requires place { place ≤ length (links_in (node_at (B.blocks store.now) at)) }
    ensures { result ≡ option_map (λ e. take depth path.now ++ e.key) (end_of up (entries_in (entries (16 - depth) (B.blocks store.now)) (aside up place (node_at (B.blocks store.now) at)))) }
{
    match next_turn(store.bytes(at), path, depth, place, up) {
        None => None,
        Some(turn) => Some(end_below(store, turn.to, &turn.path, turn.depth, up)),
    }
}

// The first key, or else the last, of a tree that stands where a path leads.
fn end_below<B: BlockStore>(store: &B, at: BlockRef, path: &Key, depth: usize, up: bool) -> Key
    requires within { depth ≤ 16 }
    requires tree { IsTreeAt (16 - depth) (B.blocks store.now) at }
    ensures { Some result ≡ option_map (λ e. take depth path.now ++ e.key) (end_of up (entries_at (16 - depth) (B.blocks store.now) at)) }
{
    let bytes = store.bytes(at);
    if bytes[0] == 0 {
        return ended(path, depth, parts(bytes).0);
    }
    let place = near_end(read_sections(bytes).edges.len(), up);
    match next_turn(bytes, path, depth, place, up) {
        None => unreachable!(),
        Some(turn) => end_below(store, turn.to, &turn.path, turn.depth, up),
    }
}

/// The way on by the link of an inner node that is next to a place on one side.
pub(crate) fn next_turn(
    bytes: &[u8],
    path: &Key,
    depth: usize,
    place: usize,
    up: bool,
) -> Option<Turn>
    requires inner { IsInnerBytes bytes.now }
    requires within { depth + length (prefix_in (node_of bytes.now)) < 16 }
    requires place { place ≤ length (links_in (node_of bytes.now)) }
    ensures none { IfNone result (beside up (links_in (node_of bytes.now)) place ≡ None) }
    ensures some { IfSome result (Turns up (node_of bytes.now) place depth path.now) }
{
    let node = read_sections(bytes);
    let at = chosen(place, node.edges.len(), up)?;
    Some(Turn {
        to: link(node.refs, at),
        path: stepped(path, depth, node.prefix, node.edges[at]),
        depth: depth + node.prefix.len() + 1,
    })
}

// The number of the link next to a place on one side.
fn chosen(place: usize, count: usize, up: bool) -> Option<usize>
    requires { place ≤ count }
    ensures { IsChosen up count place result }
{
    if up {
        if place < count { Some(place) } else { None }
    } else {
        place.checked_sub(1)
    }
}

// The path with a node's prefix and an edge behind its first bytes.
fn stepped(path: &Key, depth: usize, prefix: &[u8], edge: u8) -> Key
    requires { depth + length prefix.now < 16 }
    ensures { take (depth + length prefix.now + 1) result ≡ take depth path.now ++ (prefix.now ++ edge ∷ []) }
{
    let mut next = *path;
    next[depth..depth + prefix.len()].copy_from_slice(prefix);
    next[depth + prefix.len()] = edge;
    next
}

/// The path with a leaf's prefix behind its first bytes.
pub(crate) fn ended(path: &Key, depth: usize, prefix: &[u8]) -> Key
    requires { depth + length prefix.now ≡ 16 }
    ensures { result ≡ take depth path.now ++ prefix.now }
{
    let mut whole = *path;
    whole[depth..].copy_from_slice(prefix);
    whole
}

// The place among so many links that all of them lie beyond.
fn near_end(count: usize, up: bool) -> usize
    ensures { IsNearEnd up count result }
{
    if up { 0 } else { count }
}

// The place beyond a link.
fn behind(place: usize, up: bool) -> usize
    requires { place < 2 ^ 63 }
    ensures { IsBehind up place result }
{
    if up { place + 1 } else { place }
}
