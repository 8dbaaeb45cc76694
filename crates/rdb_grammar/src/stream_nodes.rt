//! What payloads are as nodes of streams.

ghost use Rattle.std.specs.Prelude.{◌≡◌, ◌==◌, false, length, Ok, Err, IfOk, IfErr, IfSome, IfNone, OnOk};
ghost use Rattle.listpack.specs.Pack.{IsPack, texts};
ghost use Rattle.stream_node.specs.Entries.{IsNode, entries_of};
ghost use Rattle.stream_node.specs.Ids.{key_id};
ghost use Rattle.stream_node.specs.Views.{entries};
ghost use Rattle.rdb_grammar.specs.StreamParts.{Nodes, stored_in, is_above, more_entries, node_on};

use crate::fault::LoadKind;
use stream_node::{Id, Node};

/// The id that the text of a node's key is: sixteen bytes.
pub fn node_key(text: &[u8]) -> Option<Id>
    ensures some { IfSome result (λ id. (length text.now ≡ 16) × (id ≡ key_id text.now)) }
    ensures none { IfNone result ((length text.now == 16) ≡ false) }
{
    if text.len() != 16 {
        return None;
    }
    let mut key = [0; 16];
    key.copy_from_slice(text);
    Some(Id::of_key(&key))
}

// The stream node of a key that a payload is.
fn node_of(payload: &[u8], key: Id) -> Result<Node<'_>, LoadKind>
    ensures found { IfOk result (λ node. (stored_in key).found payload.now ≡ Ok (entries node)) }
    ensures pack { OnOk result (IsPack payload.now) }
    ensures is_node { OnOk result (IsNode key (texts payload.now)) }
    ensures entries { IfOk result (λ node. entries node ≡ entries_of key (texts payload.now)) }
    ensures fault { IfErr result (λ kind. (stored_in key).found payload.now ≡ Err kind) }
{
    let pack = match listpack::check(payload) {
        Ok(pack) => pack,
        Err(_) => return Err(LoadKind::Listpack),
    };
    match stream_node::check(key, &pack) {
        Ok(node) => Ok(node),
        Err(_) => Err(LoadKind::StreamShape),
    }
}

// Whether the first entry of a node has an id above another one, where both are there.
fn is_behind(before: Option<Id>, node: &Node<'_>) -> bool
    ensures { result ≡ is_above before (entries node.now) }
{
    let Some(last) = before else {
        return true;
    };
    match node.entries().next() {
        Some(first) => last.is_below(first.id()),
        None => true,
    }
}

/// The node of a key that a payload is, behind nodes whose last entry, marked deleted or not, has the id `before`. Refused exactly
/// where the payload is no listpack, or else no stream node of that key, or an id of it is not above that one.
pub fn check_node(payload: &[u8], key: Id, before: Option<Id>) -> Result<Node<'_>, LoadKind>
    ensures found { IfOk result (λ node. (made : Nodes) → made.last ≡ before → (node_on key made).found payload.now ≡ Ok (more_entries made (entries node))) }
    ensures pack { OnOk result (IsPack payload.now) }
    ensures is_node { OnOk result (IsNode key (texts payload.now)) }
    ensures entries { IfOk result (λ node. entries node ≡ entries_of key (texts payload.now)) }
    ensures fault { IfErr result (λ kind. (made : Nodes) → made.last ≡ before → (node_on key made).found payload.now ≡ Err kind) }
{
    let node = match node_of(payload, key) {
        Ok(node) => node,
        Err(kind) => return Err(kind),
    };
    if is_behind(before, &node) {
        Ok(node)
    } else {
        Err(LoadKind::StreamShape)
    }
}
