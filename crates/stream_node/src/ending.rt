// The last entry of a node, read from the node's end.

ghost use Rattle.std.specs.Prelude.{◌≡◌, ◌∷◌, ◌++◌, [], List, ℕ, None, length};
ghost use Rattle.listpack.specs.View.{list_of};
ghost use Rattle.stream_node.specs.declared.id.Id.{Id as AnId};
ghost use Rattle.stream_node.specs.Ending.{EndsIn};
ghost use Rattle.stream_node.specs.Entries.{IsNode, entries_of};
ghost use Rattle.stream_node.specs.Entry.{number};
ghost use Rattle.stream_node.specs.Node.{last_id as last_id_of};

use crate::id::Id;
use crate::node::opened;
use crate::rest::Rest;
use crate::start::Start;
use listpack::Pack;

// The number that a list ends with, of so many elements before it.
fn count_at_end(pack: &Pack<'_>) -> usize
    requires { (front : List (List ℕ)) × (middle : List (List ℕ)) × (list_of pack.now ≡ front ++ (middle ++ number (length middle) ∷ [])) }
    ensures { (front middle : List (List ℕ)) → list_of pack.now ≡ front ++ (middle ++ number (length middle) ∷ []) → result ≡ length middle }
{
    match Rest::last(pack, 1).split_count() {
        Some((count, _)) => count,
        None => unreachable!(),
    }
}

// The id of the entry that a list ends with.
fn id_at_end(key: Id, pack: &Pack<'_>) -> Id
    requires { (id : AnId) × EndsIn key (list_of pack.now) id }
    ensures { (id : AnId) → EndsIn key (list_of pack.now) id → result ≡ id }
{
    let count = count_at_end(pack);
    match Start::read(key, &Rest::last(pack, count + 1)) {
        Some((start, _)) => start.id,
        None => unreachable!(),
    }
}

/// The id of the last entry, marked deleted or not, of a listpack that is known to be the stream node of a key. It reads that entry's
/// own count and start, and the node's head. `None` comes exactly where there is no entry.
pub fn last_id(key: Id, pack: &Pack<'_>) -> Option<Id>
    requires { IsNode key (list_of pack.now) }
    ensures { result ≡ last_id_of None (entries_of key (list_of pack.now)) }
{
    let count = opened(key, pack).entries().len();
    if count == 0 {
        return None;
    }
    Some(id_at_end(key, pack))
}
