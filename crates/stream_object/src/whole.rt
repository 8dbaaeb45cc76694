// Nodes of a file, and those of them that may stand in a stream as they are.

ghost use Rattle.std.specs.Prelude.{◌≡◌, IsTrue, IfSome};
ghost use Rattle.std.specs.List.{AllByRecursion};
ghost use Rattle.listpack.specs.Pack.{texts};
ghost use Rattle.stream_node.specs.Entries.{entries_of};
ghost use Rattle.stream_node.specs.View.{stored};
ghost use Rattle.stream_node.specs.Views.{left_of};
ghost use Rattle.stream_object.specs.Loading.{IsFileNode};
ghost use Rattle.stream_object.specs.Whole.{MayStandWhole, MayStand};

use crate::node::MOST_ENTRIES;
use listpack::known;
use stream_node::{Entries, Entry, Id, last_id, live_len, opened};

/// All entries of a file's node, those that are marked deleted among them.
pub(crate) fn listed<'a>(key: Id, pack: &'a [u8]) -> Entries<'a>
    requires { IsFileNode key pack.now }
    ensures { left_of result ≡ entries_of key (texts pack.now) }
{
    opened(key, &known(pack)).entries()
}

// Whether an entry isn't marked deleted and isn't below its node's key.
fn may_stand(key: Id, entry: &Entry) -> bool
    ensures { IsTrue result → MayStand key (stored entry.now) }
{
    if entry.deleted() {
        return false;
    }
    !entry.id().is_below(key)
}

// Whether each entry of a file's node may stand. As ids rise, the first one tells of all that none is below the key.
fn all_stand(key: Id, pack: &[u8]) -> bool
    requires { IsFileNode key pack.now }
    ensures { IsTrue result → AllByRecursion (MayStand key) (entries_of key (texts pack.now)) }
{
    let mut entries = listed(key, pack);
    let live = live_len(&known(pack));
    let all = entries.len();
    if live < all {
        return false;
    }
    match entries.next() {
        Some(first) => may_stand(key, &first),
        None => true,
    }
}

/// The id of the last entry of a file's node, where the node may stand in a stream as it is.
pub(crate) fn end_of(key: Id, pack: &[u8]) -> Option<Id>
    requires { IsFileNode key pack.now }
    ensures { IfSome result (λ last. MayStandWhole key pack.now last) }
{
    let count = listed(key, pack).len();
    if count == 0 || count > MOST_ENTRIES {
        return None;
    }
    if !all_stand(key, pack) {
        return None;
    }
    last_id(key, &known(pack))
}
