// Entries below an id.

ghost use Rattle.std.specs.Prelude.{◌≡◌, ◌&&◌, length};
ghost use Rattle.std.specs.List.{filter};
ghost use Rattle.listpack.specs.Pack.{texts};
ghost use Rattle.stream_node.specs.Entries.{entries_of};
ghost use Rattle.stream_node.specs.View.{stored};
ghost use Rattle.stream_object.specs.Below.{is_low};
ghost use Rattle.stream_object.specs.Parts.{IsNodeOf, is_live, live_of};
ghost use Rattle.stream_object.specs.Ranges.{seen};

use crate::node::entries;
use stream_node::{Entry, Id};

// Whether an entry isn't marked deleted and is below an id.
fn is_below(entry: &Entry, least: Id) -> bool
    ensures { result ≡ (is_live (stored entry.now) && is_low least (seen entry.now)) }
{
    if entry.deleted() {
        return false;
    }
    entry.id().is_below(least)
}

/// How many entries of a node that aren't marked deleted are below an id.
pub(crate) fn count_below(key: Id, bytes: &[u8], least: Id) -> usize
    requires { IsNodeOf key bytes.now }
    ensures { result ≡ length (filter (is_low least) (live_of (entries_of key (texts bytes.now)))) }
{
    let mut count = 0;
    for entry in entries(key, bytes) {
        if is_below(&entry, least) {
            count += 1;
        }
    }
    count
}
