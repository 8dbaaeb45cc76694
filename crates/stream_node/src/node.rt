// Stream nodes.

ghost use Rattle.std.specs.Prelude.{◌≡◌, ◌↔◌, ◌+◌, ℕ, List, IsOk, IfOk, IfErr, OnOk, length};
ghost use Rattle.listpack.specs.View.{list_of};
ghost use Rattle.stream_node.specs.declared.id.Id.{Id as AnId};
ghost use Rattle.stream_node.specs.Node.{IsHead, IsFault, marked};
ghost use Rattle.stream_node.specs.Entries.{IsNode, entries_of};
ghost use Rattle.stream_node.specs.Rest.{rest_of};
ghost use Rattle.stream_node.specs.Reading.{master_of};
ghost use Rattle.stream_node.specs.Walk.{IsWalk};
ghost use Rattle.stream_node.specs.Views.{left_of, entries};

use crate::entries::Entries;
use crate::entry::Entry;
use crate::fault::NodeFault;
use crate::head::Head;
use crate::id::Id;
use crate::rest::Rest;
use listpack::Pack;

/// A stream node: its entries, each with its id, its mark and its fields and values.
#[derive(Clone, Copy, Debug)]
pub struct Node<'a> {
    walk: Entries<'a>,
}

// The first rule that the entries behind a head break.
fn check_entries<'a>(key: Id, head: &Head<'a>, first: &Rest<'a>) -> Result<(), NodeFault>
    ensures ok { OnOk result ((list : List (List ℕ)) → IsHead list head.now.live head.now.deleted (master_of head.now) (rest_of first.now) → IsNode key list) }
    ensures walk { OnOk result (IsWalk key head.now (head.now.live + head.now.deleted) first.now) }
    ensures fault { IfErr result (λ e. (list : List (List ℕ)) → IsHead list head.now.live head.now.deleted (master_of head.now) (rest_of first.now) → IsFault key list e) }
{
    let mut rest = *first;
    let mut last = None;
    let mut marked = 0;
    for _ in 0..head.live + head.deleted {
        let (entry, behind) = Entry::read(key, head, last, &rest)?;
        last = Some(entry.id());
        marked += usize::from(entry.deleted());
        rest = behind;
    }
    if rest.len() > 0 {
        return Err(NodeFault::Shape);
    }
    if marked != head.deleted {
        return Err(NodeFault::Count);
    }
    Ok(())
}

/// Takes a listpack as the stream node of a key, or names the first rule of a stream node that it breaks.
pub fn check<'a>(key: Id, pack: &Pack<'a>) -> Result<Node<'a>, NodeFault>
    ensures ok { IsOk result ↔ IsNode key (list_of pack.now) }
    ensures entries { IfOk result (λ n. entries n ≡ entries_of key (list_of pack.now)) }
    ensures fault { IfErr result (λ e. IsFault key (list_of pack.now) e) }
{
    let Some((head, first)) = Head::read(&Rest::all(pack)) else {
        return Err(NodeFault::Shape);
    };
    match check_entries(key, &head, &first) {
        Ok(()) => Ok(opened(key, pack)),
        Err(fault) => Err(fault),
    }
}

/// Takes a listpack that is known to be the stream node of a key. It reads the counts and the fields, and no entry.
pub fn opened<'a>(key: Id, pack: &Pack<'a>) -> Node<'a>
    requires { IsNode key (list_of pack.now) }
    ensures { entries result ≡ entries_of key (list_of pack.now) }
{
    match Head::read(&Rest::all(pack)) {
        Some((head, first)) => Node {
            walk: Entries {
                key,
                head,
                left: head.live + head.deleted,
                rest: first,
            },
        },
        None => unreachable!(),
    }
}

/// How many entries of a stream node aren't marked deleted. It reads one element.
pub fn live_len(pack: &Pack<'_>) -> usize
    requires { (key : AnId) × IsNode key (list_of pack.now) }
    ensures { (key : AnId) → IsNode key (list_of pack.now) → result + marked (entries_of key (list_of pack.now)) ≡ length (entries_of key (list_of pack.now)) }
{
    match Rest::all(pack).split_count() {
        Some((live, _)) => live,
        None => unreachable!(),
    }
}

impl<'a> Node<'a> {
    /// The entries of the node, in order, those that are marked deleted among them.
    pub fn entries(&self) -> Entries<'a>
        ensures { left_of result ≡ entries self.now }
    {
        self.walk
    }
}
