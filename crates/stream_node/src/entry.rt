// The entries of a node.

ghost use Rattle.std.specs.Prelude.{◌≡◌, ◌↔◌, ◌<◌, IfOk, IfErr, IsTrue, length};
ghost use Rattle.listpack.specs.Element.{element_text};
ghost use Rattle.stream_node.specs.Entry.{IsEntry};
ghost use Rattle.stream_node.specs.Pairs.{pair_at};
ghost use Rattle.stream_node.specs.Node.{IsAfter};
ghost use Rattle.stream_node.specs.Next.{IsEntryFault};
ghost use Rattle.stream_node.specs.Rest.{rest_of};
ghost use Rattle.stream_node.specs.Reading.{master_of};

use crate::body::Body;
use crate::entry_pairs::EntryPairs;
use crate::fault::NodeFault;
use crate::head::Head;
use crate::id::Id;
use crate::pairs::Pairs;
use crate::rest::Rest;
use crate::start::Start;
use listpack::{Element, Memory};
use std::alloc::Global;

/// An entry of a stream node.
#[derive(Clone, Copy, Debug)]
pub struct Entry<'a> {
    id: Id,
    deleted: bool,
    body: Body<'a>,
}

// Whether an id is above the one before it, where there is one.
#[inline(always)]
fn is_after(before: Option<Id>, id: Id) -> bool
    ensures { IsTrue result ↔ IsAfter before id }
{
    match before {
        Some(before) => before.is_below(id),
        None => true,
    }
}

impl<'a> Entry<'a> {
    ghost use Rattle.stream_node.specs.View.{stored, pairs_left};

    /// The entry that is due behind an id, and the elements behind it.
    #[inline(always)]
    pub(crate) fn read(
        key: Id,
        head: &Head<'a>,
        before: Option<Id>,
        list: &Rest<'a>,
    ) -> Result<(Entry<'a>, Rest<'a>), NodeFault>
        ensures ok { IfOk result (λ x. IsEntry key (master_of head.now) (rest_of list.now) (stored x.0) (rest_of x.1)) }
        ensures after { IfOk result (λ x. IsAfter before x.0.id) }
        ensures err { IfErr result (λ e. IsEntryFault key (master_of head.now) before (rest_of list.now) e) }
    {
        let Some((start, behind)) = Start::read(key, list) else {
            return Err(NodeFault::Shape);
        };
        if !is_after(before, start.id) {
            return Err(NodeFault::Order);
        }
        match Body::read(head, start.same, &behind) {
            Some((body, rest)) => Ok((
                Entry {
                    id: start.id,
                    deleted: start.deleted,
                    body,
                },
                rest,
            )),
            None => Err(NodeFault::Shape),
        }
    }

    /// The entry's id.
    pub fn id(&self) -> Id
        ensures { result ≡ (stored self.now).id }
    {
        self.id
    }

    /// Whether the entry is marked deleted.
    pub fn deleted(&self) -> bool
        ensures { result ≡ (stored self.now).deleted }
    {
        self.deleted
    }

    /// How many fields and values the entry has.
    pub fn len(&self) -> usize
        ensures { result ≡ length (stored self.now).pairs }
    {
        self.body.len()
    }

    pub fn is_empty(&self) -> bool
        ensures { IsTrue result ↔ (length (stored self.now).pairs ≡ 0) }
    {
        self.body.len() == 0
    }

    /// The field at an index. It takes a step for each element of the entry before it.
    pub fn field(&self, index: usize) -> Element<'a>
        requires { index < length (stored self.now).pairs }
        ensures { element_text result ≡ (pair_at (stored self.now).pairs index).0 }
    {
        self.body.field(index)
    }

    /// The value at an index. It takes a step for each element of the entry before it.
    pub fn value(&self, index: usize) -> Element<'a>
        requires { index < length (stored self.now).pairs }
        ensures { element_text result ≡ (pair_at (stored self.now).pairs index).1 }
    {
        self.body.value(index)
    }

    /// The fields and values, in order.
    pub fn pairs(&self) -> EntryPairs<'a>
        ensures { pairs_left result ≡ (stored self.now).pairs }
    {
        EntryPairs { body: self.body }
    }

    /// The fields and values as bytes of their own.
    pub fn to_pairs(&self, alloc: Global) -> Result<Pairs, Memory>
        ensures { IfOk result (λ pairs. pairs ≡ (stored self.now).pairs) }
    {
        let mut pairs = Pairs::new(alloc);
        for (field, value) in self.pairs() {
            pairs.push_elements(&field, &value)?;
        }
        Ok(pairs)
    }
}
