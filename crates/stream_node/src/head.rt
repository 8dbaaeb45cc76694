// What a node begins with.

ghost use Rattle.std.specs.Prelude.{◌≡◌, ◌<◌, ◌≤◌, ◌^◌, ℕ, List, IfSome, IfNone, length};
ghost use Rattle.stream_node.specs.Node.{IsHead, LacksHead};
ghost use Rattle.stream_node.specs.Rest.{rest_of};

use crate::rest::Rest;

/// The counts of a node's entries, and its fields.
#[derive(Clone, Copy, Debug)]
pub(crate) struct Head<'a> {
    pub(crate) live: usize,
    pub(crate) deleted: usize,
    // How many fields there are, from the first one on.
    pub(crate) count: usize,
    pub(crate) fields: Rest<'a>,
    ghost live_small: { live < 2 ^ 63 },
    ghost deleted_small: { deleted < 2 ^ 63 },
    ghost enough: { count ≤ length (rest_of fields) },
}

impl<'a> Head<'a> {
    ghost use Rattle.stream_node.specs.Reading.{master_of};

    /// The head that a list begins with, and the elements behind it.
    pub(crate) fn read(list: &Rest<'a>) -> Option<(Head<'a>, Rest<'a>)>
        ensures some { IfSome result (λ x. IsHead (rest_of list.now) x.0.live x.0.deleted (master_of x.0) (rest_of x.1)) }
        ensures none { IfNone result (LacksHead (rest_of list.now)) }
    {
        let (live, after_live) = list.split_count()?;
        let (deleted, after_deleted) = after_live.split_count()?;
        let (count, fields) = after_deleted.split_count()?;
        if count == 0 {
            return None;
        }
        let after_fields = fields.skip(count)?;
        let first = after_fields.skip_number(0)?;
        let head = Head {
            live,
            deleted,
            count,
            fields,
        };
        Some((head, first))
    }
}
