// What an entry begins with.

ghost use Rattle.std.specs.Prelude.{◌≡◌, ◌<◌, ℕ, List, IfSome, IfNone};
ghost use Rattle.stream_node.specs.Entry.{IsStart, flags};
ghost use Rattle.stream_node.specs.Rest.{rest_of};
ghost use Rattle.stream_node.specs.Reading.{LacksStart};

use crate::id::Id;
use crate::rest::Rest;

/// An entry's flags and its id.
#[derive(Clone, Copy, Debug)]
pub(crate) struct Start {
    pub(crate) deleted: bool,
    // Whether its fields are the node's.
    pub(crate) same: bool,
    pub(crate) id: Id,
}

// The two flags that a number is made of: deleted, and with the node's fields.
#[inline(always)]
fn flags_of(number: usize) -> Option<(bool, bool)>
    ensures some { IfSome result (λ x. flags x.0 x.1 ≡ number) }
    ensures none { IfNone result (3 < number) }
{
    match number {
        0 => Some((false, false)),
        1 => Some((true, false)),
        2 => Some((false, true)),
        3 => Some((true, true)),
        _ => None,
    }
}

impl Start {
    /// The start of the entry that a list begins with, and the elements behind it.
    #[inline(always)]
    pub(crate) fn read<'a>(key: Id, list: &Rest<'a>) -> Option<(Start, Rest<'a>)>
        ensures some { IfSome result (λ x. IsStart key (rest_of list.now) x.0.deleted x.0.same x.0.id (rest_of x.1)) }
        ensures none { IfNone result (LacksStart key (rest_of list.now)) }
    {
        let (number, after_flags) = list.split_count()?;
        let (ms, after_ms) = after_flags.split_number()?;
        let (seq, behind) = after_ms.split_number()?;
        let (deleted, same) = flags_of(number)?;
        let id = Id {
            ms: key.ms.wrapping_add_signed(ms),
            seq: key.seq.wrapping_add_signed(seq),
        };
        Some((Start { deleted, same, id }, behind))
    }
}
