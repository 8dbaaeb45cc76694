// The walk over a node's entries.

ghost use Rattle.std.specs.Prelude.{◌≡◌, length};
ghost use Rattle.stream_node.specs.Walk.{IsWalk};

use crate::entry::Entry;
use crate::head::Head;
use crate::id::Id;
use crate::rest::Rest;

/// The entries of a stream node, in order.
#[derive(Clone, Copy, Debug)]
pub struct Entries<'a> {
    pub(crate) key: Id,
    pub(crate) head: Head<'a>,
    // How many are left, and where the first of them begins.
    pub(crate) left: usize,
    pub(crate) rest: Rest<'a>,
    ghost whole: { ∥ IsWalk key head left rest ∥₁ },
}

impl<'a> Iterator for Entries<'a> {
    type Item = Entry<'a>;

    ghost use Rattle.std.specs.Iterator.{YieldsFirstBy, item_count};
    ghost use Rattle.stream_node.specs.View.{stored};
    ghost use Rattle.stream_node.specs.Views.{left_of};

    ghost next_gives = { YieldsFirstBy stored left_of };

    ghost remaining = { item_count left_of };

    #[inline(always)]
    fn next(&mut self) -> Option<Entry<'a>> {
        if self.left == 0 {
            return None;
        }
        match Entry::read(self.key, &self.head, None, &self.rest) {
            Ok((entry, rest)) => {
                *self = Entries {
                    key: self.key,
                    head: self.head,
                    left: self.left - 1,
                    rest,
                };
                Some(entry)
            }
            Err(_) => unreachable!(),
        }
    }

    fn size_hint(&self) -> (usize, Option<usize>) {
        (self.left, Some(self.left))
    }
}

impl<'a> Entries<'a> {
    ghost use Rattle.stream_node.specs.Views.{left_of};

    /// How many entries are left.
    pub fn len(&self) -> usize
        ensures { result ≡ length (left_of self.now) }
    {
        self.left
    }
}
