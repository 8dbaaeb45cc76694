// The walk over an entry's fields and values.

use crate::body::Body;
use listpack::Element;

/// The fields and values of an entry, in order: those that are left.
#[derive(Clone, Copy, Debug)]
pub struct EntryPairs<'a> {
    pub(crate) body: Body<'a>,
}

impl<'a> Iterator for EntryPairs<'a> {
    type Item = (Element<'a>, Element<'a>);

    ghost use Rattle.std.specs.Iterator.{YieldsFirstBy, item_count};
    ghost use Rattle.stream_node.specs.View.{pair_of, pairs_left};

    ghost next_gives = { YieldsFirstBy pair_of pairs_left };

    ghost remaining = { item_count pairs_left };

    fn next(&mut self) -> Option<(Element<'a>, Element<'a>)> {
        match self.body.split_first() {
            Some((field, value, body)) => {
                self.body = body;
                Some((field, value))
            }
            None => None,
        }
    }

    fn size_hint(&self) -> (usize, Option<usize>) {
        (self.body.len(), Some(self.body.len()))
    }
}
