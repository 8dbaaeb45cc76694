// The marks of a stream, as a file tells them.

ghost use Rattle.std.specs.Prelude.{◌≡◌};

use crate::stream::Stream;
use stream_node::Id;

impl Stream {
    /// Sets the last id, the greatest id that was deleted, and the number of entries that were added. The last id is to be not
    /// below any entry that a node holds, those that are marked deleted among them.
    pub fn set_marks(&mut self, last: Id, greatest_deleted: Id, added: u64)
        ensures { self.new ≡ record self.old { last = last; deleted = greatest_deleted; added = added } }
    {
        self.last = last;
        self.deleted = greatest_deleted;
        self.added = added;
    }
}
