// Ids handed out again.

use crate::owned::Owned;
use stream_node::Id;

/// An id that is handed out again, and its entry, where the stream still has it.
#[derive(Debug, Drop)]
pub struct Again {
    pub id: Id,
    pub pairs: Option<Owned>,
}
