// Entries taken out.

use stream_node::{Id, Pairs};

/// An entry taken out: its id, and its fields and values.
#[derive(Debug, Drop)]
pub struct Owned {
    pub id: Id,
    pub pairs: Pairs,
}
