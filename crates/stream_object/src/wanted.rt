// Which entries a range has.

use stream_node::Id;

/// Which entries are wanted: those between two ids, both counted in, in their order or from the last one back, and how many
/// at most.
#[derive(Clone, Copy)]
pub(crate) struct Wanted {
    pub(crate) from: Id,
    pub(crate) to: Id,
    pub(crate) back: bool,
    pub(crate) limit: u64,
}
