// A node as it is found.

use blocks::BlockRef;
use stream_node::Id;

/// A node: its key, its block, and the bytes in it.
#[derive(Clone, Copy)]
pub(crate) struct Spot<'a> {
    pub(crate) key: Id,
    pub(crate) at: BlockRef,
    pub(crate) bytes: &'a [u8],
}
