// Why an entry isn't added.

use stream_node::Id;

/// Why an entry isn't added. Nothing has changed then.
#[derive(Clone, Copy, Debug, PartialEq, Eq)]
pub enum AddFault {
    /// Its id isn't above the last one, which is told.
    NotAbove(Id),
    /// Want of memory.
    Memory,
}
