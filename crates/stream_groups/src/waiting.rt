//! What is pending in a group, as a whole.

use crate::{Bytes, Id};

/// A consumer of a group, and how many ids are pending for it.
#[derive(Drop)]
pub struct Owner {
    pub name: Bytes,
    pub count: u64,
}

/// What is pending in a group: how many ids, the least and the greatest of them, and the consumers for which some are
/// pending, by rising bytes of their names.
#[derive(Drop)]
pub struct Waiting {
    pub count: u64,
    pub least: Option<Id>,
    pub greatest: Option<Id>,
    pub owners: Vec<Owner>,
}

/// A pending entry: its id, its consumer by the place of the consumer's name among those of the group by rising bytes, when
/// it was handed out the last time, in milliseconds, and how often it was.
#[derive(Clone, Copy)]
pub struct WaitingEntry {
    pub id: Id,
    pub consumer: usize,
    pub moment: u64,
    pub count: u64,
}
