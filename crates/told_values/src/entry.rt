//! What stands at a key.

ghost use Rattle.std.specs.Prelude.{◌≡◌, ◌↔◌, IsTrue};

use crate::Held;

/// What stands at a key: its value, and its deadline in milliseconds, where it has one.
#[derive(Drop)]
pub struct Entry {
    pub value: Held,
    pub deadline: Option<u64>,
}

impl Entry {
    /// Whether both have the same value and the same deadline, or none.
    pub fn same(&self, other: &Entry) -> bool
        ensures { IsTrue result ↔ (self.now ≡ other.now) }
    {
        self.deadline == other.deadline && self.value.same(&other.value)
    }
}
