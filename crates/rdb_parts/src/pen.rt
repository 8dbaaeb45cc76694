//! What is gathered before it is put.

ghost use Rattle.std.specs.Prelude.{◌≡◌, ◌≤◌, length};

/// What is gathered, and the sum of what was put before it.
#[derive(Drop)]
pub struct Pen {
    pub(crate) room: [u8; 65536],
    pub(crate) used: usize,
    pub(crate) sum: u64,
    ghost in_range: { (used ≤ 65536) × (length room ≡ 65536) },
}
