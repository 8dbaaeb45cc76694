//! Where and when a command runs.

/// Where and when a command runs.
#[derive(Clone, Copy, Debug)]
pub struct Ctx {
    /// The database that is selected, by its number below 16.
    pub db: usize,
    /// The moment, in milliseconds.
    pub moment: u64,
}
