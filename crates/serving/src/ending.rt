//! How the serving of an input ends.

use resp_frames::Rule;

/// What ends the serving. Each has an exit status.
#[derive(Clone, Copy, Debug, PartialEq, Eq)]
pub enum Ended {
    /// The input was read to its end, and ended after a whole request: 0.
    Whole,
    /// A request that ends the run was answered: 0.
    Quit,
    /// The bytes break a rule of the protocol, at a byte that is counted from the start of the input: 2.
    Protocol { rule: Rule, at: u64 },
    /// The input ended inside a request: 3.
    Cut,
    /// The input failed: 4.
    ReadFault,
    /// The output failed: 5.
    WriteFault,
    /// Want of memory: 8.
    Memory,
    /// So many bytes were taken as the limit allows: 9.
    Limit,
}
