//! How a run ends.

ghost use Rattle.std.specs.Prelude.{◌≡◌};
ghost use Rattle.program_top.specs.Statuses.{status_of, ending_of};

use rdb_grammar::LoadKind;
use resp_frames::Rule;
use serving::Ended;

/// What ends a run. Each has an exit status.
#[derive(Clone, Copy, Debug, PartialEq, Eq)]
pub enum Ending {
    /// The input was read to its end, and ended after a whole request, or all commands were generated: 0.
    Whole,
    /// A request that ends the run was answered: 0.
    Quit,
    /// The words are none that are taken: 1.
    Usage,
    /// The bytes break a rule of the protocol, at a byte that is counted from the start of the input: 2.
    Protocol {
        rule: Rule,
        at: u64,
    },
    /// The input ended inside a request: 3.
    Cut,
    /// The input failed: 4.
    ReadFault,
    /// The output failed: 5.
    WriteFault,
    /// The host failed, or has no file of the name: 6.
    Host,
    /// The format excludes the file, by its first fault: 7.
    Refused {
        kind: LoadKind,
        /// The fault's byte, from the file's start.
        at: u64,
    },
    /// Want of memory: 8.
    Memory,
    /// So many bytes were taken as the limit allows, or the file has more: 9.
    Limit,
}

impl Ending {
    /// The exit status.
    pub fn status(self) -> u8
        ensures { result ≡ status_of self }
    {
        match self {
            Ending::Whole => 0,
            Ending::Quit => 0,
            Ending::Usage => 1,
            Ending::Protocol { .. } => 2,
            Ending::Cut => 3,
            Ending::ReadFault => 4,
            Ending::WriteFault => 5,
            Ending::Host => 6,
            Ending::Refused { .. } => 7,
            Ending::Memory => 8,
            Ending::Limit => 9,
        }
    }
}

/// The ending of a run that was served to this end.
pub fn served_to(ended: Ended) -> Ending
    ensures { result ≡ ending_of ended }
{
    match ended {
        Ended::Whole => Ending::Whole,
        Ended::Quit => Ending::Quit,
        Ended::Protocol { rule, at } => Ending::Protocol { rule, at },
        Ended::Cut => Ending::Cut,
        Ended::ReadFault => Ending::ReadFault,
        Ended::WriteFault => Ending::WriteFault,
        Ended::Memory => Ending::Memory,
        Ended::Limit => Ending::Limit,
    }
}
