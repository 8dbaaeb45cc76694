// Why a listpack is no node.

ghost use Rattle.std.specs.Prelude.{◌≡◌};
ghost use Rattle.stream_node.specs.Faults.{fault_number};

/// The first rule of a stream node that a listpack breaks.
#[derive(Clone, Copy, Debug, PartialEq, Eq)]
pub enum NodeFault {
    /// An element that is due is missing or is not the text or number that is due there, or elements stand behind the last
    /// entry.
    Shape = 1,
    /// The entries marked deleted are not as many as the deleted count says.
    Count,
    /// The id of an entry is not above that of the entry before it.
    Order,
}

impl NodeFault {
    /// The number of the fault, 1 to 3.
    pub fn number(self) -> u8
        ensures { result ≡ fault_number self }
    {
        self as u8
    }
}
