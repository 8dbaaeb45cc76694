// Why bytes are no listpack.

ghost use Rattle.std.specs.Prelude.{◌≡◌};
ghost use Rattle.listpack.specs.Faults.{fault_number};

/// The first rule of the listpack format that bytes break.
#[derive(Clone, Copy, Debug, PartialEq, Eq)]
pub enum PackFault {
    /// There are fewer than 7 bytes, so header and last byte do not both stand there.
    Short = 1,
    /// The header's number of bytes is another one than there are.
    Total,
    /// An entry's first byte is no encoding, or its content passes the last byte.
    Entry,
    /// The bytes behind an entry's content are not its back length.
    BackLength,
    /// The header tells a number of elements, and there are more or fewer.
    Count,
    /// The last byte is not FF.
    End,
}

impl PackFault {
    /// The number of the fault, 1 to 6.
    pub fn number(self) -> u8
        ensures { result ≡ fault_number self }
    {
        self as u8
    }
}
