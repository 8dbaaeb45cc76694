//! Why a file is refused.

ghost use Rattle.std.specs.Prelude.{◌≡◌};
ghost use Rattle.rdb_grammar.specs.Numbers.{number_of};

use std::fmt::{self, Display, Formatter};
use thiserror::Error;

/// Why a file is refused, numbered from L1 on. L20 is not used.
#[derive(Clone, Copy, Debug, PartialEq, Eq)]
pub enum LoadKind {
    /// The first bytes, up to five, do not begin `REDIS`.
    NotRdb = 1,
    /// The version is none that is taken.
    Version = 2,
    /// A part needs a byte past the end.
    Ended = 3,
    /// No length stands where one is due.
    Length = 4,
    /// A string is compressed.
    Compressed = 5,
    /// A string begins with a byte that begins none.
    SpecialString = 6,
    /// A type or opcode that no table names.
    Kind = 7,
    /// An old type that is not taken.
    OldKind = 8,
    /// A module's value or data.
    Module = 9,
    /// Functions.
    Functions = 10,
    /// The number of a database is not taken.
    Database = 11,
    /// The key was kept before in the same database.
    DuplicateKey = 12,
    /// A member or field stands twice.
    DuplicateElement = 13,
    /// A payload is no listpack, or is odd where pairs are due.
    Listpack = 14,
    /// A payload is no intset.
    Intset = 15,
    /// The node of a list has an unknown container.
    ListNode = 16,
    /// A score text is no score.
    ScoreForm = 17,
    /// A score is not whole, or its magnitude is above 2^53.
    ScoreRange = 18,
    /// A stream breaks its shape.
    StreamShape = 19,
    /// A deadline lies below 0.
    Deadline = 21,
    /// The checksum is not that of the bytes before it.
    Checksum = 22,
    /// A string is longer than 512 MB.
    TooLong = 23,
    /// A name or a pending id stands twice in the groups of a stream, or its consumers do not own each pending id once.
    Group = 24,
}

impl LoadKind {
    /// The number of the kind, 1 to 24 but 20.
    pub fn number(self) -> u8
        ensures { result ≡ number_of self }
    {
        self as u8
    }

    // What is wrong there, in words.
    fn text(self) -> &'static str {
        match self {
            LoadKind::NotRdb => "no RDB file",
            LoadKind::Version => "another version",
            LoadKind::Ended => "the file ends within a part",
            LoadKind::Length => "no length",
            LoadKind::Compressed => "a compressed string",
            LoadKind::SpecialString => "a string of an unknown form",
            LoadKind::Kind => "an unknown type of value",
            LoadKind::OldKind => "an old type of value",
            LoadKind::Module => "the data of a module",
            LoadKind::Functions => "functions",
            LoadKind::Database => "no database of this number",
            LoadKind::DuplicateKey => "a key stands twice",
            LoadKind::DuplicateElement => "a member or field stands twice",
            LoadKind::Listpack => "no listpack of this kind",
            LoadKind::Intset => "no intset",
            LoadKind::ListNode => "an unknown container of a list node",
            LoadKind::ScoreForm => "no score",
            LoadKind::ScoreRange => "a score out of range",
            LoadKind::StreamShape => "a stream that breaks its shape",
            LoadKind::Deadline => "a deadline below 0",
            LoadKind::Checksum => "a wrong checksum",
            LoadKind::TooLong => "a string that is too long",
            LoadKind::Group => "a group that breaks its shape",
        }
    }
}

impl Display for LoadKind {
    fn fmt<W: fmt::Write>(&self, f: &mut Formatter<W>) -> fmt::Result {
        f.write_str(self.text())
    }
}

/// A kind, and how many bytes are left from the byte that it names on.
#[derive(Clone, Copy, Debug)]
pub(crate) struct Refused {
    pub(crate) kind: LoadKind,
    pub(crate) left: usize,
}

/// Why a file is refused, and the offset of the byte that is named.
#[derive(Clone, Copy, Debug, PartialEq, Eq, Error)]
#[error("{kind} at byte {at}")]
pub struct FileFault {
    /// The kind.
    pub kind: LoadKind,
    /// The offset in bytes from the file's start.
    pub at: u64,
}

/// Why an item was not answered.
#[derive(Clone, Copy, Debug, PartialEq, Eq, Error)]
pub enum ItemFault {
    /// The file is refused at the item, at an offset in bytes from the file's start.
    #[error("{kind} at byte {at}")]
    Refused { kind: LoadKind, at: u64 },
    /// Memory was refused.
    #[error("memory was refused")]
    Memory,
}
