// The header and the last byte.

ghost use Rattle.std.specs.Prelude.{◌≡◌, ◌≤◌, ℕ, length};
ghost use Rattle.listpack.specs.Pack.{told};

use byteorder::{ByteOrder, LittleEndian};

/// The count of a listpack that does not tell its number of elements.
pub(crate) const NOT_TOLD: u16 = 65535;

/// The last byte of each listpack.
pub(crate) const END: u8 = 0xff;

/// The header's number of elements, or `NOT_TOLD`.
pub(crate) fn told_count(bytes: &[u8]) -> u16
    requires { 6 ≤ length bytes.now }
    ensures { result ≡ told bytes.now }
{
    LittleEndian::read_u16(&bytes[4..])
}
