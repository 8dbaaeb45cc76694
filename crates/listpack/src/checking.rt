// Checking bytes.

ghost use Rattle.std.specs.Prelude.{◌≡◌, ◌↔◌, ◌<◌, ◌^◌, ℕ, List, IfOk, IfErr, IsOk, OnOk, length};
ghost use Rattle.listpack.specs.Pack.{IsPack, IsFault, ExactlyOne};
ghost use Rattle.listpack.specs.View.{bytes_of};

use crate::entry::count_entries;
use crate::fault::PackFault;
use crate::header::{END, NOT_TOLD, told_count};
use crate::walks::Pack;
use byteorder::{ByteOrder, LittleEndian};

// The first rule that bytes break.
fn check_rules(bytes: &[u8]) -> Result<(), PackFault>
    ensures pack { OnOk result (IsPack bytes.now) }
    ensures small { OnOk result (length bytes.now < 2 ^ 32) }
    ensures fault { IfErr result (λ e. IsFault bytes.now e) }
{
    let len = bytes.len();
    if len < 7 {
        return Err(PackFault::Short);
    }
    if LittleEndian::read_u32(bytes) as usize != len {
        return Err(PackFault::Total);
    }
    let count = count_entries(&bytes[6..len - 1])?;
    if bytes[len - 1] != END {
        return Err(PackFault::End);
    }
    let told = told_count(bytes);
    if told != NOT_TOLD && usize::from(told) != count {
        return Err(PackFault::Count);
    }
    Ok(())
}

/// Takes bytes as a listpack, or names the first rule that they break.
pub fn check(bytes: &[u8]) -> Result<Pack<'_>, PackFault>
    ensures ok { IsOk result ↔ IsPack bytes.now }
    ensures bytes { IfOk result (λ p. bytes_of p ≡ bytes.now) }
    ensures fault { IfErr result (λ e. IsFault bytes.now e) }
{
    match check_rules(bytes) {
        Ok(()) => Ok(Pack { bytes }),
        Err(fault) => Err(fault),
    }
}

/// Takes bytes that are known to be a listpack.
pub fn known(bytes: &[u8]) -> Pack<'_>
    requires { IsPack bytes.now }
    ensures { bytes_of result ≡ bytes.now }
{
    Pack { bytes }
}

/// For all bytes exactly one holds: they are a listpack of a list, and of no other one; or they have a first fault, and no
/// other one.
pub fn exactly_one()
    ensures { (bytes : List ℕ) → ExactlyOne bytes }
{}
