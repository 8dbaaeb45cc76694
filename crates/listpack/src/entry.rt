// Whole entries.

ghost use Rattle.std.specs.Prelude.{◌≡◌, ◌++◌, ℕ, ◌<◌, ◌^◌, [], List, IfOk, IfErr, length};
ghost use Rattle.listpack.specs.Entry.{IsSpelling, entry_of};
ghost use Rattle.listpack.specs.Pack.{Begins, IsEntryFault, IsRegionFault};

use crate::back::back_length_of;
use crate::encoding::split_spelling;
use crate::fault::PackFault;

/// Splits off the entry that `rest` begins with: its encoding and content, and what follows its back length.
pub(crate) fn split_entry(rest: &[u8]) -> Result<(&[u8], &[u8]), PackFault>
    requires some { 0 < length rest.now }
    requires fits { length rest.now < 2 ^ 32 }
    ensures ok { IfOk result (λ x. (rest.now ≡ entry_of x.0.now ++ x.1.now) × IsSpelling x.0.now) }
    ensures err { IfErr result (λ e. IsEntryFault rest.now e) }
{
    let Some((spelling, more)) = split_spelling(rest) else {
        return Err(PackFault::Entry);
    };
    let back_length = back_length_of(spelling.len());
    match more.strip_prefix(back_length.as_slice()) {
        Some(after) => Ok((spelling, after)),
        None => Err(PackFault::BackLength),
    }
}

/// How many entries fill `region`.
pub(crate) fn count_entries(region: &[u8]) -> Result<usize, PackFault>
    requires { length region.now < 2 ^ 32 }
    ensures ok { IfOk result (λ n. (spellings : List (List ℕ)) × Begins region.now spellings [] × (n ≡ length spellings)) }
    ensures err { IfErr result (λ e. IsRegionFault region.now e) }
{
    let mut rest = region;
    let mut count = 0;
    while !rest.is_empty() {
        let (_, after) = split_entry(rest)?;
        rest = after;
        count += 1;
    }
    Ok(count)
}
