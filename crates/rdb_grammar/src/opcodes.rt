//! What stands behind an opcode.

ghost use Rattle.std.specs.Prelude.{◌≡◌, ℕ, List};
ghost use Rattle.std.specs.Int.{w32, w64};
ghost use Rattle.rdb_grammar.specs.Format.{give, some_bytes, followed, turned, Goes, branch_read};
ghost use Rattle.rdb_grammar.specs.Lengths.{a_length};
ghost use Rattle.rdb_grammar.specs.Strings.{string};
ghost use Rattle.rdb_grammar.specs.Items.{passed, two, deadline_in, database as database_of, Database, Whole};
ghost use Rattle.rdb_grammar.specs.Views.{part_said};
ghost use Rattle.rdb_grammar.specs.Returns.{Returns};

use crate::fault::{LoadKind, Refused};
use crate::items::Meaning;
use crate::lengths::{length_of, part_of, u32_le_at, u64_le_at};
use crate::strings::string_of;

/// The least number of 64 bits that is below 0 as a signed one.
const BELOW_ZERO: u64 = 1 << 63;

/// The databases are numbered below this.
const DATABASES: u64 = 16;

/// How long the next key was idle: a length.
pub(crate) fn idle_time(bytes: &[u8]) -> Result<(Meaning<'_>, &[u8]), Refused>
    ensures { Returns (λ x. (part_said x.0, x.1.now)) result (branch_read (turned Whole (passed a_length)) bytes.now) }
{
    let (_, rest) = length_of(bytes)?;
    Ok((Meaning::Passed, rest))
}

/// How often the next key is used: a byte.
pub(crate) fn frequency(bytes: &[u8]) -> Result<(Meaning<'_>, &[u8]), Refused>
    ensures { Returns (λ x. (part_said x.0, x.1.now)) result (branch_read (turned Whole (passed (some_bytes 1))) bytes.now) }
{
    let (_, rest) = part_of(bytes, 1)?;
    Ok((Meaning::Passed, rest))
}

/// A name and what it says of the file: two strings.
pub(crate) fn name_and_text(bytes: &[u8]) -> Result<(Meaning<'_>, &[u8]), Refused>
    ensures { Returns (λ x. (part_said x.0, x.1.now)) result (branch_read (turned Whole (passed (two string))) bytes.now) }
{
    let (_, rest) = string_of(bytes)?;
    let (_, rest) = string_of(rest)?;
    Ok((Meaning::Passed, rest))
}

/// How many keys and how many deadlines follow in a database: two lengths.
pub(crate) fn sizes(bytes: &[u8]) -> Result<(Meaning<'_>, &[u8]), Refused>
    ensures { Returns (λ x. (part_said x.0, x.1.now)) result (branch_read (turned Whole (passed (two a_length))) bytes.now) }
{
    let (_, rest) = length_of(bytes)?;
    let (_, rest) = length_of(rest)?;
    Ok((Meaning::Passed, rest))
}

/// A deadline in milliseconds: 8 bytes, of a signed number.
pub(crate) fn deadline_in_ms(bytes: &[u8]) -> Result<(Meaning<'_>, &[u8]), Refused>
    ensures { Returns (λ x. (part_said x.0, x.1.now)) result (branch_read (turned Whole (Goes (deadline_in w64 1))) bytes.now) }
{
    let (deadline, rest) = u64_le_at(bytes)?;
    if deadline >= BELOW_ZERO {
        return Err(Refused {
            kind: LoadKind::Deadline,
            left: bytes.len(),
        });
    }
    Ok((Meaning::Deadline(deadline), rest))
}

/// A deadline in seconds: 4 bytes, of a signed number.
pub(crate) fn deadline_in_seconds(bytes: &[u8]) -> Result<(Meaning<'_>, &[u8]), Refused>
    ensures { Returns (λ x. (part_said x.0, x.1.now)) result (branch_read (turned Whole (Goes (deadline_in w32 1000))) bytes.now) }
{
    let (deadline, rest) = u32_le_at(bytes)?;
    if deadline >= 1 << 31 {
        return Err(Refused {
            kind: LoadKind::Deadline,
            left: bytes.len(),
        });
    }
    Ok((Meaning::Deadline(deadline as u64 * 1000), rest))
}

/// The number of a database.
pub(crate) fn database(bytes: &[u8]) -> Result<(Meaning<'_>, &[u8]), Refused>
    ensures { Returns (λ x. (part_said x.0, x.1.now)) result (branch_read (turned Whole (Goes (followed database_of λ n. give (Database n)))) bytes.now) }
{
    let (number, rest) = length_of(bytes)?;
    if number >= DATABASES {
        return Err(Refused {
            kind: LoadKind::Database,
            left: bytes.len(),
        });
    }
    Ok((Meaning::Database(number as usize), rest))
}
