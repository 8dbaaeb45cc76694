//! A whole file: its header, its checksum, and what it means.

ghost use Rattle.std.specs.Prelude.{◌≡◌, ◌≤◌, ℕ, List, length, take, IfOk, IfErr};
ghost use Rattle.rdb_grammar.specs.Places.{Stands, Fails};
ghost use Rattle.rdb_grammar.specs.Files.{magic, is_begun, is_version, version, header, sum_field, ExactlyOne};
ghost use Rattle.rdb_grammar.specs.Returns.{Returns};

use crate::fault::{FileFault, LoadKind, Refused};
use crate::lengths::{part_of, u64_le_at};
use digests::crc;

// Whether the first bytes, up to five, are those of `REDIS`.
fn has_begun(bytes: &[u8]) -> bool
    ensures { result ≡ is_begun bytes.now }
{
    let n = bytes.len().min(5);
    bytes[..n] == b"REDIS"[..n]
}

fn magic_of(bytes: &[u8]) -> Result<(&[u8], &[u8]), Refused>
    ensures { Returns (λ x. (x.0.now, x.1.now)) result (magic.read bytes.now) }
{
    if !has_begun(bytes) {
        return Err(Refused {
            kind: LoadKind::NotRdb,
            left: bytes.len(),
        });
    }
    part_of(bytes, 5)
}

// Whether files of this version are taken.
fn is_taken(text: &[u8]) -> bool
    ensures { result ≡ is_version text.now }
{
    text == b"0009".as_slice() || text == b"0010".as_slice() || text == b"0011".as_slice()
}

fn version_of(bytes: &[u8]) -> Result<(&[u8], &[u8]), Refused>
    ensures { Returns (λ x. (x.0.now, x.1.now)) result (version.read bytes.now) }
{
    let (front, rest) = part_of(bytes, 4)?;
    if is_taken(front) {
        Ok((front, rest))
    } else {
        Err(Refused {
            kind: LoadKind::Version,
            left: bytes.len(),
        })
    }
}

fn header_of(bytes: &[u8]) -> Result<(&[u8], &[u8]), Refused>
    ensures { Returns (λ x. (x.0.now, x.1.now)) result (header.read bytes.now) }
{
    let (_, rest) = magic_of(bytes)?;
    version_of(rest)
}

/// The offset of the first item, behind `REDIS` and a version that is taken. Refused exactly by the header's fault.
pub fn check_header(bytes: &[u8]) -> Result<usize, FileFault>
    ensures begun { IfOk result (λ next. (text : List ℕ) × Stands header text bytes.now 0 next) }
    ensures fault { IfErr result (λ e. Fails header bytes.now 0 e.kind e.at) }
{
    match header_of(bytes) {
        Ok((_, rest)) => Ok(bytes.len() - rest.len()),
        Err(e) => Err(FileFault {
            kind: e.kind,
            at: (bytes.len() - e.left) as u64,
        }),
    }
}

fn sum_of<'a>(before: &[u8], bytes: &'a [u8]) -> Result<(u64, &'a [u8]), Refused>
    ensures { Returns (λ x. (x.0, x.1.now)) result ((sum_field before.now).read bytes.now) }
{
    let (sum, rest) = u64_le_at(bytes)?;
    if sum == 0 {
        return Ok((sum, rest));
    }
    if sum == crc(0, before) {
        return Ok((sum, rest));
    }
    Err(Refused {
        kind: LoadKind::Checksum,
        left: bytes.len(),
    })
}

/// Checks the checksum field that begins at the offset `at`, behind the end of the items: zero, or the CRC-64 of all bytes
/// before it. Refused exactly by the field's fault. The offset of the byte behind the field is answered.
pub(crate) fn check_sum(bytes: &[u8], at: usize) -> Result<usize, FileFault>
    requires { at ≤ length bytes.now }
    ensures summed { IfOk result (λ next. (sum : ℕ) × Stands (sum_field (take at bytes.now)) sum bytes.now at next) }
    ensures fault { IfErr result (λ e. Fails (sum_field (take at bytes.now)) bytes.now at e.kind e.at) }
{
    let (before, field) = bytes.split_at(at);
    match sum_of(before, field) {
        Ok((_, rest)) => Ok(bytes.len() - rest.len()),
        Err(e) => Err(FileFault {
            kind: e.kind,
            at: (bytes.len() - e.left) as u64,
        }),
    }
}

/// Loaded at any moment, all bytes are a file of exactly one world, or have exactly one first fault.
pub fn each_file_has_one_world_or_one_fault()
    ensures { (bytes : List ℕ) (moment : ℕ) → ExactlyOne bytes moment }
{}
