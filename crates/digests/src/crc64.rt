//! CRC-64 as the RDB file format has it ("Jones": polynomial ad93d23594c935a9, reflected in and out, no final
//! exclusive-or).

ghost use Rattle.std.specs.Prelude.{◌≡◌, ◌++◌, ◌%◌, ℕ, List, true, length, bit_xor, slice_index};
ghost use Rattle.digests.specs.Crc.{crc_of};
ghost use Rattle.digests.specs.Entries.{are_entries, are_tables};

mod tables;

use tables::TABLES;

/// What the table has for the lowest byte of the state with a byte of the text.
fn entry(table: &[u64], state: u64, byte: u8) -> u64
    requires { length table.now ≡ 256 }
    ensures { result ≡ slice_index table.now (bit_xor state byte % 256) }
{
    table[((state ^ byte as u64) & 255) as usize]
}

/// Eight bytes more. The lookups do not wait for each other.
fn eight(tables: &[[u64; 256]], state: u64, bytes: &[u8]) -> u64
    requires tables { are_tables 8 tables.now ≡ true }
    requires count { length tables.now ≡ 8 }
    requires row { length bytes.now ≡ 8 }
    ensures { result ≡ crc_of state bytes.now }
{
    let mut sum = 0;
    let mut rest = state;
    for i in 0..8 {
        sum ^= entry(&tables[i], rest, bytes[i]);
        rest >>= 8;
    }
    sum ^ rest
}

/// Rows of eight bytes.
fn rows(tables: &[[u64; 256]], start: u64, bytes: &[u8]) -> u64
    requires tables { are_tables 8 tables.now ≡ true }
    requires count { length tables.now ≡ 8 }
    requires whole { length bytes.now % 8 ≡ 0 }
    ensures { result ≡ crc_of start bytes.now }
{
    let mut state = start;
    for i in 0..bytes.len() / 8 {
        state = eight(tables, state, &bytes[8 * i..8 * i + 8]);
    }
    state
}

/// A byte a turn, with the table of the last byte of a row.
fn bytes_behind(table: &[u64], start: u64, bytes: &[u8]) -> u64
    requires entries { are_entries 1 0 table.now ≡ true }
    requires all { length table.now ≡ 256 }
    ensures { result ≡ crc_of start bytes.now }
{
    let mut state = start;
    for &byte in bytes {
        state = (state >> 8) ^ entry(table, state, byte);
    }
    state
}

fn crc_by(tables: &[[u64; 256]], start: u64, bytes: &[u8]) -> u64
    requires tables { are_tables 8 tables.now ≡ true }
    requires count { length tables.now ≡ 8 }
    ensures { result ≡ crc_of start bytes.now }
{
    let (whole, behind) = bytes.split_at(bytes.len() / 8 * 8);
    bytes_behind(&tables[7], rows(tables, start, whole), behind)
}

/// The CRC-64 of the bytes, begun at `start`: 0 for the first piece, and for each later one what the pieces before it
/// gave.
pub fn crc(start: u64, bytes: &[u8]) -> u64
    ensures { result ≡ crc_of start bytes.now }
{
    crc_by(&TABLES, start, bytes)
}

/// The CRC-64 goes on from one piece to the next.
pub fn crc_goes_on()
    ensures { (start : ℕ) (a b : List ℕ) → crc_of (crc_of start a) b ≡ crc_of start (a ++ b) }
{}
