// The header of a listpack that is a block, and where its entries stand.

ghost use Rattle.std.specs.Prelude.{◌≡◌, ◌≢◌, ◌++◌, ◌+◌, ◌-◌, ◌<◌, ◌≤◌, ◌^◌, Some, IsSome, length};
ghost use Rattle.byteorder.specs.Endian.{little_bytes};
ghost use Rattle.blocks.specs.Blocks.{bytes_at, with_block, Served};
ghost use Rattle.listpack.specs.Edits.{fewer};
ghost use Rattle.listpack.specs.Pack.{IsPack, offset_of, texts, told};
ghost use Rattle.pack_block.specs.Gap.{headed};

use blocks::{BlockRef, BlockStore};
use byteorder::{ByteOrder, LittleEndian};
use listpack::known;

/// The count of a listpack that does not tell its number of elements.
const NOT_TOLD: u16 = 65535;

/// The header's number of elements, or 65,535.
pub(crate) fn told_count(bytes: &[u8]) -> u16
    requires { 6 ≤ length bytes.now }
    ensures { result ≡ told bytes.now }
{
    LittleEndian::read_u16(&bytes[4..])
}

/// The header's count after so many elements less.
pub(crate) fn fewer_told(count: u16, removed: usize) -> u16
    requires { count ≢ 65535 → removed ≤ count }
    ensures { result ≡ fewer count removed }
{
    if count == NOT_TOLD {
        count
    } else {
        count - removed as u16
    }
}

/// Where the entry at an index stands, or behind all entries the last byte.
pub(crate) fn offset_in(bytes: &[u8], index: usize) -> usize
    requires packed { IsPack bytes.now }
    requires index { index ≤ length (texts bytes.now) }
    ensures place { result ≡ offset_of bytes.now index }
    ensures inside { result < length bytes.now }
    ensures small { length bytes.now < 2 ^ 32 }
{
    match known(bytes).seek(index) {
        Some(at) => at,
        None => bytes.len() - 1,
    }
}

// The header of a listpack of so many bytes and elements.
fn header_of(total: u32, count: u16) -> [u8; 6]
    ensures { result ≡ little_bytes 4 total ++ little_bytes 2 count }
{
    let mut bytes = [0; 6];
    LittleEndian::write_u32(&mut bytes, total);
    LittleEndian::write_u16(&mut bytes[4..], count);
    bytes
}

/// Writes the header of a listpack anew, with the number of bytes that there are.
pub(crate) fn write_header<B: BlockStore>(store: &mut B, at: BlockRef, count: u16)
    requires live { IsSome (B.blocks store.old at) }
    requires long { 6 ≤ length (bytes_at (B.blocks store.old) at) }
    requires small { length (bytes_at (B.blocks store.old) at) < 2 ^ 32 }
    ensures written { B.blocks store.new ≡ with_block (B.blocks store.old) at (Some (headed count (bytes_at (B.blocks store.old) at))) }
    ensures served { Served B.step store.old store.new }
{
    let total = store.bytes(at).len() as u32;
    let header = header_of(total, count);
    store.write(at, 0, &header);
}
