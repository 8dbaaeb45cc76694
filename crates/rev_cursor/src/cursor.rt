ghost use Rattle.std.specs.Prelude.{◌≡◌, ◌<◌, ◌-◌};
ghost use Rattle.rev_cursor.specs.Place.{block_end, end_of, next_of, place, IsBucket};

/// The place of an element with this hash: its 64 bits reversed.
pub fn place(hash: u64) -> u64
    ensures { result ≡ place hash }
{
    hash.reverse_bits()
}

/// The cursor behind the bucket of `cursor` in a table of `2^bits` buckets, as the SCAN commands
/// count: all bits above the table's mask are set, and the reversed number goes up by one.
///
/// With bits reversed it is where the places of that bucket end, and 0 stands for `2^64`.
pub fn next(cursor: u64, bits: u32) -> u64
    requires { bits < 64 }
    ensures value { result ≡ next_of cursor bits }
    ensures end { end_of result ≡ block_end (64 - bits) (place cursor) }
    ensures bucket { IsBucket bits cursor result }
{
    let ones = u64::MAX >> bits;
    let last = cursor.reverse_bits() | ones;
    last.wrapping_add(1).reverse_bits()
}
