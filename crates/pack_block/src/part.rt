// A part of a block that is copied into another.

ghost use Rattle.std.specs.Prelude.{◌≡◌, ◌+◌, ◌<◌, ◌≤◌, ◌^◌, Some, IsSome, false, length, take, drop};
ghost use Rattle.blocks.specs.Blocks.{bytes_at, overwritten, ref_eq, with_block, Served};

use blocks::{BlockRef, BlockStore};

/// A store lends no block while it is written to, so bytes go from block to block through the stack, so many at once.
const AT_ONCE: usize = 512;

// So many bytes from a place on, in the room given.
fn piece_of<'a>(bytes: &[u8], start: usize, count: usize, room: &'a mut [u8; AT_ONCE]) -> &'a [u8]
    requires inside { start + count ≤ length bytes.now }
    requires few { count ≤ 512 }
    ensures { result.now ≡ take count (drop start bytes.now) }
{
    room[..count].copy_from_slice(&bytes[start..start + count]);
    &room[..count]
}

/// Writes `count` bytes of a live block, from the byte `start` on, over those of another from the byte `to` on.
pub(crate) fn copy_part<B: BlockStore>(
    store: &mut B,
    source: BlockRef,
    start: usize,
    target: BlockRef,
    to: usize,
    count: usize,
)
    requires source_live { IsSome (B.blocks store.old source) }
    requires target_live { IsSome (B.blocks store.old target) }
    requires apart { ref_eq source target ≡ false }
    requires inside { start + count ≤ length (bytes_at (B.blocks store.old) source) }
    requires room { to + count ≤ length (bytes_at (B.blocks store.old) target) }
    requires small { to + count < 2 ^ 64 }
    ensures copied { B.blocks store.new ≡ with_block (B.blocks store.old) target
        (Some (overwritten (bytes_at (B.blocks store.old) target) to (take count (drop start (bytes_at (B.blocks store.old) source))))) }
    ensures slabs { B.heap store.new ≡ B.heap store.old }
    ensures served { Served B.step store.old store.new }
{
    let mut room = [0; AT_ONCE];
    let mut done = 0;
    while done < count {
        let step = (count - done).min(AT_ONCE);
        let piece = piece_of(store.bytes(source), start + done, step, &mut room);
        store.write(target, to + done, piece);
        done += step;
    }
}
