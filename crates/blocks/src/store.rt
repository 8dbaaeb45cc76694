ghost use Rattle.std.specs.Prelude.{◌≡◌, ◌↔◌, ℕ, ◌+◌, ◌<◌, ◌≤◌, false, IsTrue, List, Option, Some, None, length, replicate, take, drop, IfOk, OnErr, IfSome, IfNone, IsSome, MatchBool, is_some};
ghost use Rattle.blocks.specs.declared.BlockRef.{BlockRef};
ghost use Rattle.blocks.specs.declared.ClassUse.{ClassUse};
ghost use Rattle.blocks.specs.Blocks.{ref_eq, with_block, overwritten, bytes_at, widened, resized, shifted, IsFinite, Served};
ghost use Rattle.blocks.specs.Slabs.{Heap, wants, Stretches, IsWaiting, Begun, Moves, ended, IsSoundHeap, slabs_of, used_of, size_of};
ghost use Rattle.blocks.specs.Steps.{IsStep};

use crate::{BlockRef, ClassUse, Memory};

/// A store lends no block while it is written to, so bytes go from block to block through the stack, so many at once.
const AT_ONCE: usize = 512;

/// The bytes from the place on, as many as there are and go at once, in the room given.
fn piece_from<'a>(bytes: &[u8], start: usize, room: &'a mut [u8; AT_ONCE]) -> &'a [u8]
    requires { start ≤ length bytes.now }
    ensures { result.now ≡ take 512 (drop start bytes.now) }
{
    let count = (bytes.len() - start).min(AT_ONCE);
    room[..count].copy_from_slice(&bytes[start..start + count]);
    &room[..count]
}

/// A store of blocks of bytes under references.
///
/// Its meaning is a finite map from the live references to bytes, and the slabs in which small
/// blocks stand by classes of size. A slab has 65,536 bytes. A pass over the store packs blocks
/// into as few slabs as they need: from `begin_pass` to `end_pass` some slabs are kept, and each
/// block in another slab of a class wants to move into one of them.
pub trait BlockStore: Drop {
    /// The bytes of each live block.
    ghost blocks: { Self → BlockRef → Option (List ℕ) };

    /// Whether a pass is open, and the slab that has each number.
    ghost heap: { Self → Heap };

    /// One call of `place`, `write`, `give_back`, `stretch` or `shift`, by this store's own rule of placing.
    ghost step: { Self → Self → Type 0 };

    /// Places a block of `len` zero bytes under a reference that isn't live. It wants no move.
    ///
    /// `Memory` leaves all blocks and slabs.
    fn place(&mut self, len: usize) -> Result<BlockRef, Memory>
        ensures fresh { IfOk result (λ at. blocks self.old at ≡ None) }
        ensures placed { IfOk result (λ at. blocks self.new ≡ with_block (blocks self.old) at (Some (replicate len 0))) }
        ensures calm { IfOk result (λ at. wants (heap self.new) at ≡ false) }
        ensures pass { (heap self.new).passing ≡ (heap self.old).passing }
        ensures step { step self.old self.new }

        // Want of memory changes nothing.
        ensures err_blocks { OnErr result (blocks self.new ≡ blocks self.old) }
        ensures err_slabs { OnErr result (heap self.new ≡ heap self.old) };

    /// The bytes of a live block.
    fn bytes(&self, at: BlockRef) -> &[u8]
        requires { IsSome (blocks self.now at) }
        ensures { blocks self.now at ≡ Some result.now };

    /// Puts a piece into a live block, from the byte `from` on.
    fn write(&mut self, at: BlockRef, from: usize, piece: &[u8])
        requires live { IsSome (blocks self.old at) }
        requires room { from + length piece.now ≤ length (bytes_at (blocks self.old) at) }
        ensures written { blocks self.new ≡ with_block (blocks self.old) at (Some (overwritten (bytes_at (blocks self.old) at) from piece.now)) }
        ensures slabs { heap self.new ≡ heap self.old }
        ensures step { step self.old self.new };

    /// Puts `count` bytes of a live block, from the byte `from` on, over those from the byte `to` on. The two places may overlap.
    fn shift(&mut self, at: BlockRef, from: usize, to: usize, count: usize)
        requires live { IsSome (blocks self.old at) }
        requires inside { from + count ≤ length (bytes_at (blocks self.old) at) }
        requires room { to + count ≤ length (bytes_at (blocks self.old) at) }
        ensures shifted { blocks self.new ≡ with_block (blocks self.old) at (Some (shifted (bytes_at (blocks self.old) at) from to count)) }
        ensures slabs { heap self.new ≡ heap self.old }
        ensures step { step self.old self.new };

    /// Gives a live block another length in its place: the bytes that both lengths have stay, and zero bytes stand behind them. It
    /// takes no memory. True exactly where the block stands in a slab of the least class that holds the length; else nothing changes.
    fn stretch(&mut self, at: BlockRef, len: usize) -> bool
        requires { IsSome (blocks self.old at) }
        ensures rule { IsTrue result ↔ Stretches (heap self.old) at len }
        ensures stretched { IsTrue result → blocks self.new ≡ with_block (blocks self.old) at (Some (resized (bytes_at (blocks self.old) at) len)) }
        ensures slabs { heap self.new ≡ heap self.old }
        ensures step { step self.old self.new }

        // Another class changes nothing.
        ensures stays { result ≡ false → self.new ≡ self.old };

    /// Ends a live reference. No further block wants to move.
    fn give_back(&mut self, at: BlockRef)
        requires { IsSome (blocks self.old at) }
        ensures ended { blocks self.new ≡ with_block (blocks self.old) at None }
        ensures calm { (r : BlockRef) → wants (heap self.old) r ≡ false → wants (heap self.new) r ≡ false }
        ensures pass { (heap self.new).passing ≡ (heap self.old).passing }
        ensures step { step self.old self.new };

    /// Writes the bytes of a live block over the first ones of another.
    fn copy_block(&mut self, from: BlockRef, to: BlockRef)
        requires from_live { IsSome (blocks self.old from) }
        requires to_live { IsSome (blocks self.old to) }
        requires apart { ref_eq from to ≡ false }
        requires room { length (bytes_at (blocks self.old) from) ≤ length (bytes_at (blocks self.old) to) }
        ensures copied { blocks self.new ≡ with_block (blocks self.old) to (Some (overwritten (bytes_at (blocks self.old) to) 0 (bytes_at (blocks self.old) from))) }
        ensures slabs { heap self.new ≡ heap self.old }
        ensures served { Served step self.old self.new }
    {
        let len = self.bytes(from).len();
        let mut room = [0; AT_ONCE];
        let mut done = 0;
        while done < len {
            let piece = piece_from(self.bytes(from), done, &mut room);
            self.write(to, done, piece);
            done += piece.len();
        }
    }

    /// Lengthens a live block: the answer names its bytes, with zero bytes behind them up to `len`. By the store's rule this is a
    /// placing, a write and a return. So the answer wasn't live, and the old reference ends. The block wants no move.
    ///
    /// `Memory` leaves all blocks and slabs.
    fn lengthen(&mut self, at: BlockRef, len: usize) -> Result<BlockRef, Memory>
        requires live { IsSome (blocks self.old at) }
        requires longer { length (bytes_at (blocks self.old) at) ≤ len }
        ensures fresh { IfOk result (λ new. blocks self.old new ≡ None) }
        ensures lengthened { IfOk result (λ new. blocks self.new ≡ with_block (with_block (blocks self.old) at None) new (Some (widened (bytes_at (blocks self.old) at) len))) }
        ensures calm { IfOk result (λ new. wants (heap self.new) new ≡ false) }
        ensures pass { (heap self.new).passing ≡ (heap self.old).passing }
        ensures served { Served step self.old self.new }

        // Want of memory changes nothing.
        ensures err_blocks { OnErr result (blocks self.new ≡ blocks self.old) }
        ensures err_slabs { OnErr result (heap self.new ≡ heap self.old) }
    {
        let new = self.place(len)?;
        self.copy_block(at, new);
        self.give_back(at);
        Ok(new)
    }

    /// Begins a pass, and first ends one that is open. No block changes.
    fn begin_pass(&mut self)
        ensures blocks { blocks self.new ≡ blocks self.old }
        ensures begun { Begun (heap self.old) (heap self.new) };

    /// Whether a pass is open and the live block stands in a slab that isn't kept.
    fn wants_move(&self, at: BlockRef) -> bool
        requires { IsSome (blocks self.now at) }
        ensures { result ≡ wants (heap self.now) at };

    /// Whether no block wants to move. It looks at no block.
    fn is_calm(&self) -> bool
        ensures { MatchBool result ((r : BlockRef) → wants (heap self.now) r ≡ false) (IsWaiting (blocks self.now) (heap self.now)) };

    /// Moves a live block that wants it into a kept slab, without memory. The old reference ends, and the
    /// answer names the block from then on. `None` comes exactly where the block wants no move.
    fn move_block(&mut self, at: BlockRef) -> Option<BlockRef>
        requires { IsSome (blocks self.old at) }
        ensures moves { is_some result ≡ wants (heap self.old) at }
        ensures stays { IfNone result (self.new ≡ self.old) }
        ensures fresh { IfSome result (λ new. blocks self.old new ≡ None) }
        ensures moved { IfSome result (λ new. blocks self.new ≡ with_block (with_block (blocks self.old) at None) new (blocks self.old at)) }
        ensures slabs { IfSome result (λ new. Moves (heap self.old) (heap self.new) at new) };

    /// Ends a pass: no slab is kept any longer, and those without a block go. No block changes.
    fn end_pass(&mut self)
        ensures blocks { blocks self.new ≡ blocks self.old }
        ensures ended { heap self.new ≡ ended (heap self.old) };

    /// The size of a class, the number of its slabs and the number of blocks in them.
    fn use_of(&self, class: usize) -> ClassUse
        requires { class < 36 }
        ensures size { result.size ≡ size_of class }
        ensures slabs { result.slabs ≡ slabs_of (heap self.now) class }
        ensures used { result.used ≡ used_of (heap self.now) class };

    /// The live references are finitely many.
    ghost finite: { (s : Self) → IsFinite (blocks s) };

    /// The slabs count the live blocks, and those that want to move have room.
    ghost sound: { (s : Self) → IsSoundHeap (blocks s) (heap s) };

    /// A step is a placing, a return, a write or a stretch.
    ghost steps: { (before after : Self) → step before after → IsStep (blocks before) (heap before) (blocks after) (heap after) };
}
