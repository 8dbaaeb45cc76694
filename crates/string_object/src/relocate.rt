// Strings whose blocks move.

ghost use Rattle.std.specs.Prelude.{◌≡◌, ◌==◌, ◌<◌, ◌≤◌, None, length, false, true, if◌then◌else◌};
ghost use Rattle.std.specs.List.{All};
ghost use Rattle.blocks.specs.Blocks.{Changes, Owned};
ghost use Rattle.blocks.specs.Slabs.{wants, Calmer};
ghost use Rattle.string_object.specs.Text.{text_bytes, text_refs, is_raw};

use crate::Text;
use crate::text::{raw, whole};
use blocks::{BlockRef, BlockStore, Moved, settle};

impl Text {
    /// Goes through the blocks from the mark `from` on, and moves each that wants it. The mark of a string's block is 0, so that
    /// one call passes all. It takes no memory.
    pub fn relocate_part<B: BlockStore>(&mut self, store: &mut B, from: u128, room: u32) -> Moved
        requires owned { Owned (text_refs self.old) (B.blocks store.old) }
        requires room { 32 ≤ room }
        ensures bytes { text_bytes (B.blocks store.new) self.new ≡ text_bytes (B.blocks store.old) self.old }
        ensures raw { is_raw self.new ≡ is_raw self.old }
        ensures blocks { length (text_refs self.new) ≡ length (text_refs self.old) }
        ensures changes { Changes (B.blocks store.old) (B.blocks store.new) (text_refs self.old) (text_refs self.new) }
        ensures calmer { Calmer (B.heap store.old) (B.heap store.new) }
        ensures passed { from ≡ 0 → All (λ r. wants (B.heap store.new) r ≡ false) (text_refs self.new) }
        ensures stays { 0 < from → self.new ≡ self.old }
        ensures next { result.next ≡ None }
        ensures used { result.used ≡ (if from == 0 then length (text_refs self.old) else 0) }
    {
        if from > 0 {
            return Moved {
                next: None,
                used: 0,
            };
        }
        let used = match *self {
            Text::Number(_) => 0,
            Text::Whole { slot, slab } => {
                *self = whole(settle(store, BlockRef { slab, slot }));
                1
            }
            Text::Raw { slot, slab } => {
                *self = raw(settle(store, BlockRef { slab, slot }));
                1
            }
        };
        Moved { next: None, used }
    }

    /// How many blocks the string has.
    pub fn block_count(&self) -> u32
        ensures { result ≡ length (text_refs self.now) }
    {
        match *self {
            Text::Number(_) => 0,
            Text::Whole { .. } | Text::Raw { .. } => 1,
        }
    }
}
