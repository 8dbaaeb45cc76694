ghost use Rattle.std.specs.Prelude.{◌≡◌, ◌+◌, ◌<◌, ◌≤◌, ◌++◌, Some, None, [], ◌∷◌, true, false, IfOk, OnOk, OnErr, IsSome, IfSome, IfNone, length};
ghost use Rattle.blocks.specs.Blocks.{bytes_at, overwritten, widened, with_block, Changes, Owned, Served};
ghost use Rattle.int_text.specs.Decimal.{canonical, IsI64Text};
ghost use Rattle.object_codec.specs.Names.{IsNameOf};
ghost use Rattle.plain_world.specs.Words.{longest};
ghost use Rattle.string_object.specs.Text.{text_bytes, text_refs, is_raw};
ghost use Rattle.string_object.specs.Range.{ranged};

use crate::print::print_into;
use blocks::{BlockRef, BlockStore, Memory, put_block};
use int_text::read_i64;
use object_codec::{Name, string_name};
use std::mem;

/// A string value. It owns its block in the store that each call is lent, and no other block.
///
/// The calls that make a string whole keep canonical text of a signed number of 64 bits as a number.
#[derive(Debug, Drop)]
pub enum Text {
    /// Canonical decimal text, without a block.
    Number(i64),
    /// Bytes that were written whole, in this block.
    Whole { slot: u32, slab: usize },
    /// Bytes that were made raw by a change of a part, in this block.
    Raw { slot: u32, slab: usize },
}

// A million values each carry one: the parts of a block's name stand side by side, so that no byte is left between.
const _: () = prove!(size_of::<Text>() <= 16);

// A string that was written whole, in this block.
pub(crate) fn whole(at: BlockRef) -> Text
    ensures { result ≡ Text.Whole at.slot at.slab }
{
    let BlockRef { slab, slot } = at;
    Text::Whole { slot, slab }
}

// A string that was made raw, in this block.
pub(crate) fn raw(at: BlockRef) -> Text
    ensures { result ≡ Text.Raw at.slot at.slab }
{
    let BlockRef { slab, slot } = at;
    Text::Raw { slot, slab }
}

// Lengthens a block: in its place where its slab's class holds the length, else in another place. The answer names its bytes,
// with zero bytes behind them.
fn grow<B: BlockStore>(store: &mut B, at: BlockRef, len: usize) -> Result<BlockRef, Memory>
    requires live { IsSome (B.blocks store.old at) }
    requires longer { length (bytes_at (B.blocks store.old) at) ≤ len }
    ensures bytes { IfOk result (λ new. B.blocks store.new new ≡ Some (widened (bytes_at (B.blocks store.old) at) len)) }
    ensures changes { IfOk result (λ new. Changes (B.blocks store.old) (B.blocks store.new) (at ∷ []) (new ∷ [])) }
    ensures served { Served B.step store.old store.new }
    ensures err_blocks { OnErr result (B.blocks store.new ≡ B.blocks store.old) }
    ensures err_slabs { OnErr result (B.heap store.new ≡ B.heap store.old) }
{
    if store.stretch(at, len) {
        return Ok(at);
    }
    store.lengthen(at, len)
}

impl Text {
    /// Makes a string of these bytes. `Memory` leaves all blocks and slabs.
    pub fn make<B: BlockStore>(store: &mut B, bytes: &[u8]) -> Result<Text, Memory>
        ensures bytes { IfOk result (λ text. text_bytes (B.blocks store.new) text ≡ bytes.now) }
        ensures number { IfOk result (λ text. IsI64Text bytes.now → text_refs text ≡ []) }
        ensures whole { IfOk result (λ text. is_raw text ≡ false) }
        ensures changes { IfOk result (λ text. Changes (B.blocks store.old) (B.blocks store.new) [] (text_refs text)) }
        ensures served { Served B.step store.old store.new }
        ensures err_blocks { OnErr result (B.blocks store.new ≡ B.blocks store.old) }
        ensures err_slabs { OnErr result (B.heap store.new ≡ B.heap store.old) }
    {
        match read_i64(bytes) {
            Some(n) => Ok(Text::Number(n)),
            None => Ok(whole(put_block(store, bytes)?)),
        }
    }

    /// The bytes of the string. A number is printed into the room given.
    pub fn bytes<'a, B: BlockStore>(&'a self, store: &'a B, room: &'a mut [u8; 20]) -> &'a [u8]
        requires { Owned (text_refs self.now) (B.blocks store.now) }
        ensures { result.now ≡ text_bytes (B.blocks store.now) self.now }
    {
        match *self {
            Text::Number(n) => print_into(n, room),
            Text::Whole { slot, slab } | Text::Raw { slot, slab } => {
                store.bytes(BlockRef { slab, slot })
            }
        }
    }

    /// The number whose canonical decimal text the string is, and `None` where it is none of 64 bits with a sign.
    pub fn number<B: BlockStore>(&self, store: &B) -> Option<i64>
        requires { Owned (text_refs self.now) (B.blocks store.now) }
        ensures number { IfSome result (λ n. text_bytes (B.blocks store.now) self.now ≡ canonical n) }
        ensures none { IfNone result (¬ (IsI64Text (text_bytes (B.blocks store.now) self.now))) }
    {
        match *self {
            Text::Number(n) => Some(n),
            Text::Whole { slot, slab } | Text::Raw { slot, slab } => {
                read_i64(store.bytes(BlockRef { slab, slot }))
            }
        }
    }

    /// The encoding of the string: raw where it was made so, else by its bytes.
    pub fn name<B: BlockStore>(&self, store: &B) -> Name
        requires { Owned (text_refs self.now) (B.blocks store.now) }
        ensures { IsNameOf (text_bytes (B.blocks store.now) self.now) (is_raw self.now) result }
    {
        match *self {
            Text::Number(_n) => Name::Int,
            Text::Whole { slot, slab } => string_name(store.bytes(BlockRef { slab, slot }), false),
            Text::Raw { .. } => Name::Raw,
        }
    }

    // Places a block of the string's bytes.
    fn place_same<B: BlockStore>(&self, store: &mut B) -> Result<BlockRef, Memory>
        requires { Owned (text_refs self.now) (B.blocks store.old) }
        ensures placed { IfOk result (λ at. B.blocks store.new at ≡ Some (text_bytes (B.blocks store.old) self.now)) }
        ensures changes { IfOk result (λ at. Changes (B.blocks store.old) (B.blocks store.new) [] (at ∷ [])) }
        ensures served { Served B.step store.old store.new }
        ensures err_blocks { OnErr result (B.blocks store.new ≡ B.blocks store.old) }
        ensures err_slabs { OnErr result (B.heap store.new ≡ B.heap store.old) }
    {
        let len = self.len(store);
        self.place_copy(store, len)
    }

    /// Another string of the same bytes in a block of its own, where it has one. Its encoding is the same. `Memory` leaves all
    /// blocks and slabs.
    pub fn copy<B: BlockStore>(&self, store: &mut B) -> Result<Text, Memory>
        requires { Owned (text_refs self.now) (B.blocks store.old) }
        ensures bytes { IfOk result (λ text. text_bytes (B.blocks store.new) text ≡ text_bytes (B.blocks store.old) self.now) }
        ensures raw { IfOk result (λ text. is_raw text ≡ is_raw self.now) }
        ensures number { IfOk result (λ text. length (text_refs text) ≡ length (text_refs self.now)) }
        ensures changes { IfOk result (λ text. Changes (B.blocks store.old) (B.blocks store.new) [] (text_refs text)) }
        ensures served { Served B.step store.old store.new }
        ensures err_blocks { OnErr result (B.blocks store.new ≡ B.blocks store.old) }
        ensures err_slabs { OnErr result (B.heap store.new ≡ B.heap store.old) }
    {
        match *self {
            Text::Number(n) => Ok(Text::Number(n)),
            Text::Whole { .. } => Ok(whole(self.place_same(store)?)),
            Text::Raw { .. } => Ok(raw(self.place_same(store)?)),
        }
    }

    /// Gives back all blocks of the string.
    pub fn release<B: BlockStore>(self, store: &mut B)
        requires { Owned (text_refs self) (B.blocks store.old) }
        ensures changes { Changes (B.blocks store.old) (B.blocks store.new) (text_refs self) [] }
        ensures served { Served B.step store.old store.new }
    {
        match self {
            Text::Number(_) => {}
            Text::Whole { slot, slab } | Text::Raw { slot, slab } => {
                store.give_back(BlockRef { slab, slot })
            }
        }
    }

    /// Makes the string the text of a number. Its block is given back.
    pub fn set_number<B: BlockStore>(&mut self, store: &mut B, n: i64)
        requires { Owned (text_refs self.old) (B.blocks store.old) }
        ensures bytes { text_bytes (B.blocks store.new) self.new ≡ canonical n }
        ensures number { text_refs self.new ≡ [] }
        ensures whole { is_raw self.new ≡ false }
        ensures changes { Changes (B.blocks store.old) (B.blocks store.new) (text_refs self.old) (text_refs self.new) }
        ensures served { Served B.step store.old store.new }
    {
        mem::replace(self, Text::Number(n)).release(store);
    }

    // The number of its bytes.
    fn len<B: BlockStore>(&self, store: &B) -> usize
        requires { Owned (text_refs self.now) (B.blocks store.now) }
        ensures { result ≡ length (text_bytes (B.blocks store.now) self.now) }
    {
        let mut room = [0; 20];
        self.bytes(store, &mut room).len()
    }

    // Writes the bytes of the string over the first ones of another block.
    fn copy_to<B: BlockStore>(&self, store: &mut B, to: BlockRef)
        requires owned { Owned (to ∷ text_refs self.now) (B.blocks store.old) }
        requires room { length (text_bytes (B.blocks store.old) self.now) ≤ length (bytes_at (B.blocks store.old) to) }
        ensures copied { B.blocks store.new ≡ with_block (B.blocks store.old) to (Some (overwritten (bytes_at (B.blocks store.old) to) 0 (text_bytes (B.blocks store.old) self.now))) }
        ensures slabs { B.heap store.new ≡ B.heap store.old }
        ensures served { Served B.step store.old store.new }
    {
        match *self {
            Text::Number(n) => {
                let mut room = [0; 20];
                store.write(to, 0, print_into(n, &mut room));
            }
            Text::Whole { slot, slab } | Text::Raw { slot, slab } => {
                store.copy_block(BlockRef { slab, slot }, to)
            }
        }
    }

    // Places a block of the string's bytes with zero bytes behind them.
    fn place_copy<B: BlockStore>(&self, store: &mut B, len: usize) -> Result<BlockRef, Memory>
        requires owned { Owned (text_refs self.now) (B.blocks store.old) }
        requires room { length (text_bytes (B.blocks store.old) self.now) ≤ len }
        ensures fresh { IfOk result (λ at. B.blocks store.old at ≡ None) }
        ensures placed { IfOk result (λ at. B.blocks store.new ≡ with_block (B.blocks store.old) at (Some (widened (text_bytes (B.blocks store.old) self.now) len))) }
        ensures served { Served B.step store.old store.new }
        ensures err_blocks { OnErr result (B.blocks store.new ≡ B.blocks store.old) }
        ensures err_slabs { OnErr result (B.heap store.new ≡ B.heap store.old) }
    {
        let at = store.place(len)?;
        self.copy_to(store, at);
        Ok(at)
    }

    // A block of the string's bytes with zero bytes behind them up to the length, in place of its own. It is the old one where
    // that has the length already.
    fn reach<B: BlockStore>(&self, store: &mut B, len: usize) -> Result<BlockRef, Memory>
        requires owned { Owned (text_refs self.now) (B.blocks store.old) }
        requires room { length (text_bytes (B.blocks store.old) self.now) ≤ len }
        ensures bytes { IfOk result (λ at. B.blocks store.new at ≡ Some (widened (text_bytes (B.blocks store.old) self.now) len)) }
        ensures changes { IfOk result (λ at. Changes (B.blocks store.old) (B.blocks store.new) (text_refs self.now) (at ∷ [])) }
        ensures served { Served B.step store.old store.new }
        ensures err_blocks { OnErr result (B.blocks store.new ≡ B.blocks store.old) }
        ensures err_slabs { OnErr result (B.heap store.new ≡ B.heap store.old) }
    {
        match *self {
            Text::Number(_) => self.place_copy(store, len),
            Text::Whole { slot, slab } | Text::Raw { slot, slab } => {
                let at = BlockRef { slab, slot };
                if store.bytes(at).len() == len {
                    return Ok(at);
                }
                grow(store, at, len)
            }
        }
    }

    // Makes the string raw, with zero bytes behind its own up to the length. The answer is its block.
    fn widen<B: BlockStore>(&mut self, store: &mut B, len: usize) -> Result<BlockRef, Memory>
        requires owned { Owned (text_refs self.old) (B.blocks store.old) }
        requires room { length (text_bytes (B.blocks store.old) self.old) ≤ len }
        ensures raw { IfOk result (λ at. self.new ≡ Text.Raw at.slot at.slab) }
        ensures bytes { IfOk result (λ at. B.blocks store.new at ≡ Some (widened (text_bytes (B.blocks store.old) self.old) len)) }
        ensures changes { Changes (B.blocks store.old) (B.blocks store.new) (text_refs self.old) (text_refs self.new) }
        ensures served { Served B.step store.old store.new }

        // Want of memory changes nothing.
        ensures err_text { OnErr result (self.new ≡ self.old) }
        ensures err_blocks { OnErr result (B.blocks store.new ≡ B.blocks store.old) }
        ensures err_slabs { OnErr result (B.heap store.new ≡ B.heap store.old) }
    {
        let at = self.reach(store, len)?;
        *self = raw(at);
        Ok(at)
    }

    /// Appends bytes, and makes the string raw. The answer is the new length in bytes, which is at most 536,870,912.
    ///
    /// `Memory` leaves the string, all blocks and slabs.
    pub fn append<B: BlockStore>(&mut self, store: &mut B, tail: &[u8]) -> Result<u64, Memory>
        requires owned { Owned (text_refs self.old) (B.blocks store.old) }
        requires room { length (text_bytes (B.blocks store.old) self.old) + length tail.now ≤ longest }
        ensures bytes { OnOk result (text_bytes (B.blocks store.new) self.new ≡ text_bytes (B.blocks store.old) self.old ++ tail.now) }
        ensures len { IfOk result (λ len. len ≡ length (text_bytes (B.blocks store.new) self.new)) }
        ensures raw { OnOk result (is_raw self.new ≡ true) }
        ensures changes { Changes (B.blocks store.old) (B.blocks store.new) (text_refs self.old) (text_refs self.new) }
        ensures served { Served B.step store.old store.new }

        // Want of memory changes nothing.
        ensures err_text { OnErr result (self.new ≡ self.old) }
        ensures err_blocks { OnErr result (B.blocks store.new ≡ B.blocks store.old) }
        ensures err_slabs { OnErr result (B.heap store.new ≡ B.heap store.old) }
    {
        let old_len = self.len(store);
        let new_len = old_len + tail.len();
        let at = self.widen(store, new_len)?;
        store.write(at, old_len, tail);
        Ok(new_len as u64)
    }

    /// Writes a piece over the bytes from `at` on, and makes the string raw. Zero bytes fill a gap before the piece. The
    /// answer is the new length in bytes. The piece ends at byte 536,870,912 at most. An empty piece changes nothing.
    ///
    /// `Memory` leaves the string, all blocks and slabs.
    pub fn set_range<B: BlockStore>(
        &mut self,
        store: &mut B,
        at: u64,
        piece: &[u8],
    ) -> Result<u64, Memory>
        requires owned { Owned (text_refs self.old) (B.blocks store.old) }
        requires room { 0 < length piece.now → at + length piece.now ≤ longest }
        ensures bytes { OnOk result (text_bytes (B.blocks store.new) self.new ≡ ranged (text_bytes (B.blocks store.old) self.old) at piece.now) }
        ensures len { IfOk result (λ len. len ≡ length (text_bytes (B.blocks store.new) self.new)) }
        ensures raw { OnOk result (0 < length piece.now → is_raw self.new ≡ true) }
        ensures changes { Changes (B.blocks store.old) (B.blocks store.new) (text_refs self.old) (text_refs self.new) }
        ensures served { Served B.step store.old store.new }

        // An empty piece changes nothing.
        ensures empty { length piece.now ≡ 0 → result ≡ Ok (length (text_bytes (B.blocks store.old) self.old)) }
        ensures empty_text { length piece.now ≡ 0 → self.new ≡ self.old }
        ensures empty_store { length piece.now ≡ 0 → store.new ≡ store.old }

        // Want of memory changes nothing.
        ensures err_text { OnErr result (self.new ≡ self.old) }
        ensures err_blocks { OnErr result (B.blocks store.new ≡ B.blocks store.old) }
        ensures err_slabs { OnErr result (B.heap store.new ≡ B.heap store.old) }
    {
        let old_len = self.len(store);
        if piece.is_empty() {
            return Ok(old_len as u64);
        }
        let start = at as usize;
        let new_len = old_len.max(start + piece.len());
        let block = self.widen(store, new_len)?;
        store.write(block, start, piece);
        Ok(new_len as u64)
    }
}
