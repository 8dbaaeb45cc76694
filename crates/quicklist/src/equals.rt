// Elements that are a text taken out.

ghost use Rattle.std.specs.Prelude.{◌≡◌, ◌≤◌, ◌+◌, length, take, drop, IfOk, OnOk, OnErr};
ghost use Rattle.blocks.specs.Blocks.{Served};
ghost use Rattle.quicklist.specs.Chain.{elements, IsQuick, IsChanged};
ghost use Rattle.quicklist.specs.Equal.{equals, going, cleared, IsFrom, Removes};

use crate::exchange::end_nodes;
use crate::locate::there;
use crate::quick::Quick;
use crate::reach::{End, Reach, is_text};
use crate::rebuilt::Rebuilt;
use blocks::{BlockStore, Memory};

impl Quick {
    // How many elements from the head on are the text, up to the wanted number, and the index behind the last of them. 0 wants all.
    fn count_from_head<B: BlockStore>(
        &self,
        store: &B,
        text: &[u8],
        wanted: usize,
    ) -> (usize, usize)
        requires quick { IsQuick (B.blocks store.now) self.now }
        ensures inside { result.1 ≤ length (elements (B.blocks store.now) self.now) }
        ensures counted { equals text.now (take result.1 (elements (B.blocks store.now) self.now)) ≡ result.0 }
        ensures many { result.0 ≡ going wanted (equals text.now (elements (B.blocks store.now) self.now)) }
    {
        let mut many: usize = 0;
        let mut place = self.seek(store, 0);
        for index in 0..self.len {
            let cursor = there(place);
            if is_text(self.element(store, cursor), text) {
                many += 1;
                if many == wanted {
                    return (many, index + 1);
                }
            }
            place = self.next(store, cursor);
        }
        (many, self.len)
    }

    // How many elements from the tail on are the text, up to the wanted number, and the index of the last of them. 0 wants all.
    fn count_from_tail<B: BlockStore>(
        &self,
        store: &B,
        text: &[u8],
        wanted: usize,
    ) -> (usize, usize)
        requires quick { IsQuick (B.blocks store.now) self.now }
        ensures inside { result.1 ≤ length (elements (B.blocks store.now) self.now) }
        ensures counted { equals text.now (drop result.1 (elements (B.blocks store.now) self.now)) ≡ result.0 }
        ensures many { result.0 ≡ going wanted (equals text.now (elements (B.blocks store.now) self.now)) }
    {
        let mut many: usize = 0;
        let mut place = self.seek(store, self.len.saturating_sub(1));
        for index in (0..self.len).rev() {
            let cursor = there(place);
            if is_text(self.element(store, cursor), text) {
                many += 1;
                if many == wanted {
                    return (many, index);
                }
            }
            place = self.prev(store, cursor);
        }
        (many, 0)
    }

    // Takes out the elements of a reach, of which there are so many.
    fn clear<B: BlockStore>(
        &mut self,
        store: &mut B,
        reach: Reach<'_>,
        many: usize,
    ) -> Result<(), Memory>
        requires quick { IsQuick (B.blocks store.old) self.old }
        requires many { many + length (cleared reach 0 (elements (B.blocks store.old) self.old)) ≡ length (elements (B.blocks store.old) self.old) }
        ensures changed { OnOk result (IsChanged (B.blocks store.old) (B.blocks store.new) self.old self.new (cleared reach.entry 0 (elements (B.blocks store.old) self.old))) }
        ensures form { self.new.form ≡ self.old.form }
        ensures served { Served B.step store.old store.new }
        ensures err_list { OnErr result (self.new ≡ self.old) }
        ensures err_blocks { OnErr result (B.blocks store.new ≡ B.blocks store.old) }
    {
        let left = self.len - many;
        let mut rebuilt = Rebuilt::with_room(self.alloc, self.nodes.len())?;
        match rebuilt.add_all(self.alloc, store, &self.nodes, reach) {
            Ok(()) => {
                let count = rebuilt.replaced.len();
                end_nodes(store, &mut rebuilt.replaced, 0, count);
                self.nodes = rebuilt.nodes;
                self.len = left;
                Ok(())
            }
            Err(refused) => {
                let count = rebuilt.placed.len();
                end_nodes(store, &mut rebuilt.placed, 0, count);
                Err(refused)
            }
        }
    }

    // How many elements are the text, counted from an end up to the wanted number, and where they stand.
    fn reach_of<'a, B: BlockStore>(
        &self,
        store: &B,
        text: &'a [u8],
        end: End,
        wanted: usize,
    ) -> (usize, Reach<'a>)
        requires quick { IsQuick (B.blocks store.now) self.now }
        ensures many { result.0 ≡ going wanted (equals text.now (elements (B.blocks store.now) self.now)) }
        ensures left { result.0 + length (cleared result.1 0 (elements (B.blocks store.now) self.now)) ≡ length (elements (B.blocks store.now) self.now) }
        ensures taken { IsFrom end text.now result.0 (elements (B.blocks store.now) self.now) (cleared result.1 0 (elements (B.blocks store.now) self.now)) }
    {
        match end {
            End::Head => {
                let (many, to) = self.count_from_head(store, text, wanted);
                (many, Reach { text, from: 0, to })
            }
            End::Tail => {
                let (many, from) = self.count_from_tail(store, text, wanted);
                (
                    many,
                    Reach {
                        text,
                        from,
                        to: self.len,
                    },
                )
            }
        }
    }

    /// Takes out the elements that are this text, the first `wanted` ones from an end on, or all where there are fewer or where
    /// `wanted` is 0. Tells how many went. (Redis command reference, LREM.)
    ///
    /// It goes over the elements twice at most, and makes each node anew of which some go; the blocks of all other nodes stay.
    /// `Memory` leaves all as before.
    pub fn remove_equal<B: BlockStore>(
        &mut self,
        store: &mut B,
        text: &[u8],
        end: End,
        wanted: usize,
    ) -> Result<usize, Memory>
        requires quick { IsQuick (B.blocks store.old) self.old }
        ensures changed { OnOk result (IsChanged (B.blocks store.old) (B.blocks store.new) self.old self.new (elements (B.blocks store.new) self.new)) }
        ensures removed { IfOk result (λ many. Removes text.now end wanted many (elements (B.blocks store.old) self.old) (elements (B.blocks store.new) self.new)) }
        ensures form { self.new.form ≡ self.old.form }
        ensures served { Served B.step store.old store.new }
        ensures err_list { OnErr result (self.new ≡ self.old) }
        ensures err_blocks { OnErr result (B.blocks store.new ≡ B.blocks store.old) }
    {
        let (many, reach) = self.reach_of(store, text, end, wanted);
        if many == 0 {
            return Ok(0);
        }
        self.clear(store, reach, many)?;
        Ok(many)
    }
}
