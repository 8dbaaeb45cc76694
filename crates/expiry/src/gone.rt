ghost use Rattle.std.specs.Prelude.{◌≡◌, ℕ, ◌+◌, ◌<◌, ◌≤◌, [], ◌∷◌, ◌++◌, length, slice_get, Some, nat_le, IsTrue, ◌↔◌};

use blocks::BlockRef;
use std::marker::Model;

/// How many keys a cycle finds at most.
const MOST_FOUND: usize = 16;

/// The key blocks that a cycle found gone, in the order of its move: at most 16. It takes no memory.
#[derive(Drop)]
pub struct Gone {
    refs: [BlockRef; MOST_FOUND],
    len: usize,
}

impl Model for Gone {
    ghost use Rattle.std.specs.Prelude.{◌≡◌, List, length, take, ◌≤◌};
    ghost use Rattle.blocks.specs.declared.BlockRef.{BlockRef};
    ghost use Rattle.rehash_dict.specs.TableCode.{ref_code};
    ghost use Rattle.std.specs.Coded.{coded_list};

    ghost Value = { List BlockRef };

    ghost coded = { coded_list ref_code };

    ghost view = { λ gone. take gone.len gone.refs };

    ghost invariant = { λ gone. (gone.len ≤ 16) × (length gone.refs ≡ 16) };
}

impl Gone {
    /// A list without a reference.
    pub fn new() -> Gone
        ensures { result ≡ [] }
    {
        Gone {
            refs: [BlockRef { slab: 0, slot: 0 }; MOST_FOUND],
            len: 0,
        }
    }

    /// How many references there are: at most 16.
    pub fn len(&self) -> usize
        ensures value { result ≡ length self.now }
        ensures fits { result ≤ 16 }
    {
        self.len
    }

    /// Whether there is no reference.
    pub fn is_empty(&self) -> bool
        ensures { IsTrue result ↔ (self.now ≡ []) }
    {
        self.len == 0
    }

    /// The reference at an index.
    pub fn at(&self, index: usize) -> BlockRef
        requires { index < length self.now }
        ensures { slice_get self.now index ≡ Some result }
    {
        let refs = &self.refs;
        refs[index]
    }

    /// Takes all references out.
    pub(crate) fn clear(&mut self)
        ensures { self.new ≡ [] }
    {
        self.len = 0;
    }

    /// Whether there is no room for another one.
    pub(crate) fn is_full(&self) -> bool
        ensures value { result ≡ nat_le 16 (length self.now) }
        ensures fits { length self.now ≤ 16 }
    {
        self.len >= MOST_FOUND
    }

    /// Puts a reference behind the others.
    pub(crate) fn push(&mut self, key: BlockRef)
        requires { length self.old < 16 }
        ensures { self.new ≡ self.old ++ key ∷ [] }
    {
        self.refs[self.len] = key;
        self.len += 1;
    }
}
