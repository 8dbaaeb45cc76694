// Elements under item numbers.

ghost use Rattle.std.specs.Prelude.{ℕ, ◌<◌, ◌↔◌, IsTrue};
ghost use Rattle.blocks.specs.Blocks.{Blocks};

use hash_object::Fields;
use rev_cursor::BucketScan;
use set_object::Members;
use zset_object::Scored;

/// What has elements under item numbers, each under one of its own.
pub trait Items: BucketScan {
    /// It is sound over these blocks.
    ghost is_sound: { Blocks → Self → Type 0 };

    /// An element has the item number.
    ghost has_item: { Blocks → Self → ℕ → Type 0 };

    /// A number above each item number.
    fn above(&self) -> usize
        ensures { (m : Blocks) → is_sound m self.now → (at : ℕ) → has_item m self.now at → at < result };

    /// Whether an element has the item number.
    fn is_item(&self, item: usize) -> bool
        ensures { (m : Blocks) → is_sound m self.now → IsTrue result ↔ has_item m self.now item };

    /// How many elements there are. It only guides how they are drawn.
    fn count(&self) -> usize;
}

impl Items for Members {
    ghost use Rattle.std.specs.Prelude.{IsSome};
    ghost use Rattle.set_object.specs.Members.{IsMembers};
    ghost use Rattle.set_object.specs.Items.{member_at};

    ghost is_sound = { λ m set. IsMembers m set };

    ghost has_item = { λ m set at. IsSome (member_at m set at) };

    fn above(&self) -> usize {
        self.top()
    }

    fn is_item(&self, item: usize) -> bool {
        self.is_entry(item)
    }

    fn count(&self) -> usize {
        self.len()
    }
}

impl Items for Fields {
    ghost use Rattle.std.specs.Prelude.{IsSome};
    ghost use Rattle.hash_object.specs.Fields.{IsFields};
    ghost use Rattle.hash_object.specs.Items.{pair_at};

    ghost is_sound = { λ m hash. IsFields m hash };

    ghost has_item = { λ m hash at. IsSome (pair_at m hash at) };

    fn above(&self) -> usize {
        self.top()
    }

    fn is_item(&self, item: usize) -> bool {
        self.is_entry(item)
    }

    fn count(&self) -> usize {
        self.len()
    }
}

impl Items for Scored {
    ghost use Rattle.std.specs.Prelude.{IsSome};
    ghost use Rattle.zset_object.specs.Scored.{IsScored};
    ghost use Rattle.zset_object.specs.Items.{pair_at};

    ghost is_sound = { λ m zset. IsScored m zset };

    ghost has_item = { λ m zset at. IsSome (pair_at m zset at) };

    fn above(&self) -> usize {
        self.top()
    }

    fn is_item(&self, item: usize) -> bool {
        self.is_entry(item)
    }

    fn count(&self) -> usize {
        self.len()
    }
}
