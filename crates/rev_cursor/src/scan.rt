ghost use Rattle.std.specs.Prelude.{◌≡◌, ◌++◌, ℕ, List, Option, OnOk, OnErr, IfOk};
ghost use Rattle.rev_cursor.specs.Span.{Span, StartsAt};

use std::alloc::AllocError;

/// Want of memory.
pub type Memory = AllocError;

/// What can be scanned by moves, each over an interval of places.
pub trait BucketScan {
    /// Whether these can be the places of its items, by their numbers. Where a move gives all items at
    /// once, as that of a packed collection does, any places can be.
    ghost can_stand: { Self → (ℕ → Option ℕ) → Type 0 };

    /// The numbers of the items that a move at a cursor gives.
    ghost move_at: { Self → ℕ → List ℕ };

    /// The cursor behind that move.
    ghost after: { Self → ℕ → ℕ };

    /// Appends the item numbers of one move at a cursor, and answers the next cursor. `Memory` leaves
    /// what was found before.
    fn scan_at(&self, cursor: u64, found: &mut Vec<usize>) -> Result<u64, Memory>
        ensures found { OnOk result (found.new.items ≡ found.old.items ++ move_at self.now cursor) }
        ensures next { IfOk result (λ next. next ≡ after self.now cursor) }
        ensures err { OnErr result (found.new.items ≡ found.old.items) }

        // A move gives each item of its interval once, and none behind it.
        ensures spans { (place_of : ℕ → Option ℕ) → can_stand self.now place_of → Span place_of cursor (after self.now cursor) (move_at self.now cursor) }

        // A move at a cursor that was answered gives no item before that cursor.
        ensures starts { (place_of : ℕ → Option ℕ) → can_stand self.now place_of → StartsAt place_of (after self.now cursor) (move_at self.now (after self.now cursor)) };
}
