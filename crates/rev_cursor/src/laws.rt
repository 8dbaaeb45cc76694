ghost use Rattle.std.specs.Prelude.{◌≡◌, ◌^◌, ◌<◌, ◌≤◌, ℕ, List, replicate};
ghost use Rattle.rev_cursor.specs.Place.{IsWalk, meetings, moves_over, place};

/// Law: the moves of a walk to cursor 0 have each place from the walk's start on in their intervals
/// exactly once, and no earlier one, whatever sizes the table has on the way. From cursor 0 they are
/// the whole of 0 to `2^64`.
pub fn covering_law()
    ensures once { (cursor at : ℕ) (bits : List ℕ) → IsWalk cursor bits → place cursor ≤ at → at < 2 ^ 64 → moves_over at cursor bits ≡ 1 }
    ensures none { (cursor at : ℕ) (bits : List ℕ) → IsWalk cursor bits → at < place cursor → moves_over at cursor bits ≡ 0 }
    ensures whole { (at : ℕ) (bits : List ℕ) → IsWalk 0 bits → at < 2 ^ 64 → moves_over at 0 bits ≡ 1 }

    // So no element is left out.
    ensures met { (hash : ℕ) (bits : List ℕ) → IsWalk 0 bits → 0 < meetings hash 0 bits }
{}

/// Law: over one table the moves from cursor 0 come back to it after as many as there are buckets.
pub fn one_table_law(bits: u32)
    requires { bits < 64 }
    ensures { IsWalk 0 (replicate (2 ^ bits) bits) }
{}
