// Item numbers.

ghost use Rattle.std.specs.Prelude.{◌≡◌, ℕ, ◌<◌, [], is_some, count_by, take, IsSome, MatchOption};
ghost use Rattle.blocks.specs.Blocks.{Changes, Owned, Served};
ghost use Rattle.rehash_dict.specs.MapOf.{key_refs};
ghost use Rattle.rehash_dict.specs.Table.{item};

use blocks::BlockStore;
use rehash_dict::Dict;

/// The first item number from one on that an element has, where all are below another number.
pub fn next_item<V>(table: &Dict<V>, from: usize, top: usize) -> Option<usize>
    requires { (at : ℕ) → IsSome (item table.now at) → at < top }
    ensures { MatchOption result (count_by is_some (take from table.now.items) ≡ count_by is_some table.now.items)
        (λ at. IsSome (item table.now at) × (count_by is_some (take at table.now.items) ≡ count_by is_some (take from table.now.items))) }
{
    for at in from..top {
        if table.is_entry(at) {
            return Some(at);
        }
    }
    None
}

/// Gives back the blocks of all keys, where the values own none.
pub fn end_table<V: Drop, B: BlockStore>(store: &mut B, table: Dict<V>)
    requires { Owned (key_refs table) (B.blocks store.old) }
    ensures changes { Changes (B.blocks store.old) (B.blocks store.new) (key_refs table) [] }
    ensures served { Served B.step store.old store.new }
{
    for at in 0..table.top() {
        if table.is_entry(at) {
            store.give_back(table.entry(at).0);
        }
    }
}
