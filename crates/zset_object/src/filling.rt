// Tables of scores that are filled from a listpack.

ghost use Rattle.std.specs.Prelude.{◌≡◌, length, IfOk, OnErr};
ghost use Rattle.blocks.specs.Blocks.{Served};
ghost use Rattle.pack_pairs.specs.Pairs.{pairs};
ghost use Rattle.zset_object.specs.Packed.{IsScorePack, scores_in};
ghost use Rattle.zset_object.specs.Scored.{IsPlacedTable};

use crate::packs::entry_at;
use blocks::{BlockStore, Memory};
use itoa::Buffer;
use pack_pairs::{first_place, next_place, text};
use score_table::ScoreTable;
use std::alloc::Global;

/// A table of the members and scores of a listpack, of which there are so many, put in in their order. `Memory` leaves all blocks.
pub(crate) fn table_of_pack<B: BlockStore>(
    alloc: Global,
    seed: u64,
    store: &mut B,
    bytes: &[u8],
    count: usize,
) -> Result<ScoreTable, Memory>
    requires pack { IsScorePack bytes.now }
    requires count { count ≡ length (pairs bytes.now) }
    ensures placed { IfOk result (λ table. IsPlacedTable (B.blocks store.old) (B.blocks store.new) seed table (scores_in bytes.now)) }
    ensures served { Served B.step store.old store.new }
    ensures err_blocks { OnErr result (B.blocks store.new ≡ B.blocks store.old) }
{
    let mut table = ScoreTable::new(alloc, seed);
    let mut next = first_place(bytes);
    for _ in 0..count {
        match next {
            Some(at) => {
                let (element, score) = entry_at(bytes, at);
                let mut room = Buffer::new();
                if let Err(error) = table.add(store, score, text(element, &mut room)) {
                    table.release(store);
                    return Err(error);
                }
                next = next_place(bytes, at);
            }
            None => unreachable!(),
        }
    }
    Ok(table)
}
