//! The commands that store joins of sorted sets and sets.

ghost use Rattle.std.specs.Prelude.{◌≡◌, ◌≤◌, ℕ, List, true, map, IfOk, OnOk};
ghost use Rattle.std.specs.FinMap.{entries, get, insert, len};
ghost use Rattle.blocks.specs.Blocks.{Changes, Served};
ghost use Rattle.held.specs.Calls.{AllAt};
ghost use Rattle.zset_object.specs.Orders.{IsRisen};
ghost use Rattle.rehash_dict.specs.Grown.{Grown};
ghost use Rattle.rehash_dict.specs.Keyed.{hash_of};
ghost use Rattle.zset_object.specs.Scored.{IsScored, KeepsSettings, scores, refs, form_of, tables};
ghost use Rattle.plain_model.specs.ZsetSteps.{are_scores, is_score, may_zsets, store_zset};
ghost use Rattle.plain_model.specs.declared.zset_command.ZsetCommand.TheVariants as zsets;
ghost use Rattle.keyspace.specs.Scopes.{one_key};
ghost use Rattle.keyspace.specs.Forms.{Formed, IsNewZset, zset_form};
ghost use Rattle.keyspace.specs.Commands.{Ready, KeepsTo, KeepsOrRefuses, visible};
ghost use Rattle.cmd_zsets.specs.Joined.{Fills, entry_of, gathered};

use crate::changing::change_zset;
use crate::edits::ZsetEdit;
use crate::gathering::Sums;
use crate::joining::{are_sources, join_scores};
use blocks::BlockStore;
use keyspace::{Keyspace, count_reply, drop_sought, seek};
use plain_model::{Aggregate, Ctx, Memory, Refusal, Reply, ScoreJoin, Word};
use zset_object::Scored;

// The greatest magnitude of a score: 2^53.
const GREATEST: i128 = 9_007_199_254_740_992;

// Whether a sum is a score.
fn is_in_range(sum: i128) -> bool
    ensures { result ≡ is_score sum }
{
    -GREATEST <= sum && sum <= GREATEST
}

// Whether all sums are scores.
fn are_in_range(sums: &Sums) -> bool
    ensures { result ≡ are_scores (entries (gathered sums.now)) }
{
    for (_, sum) in sums {
        if !is_in_range(*sum) {
            return false;
        }
    }
    true
}

// A sum that is a score.
fn score_of(sum: i128) -> i64
    requires { is_score sum ≡ true }
    ensures { result ≡ sum }
{
    match i64::try_from(sum) {
        Ok(score) => score,
        Err(_) => unreachable!(),
    }
}

// Gives a member its score.
#[tactic(auto, using(crate::proofs::Rests::left_sound, crate::proofs::Rests::left_changes, crate::proofs::Rests::left_settings, crate::proofs::Rests::left_grown))]
fn give_score<B: BlockStore>(
    zset: &mut Scored,
    store: &mut B,
    member: &[u8],
    score: i64,
) -> Result<(), Memory>
    requires { IsScored (B.blocks store.old) zset.old }
    ensures sound { IsScored (B.blocks store.new) zset.new }
    ensures settings { KeepsSettings zset.old zset.new }
    ensures grown { Grown (hash_of zset.old.seed) (tables (B.blocks store.old) zset.old) (tables (B.blocks store.new) zset.new) }
    ensures is { OnOk result (scores (B.blocks store.new) zset.new ≡ insert (scores (B.blocks store.old) zset.old) member.now score) }
    ensures risen { OnOk result (IsRisen zset.old.limits (form_of zset.old) (insert (scores (B.blocks store.old) zset.old) member.now score) (form_of zset.new)) }
    ensures changes { Changes (B.blocks store.old) (B.blocks store.new) (refs zset.old) (refs zset.new) }
    ensures served { Served B.step store.old store.new }
{
    zset.set(store, member, score)?;
    Ok(())
}

// Gives the members their scores, one after the other.
fn fill_zset<B: BlockStore>(zset: &mut Scored, store: &mut B, sums: &mut Sums) -> Result<(), Memory>
    requires sound { IsScored (B.blocks store.old) zset.old }
    requires range { are_scores (map entry_of sums.old.entries) ≡ true }
    ensures sound { IsScored (B.blocks store.new) zset.new }
    ensures settings { KeepsSettings zset.old zset.new }
    ensures grown { Grown (hash_of zset.old.seed) (tables (B.blocks store.old) zset.old) (tables (B.blocks store.new) zset.new) }
    ensures more { OnOk result (len (scores (B.blocks store.old) zset.old) ≤ len (scores (B.blocks store.new) zset.new)) }
    ensures fills { OnOk result (Fills (gathered sums.old) zset.old.limits (scores (B.blocks store.old) zset.old) (form_of zset.old) (scores (B.blocks store.new) zset.new) (form_of zset.new)) }
    ensures changes { Changes (B.blocks store.old) (B.blocks store.new) (refs zset.old) (refs zset.new) }
    ensures served { Served B.step store.old store.new }
{
    'members: while let Some((member, sum)) = sums.pop_first() {
        give_score(zset, store, member.as_slice(), score_of(sum))?;
    }
    Ok(())
}

/// Scores to be given to the members of a sorted set.
#[derive(Drop)]
pub struct Fill {
    pub sums: Sums,
}

impl ZsetEdit for Fill {
    ghost takes = { λ fill scores. are_scores (map entry_of fill.sums.entries) ≡ true };

    ghost makes = { λ first last limits old from new form. Fills (gathered first.sums) limits old from new form };

    fn edit_zset<B: BlockStore>(&mut self, zset: &mut Scored, store: &mut B) -> Result<(), Memory> {
        fill_zset(zset, store, &mut self.sums)
    }
}

// A sorted set of these scores takes the place of whatever stands at a key; without a member nothing stands there. After want of
// memory nothing may stand there.
fn put_sums<B: BlockStore>(
    keyspace: &mut Keyspace<B>,
    at: &Ctx,
    key: &[u8],
    sums: Sums,
) -> Result<usize, Memory>
    requires ready { Ready B.blocks keyspace.old at.now }
    requires range { are_scores (entries (gathered sums)) ≡ true }
    ensures world { OnOk result (visible B.blocks keyspace.new at.now ≡ store_zset (visible B.blocks keyspace.old at.now) key.now (gathered sums)) }
    ensures counted { IfOk result (λ count. count ≡ len (gathered sums)) }
    ensures new { OnOk result (AllAt (IsNewZset (get (gathered sums)) keyspace.old.bases) keyspace.new.bases (B.blocks keyspace.new.store) at.now.db key.now) }
    ensures held { KeepsTo B.blocks B.step (one_key at.now.db key.now) keyspace.old keyspace.new }
{
    let count = sums.len();
    let gone = seek(keyspace, at, key);
    drop_sought(keyspace, at, key, gone.sought.hash);
    let found = seek(keyspace, at, key);
    let fill = Fill { sums };
    change_zset(keyspace, at, key, found.sought, None, fill)?;
    Ok(count)
}

/// `ZUNIONSTORE to n key.. [WEIGHTS score..] [AGGREGATE SUM, MIN or MAX]`, and ZINTERSTORE: the number of members of the join, which
/// takes the place of whatever stands at `to`, without a deadline. A key goes where the join has no member. A score of the join whose
/// magnitude is above 2^53 is refused, and nothing changes.
pub fn zjoin_store<B: BlockStore>(
    keyspace: &mut Keyspace<B>,
    at: &Ctx,
    join: ScoreJoin,
    to: &[u8],
    keys: &[(i64, Word<'_>)],
    how: Aggregate,
) -> Result<Reply, Memory>
    requires ready { Ready B.blocks keyspace.old at.now }
    ensures gives { IfOk result
        (λ reply. may_zsets keyspace.old.bases.seed (visible B.blocks keyspace.old at.now) (zsets.ZJoinStore join to.now keys.now how) reply (visible B.blocks keyspace.new at.now)) }
    ensures kept { KeepsOrRefuses B.blocks B.step (one_key at.now.db to.now) keyspace.old keyspace.new result }
    ensures forms { IfOk result (λ reply. Formed B.blocks (zset_form at.now.db (visible B.blocks keyspace.old at.now) (zsets.ZJoinStore join to.now keys.now how)) keyspace.old keyspace.new) }
{
    let alloc = keyspace.alloc();
    if !are_sources(keyspace, at, keys) {
        return Reply::refused(alloc, Refusal::WrongType);
    }
    let sums = join_scores(keyspace, at, join, how, keys)?;
    if !are_in_range(&sums) {
        return Reply::refused(alloc, Refusal::NotAWholeScore);
    }
    let count = put_sums(keyspace, at, to, sums)?;
    count_reply(alloc, count)
}
