//! The command that writes scores to a sorted set.

ghost use Rattle.std.specs.Prelude.{◌≡◌, ◌&&◌, ℕ, Bool, IfOk, OnOk, length, if◌then◌else◌};
ghost use Rattle.std.specs.FinMap.{get};
ghost use Rattle.blocks.specs.Blocks.{Changes, Served};
ghost use Rattle.rehash_dict.specs.Grown.{Grown};
ghost use Rattle.rehash_dict.specs.Keyed.{hash_of};
ghost use Rattle.zset_object.specs.Scored.{IsScored, KeepsSettings, scores, form_of, refs, tables};
ghost use Rattle.held.specs.Calls.{Seeks};
ghost use Rattle.plain_model.specs.ZsetSteps.{admits, passes, permits, differs, write_score, write_scores};
ghost use Rattle.plain_model.specs.ZsetSteps as model;
ghost use Rattle.plain_model.specs.declared.zset_command.ZsetCommand.TheVariants as zsets;
ghost use Rattle.keyspace.specs.Scopes.{one_key};
ghost use Rattle.keyspace.specs.Forms.{Formed, RisesScored, RisesUnder, zset_form, zset_to};
ghost use Rattle.keyspace.specs.Commands.{Ready, KeepsTo, KeepsOrRefuses, visible};
ghost use Rattle.cmd_zsets.specs.Found.{Gives};
ghost use Rattle.cmd_zsets.specs.Changed.{IsZsetThere};
ghost use Rattle.cmd_zsets.specs.Written.{Adds, IsAdded};

use crate::changing::{change_zset, zset_sought};
use crate::edits::ZsetEdit;
use blocks::BlockStore;
use keyspace::{Keyspace, Look, Sought, count_reply, seek};
use plain_model::{Ctx, Memory, Refusal, Reply, ScoreRules, Word};
use zset_object::Scored;

/// Whether the rules admit a member that has this score, or none.
pub fn is_admitted(rules: ScoreRules, old: Option<i64>) -> bool
    ensures { result ≡ admits rules old }
{
    match old {
        None => !rules.xx,
        Some(_) => !rules.nx,
    }
}

/// Whether the rules let a member that has this score, or none, get the new one.
pub fn is_passed(rules: ScoreRules, old: Option<i64>, new: i64) -> bool
    ensures { result ≡ passes rules old new }
{
    match old {
        None => true,
        Some(score) => (!rules.gt || score < new) && (!rules.lt || new < score),
    }
}

// Whether the new score is another one, or the first.
fn is_other(old: Option<i64>, new: i64) -> bool
    ensures { result ≡ differs old new }
{
    match old {
        None => true,
        Some(score) => score < new || new < score,
    }
}

// Whether a score is written.
fn is_permitted(rules: ScoreRules, old: Option<i64>, new: i64) -> bool
    ensures { result ≡ permits rules old new }
{
    is_admitted(rules, old) && is_passed(rules, old, new)
}

// Writes a score where the rules permit it, and answers whether it is another one then, or the first.
#[tactic(auto, using(crate::proofs::Rests::left_sound, crate::proofs::Rests::left_changes, crate::proofs::Rests::left_settings, crate::proofs::Rests::left_grown))]
fn write_one<B: BlockStore>(
    zset: &mut Scored,
    store: &mut B,
    rules: ScoreRules,
    score: i64,
    member: &[u8],
) -> Result<bool, Memory>
    requires { IsScored (B.blocks store.old) zset.old }
    ensures sound { IsScored (B.blocks store.new) zset.new }
    ensures settings { KeepsSettings zset.old zset.new }
    ensures grown { Grown (hash_of zset.old.seed) (tables (B.blocks store.old) zset.old) (tables (B.blocks store.new) zset.new) }
    ensures is { OnOk result (scores (B.blocks store.new) zset.new ≡ write_score rules (scores (B.blocks store.old) zset.old) (score, member.now)) }
    ensures changed { IfOk result
        (λ changed. changed ≡ (permits rules (get (scores (B.blocks store.old) zset.old) member.now) score && differs (get (scores (B.blocks store.old) zset.old) member.now) score)) }
    ensures risen { OnOk result (RisesScored rules zset.old.limits (form_of zset.old) (scores (B.blocks store.old) zset.old) (score, member.now) (form_of zset.new)) }
    ensures changes { Changes (B.blocks store.old) (B.blocks store.new) (refs zset.old) (refs zset.new) }
    ensures served { Served B.step store.old store.new }
{
    let old = zset.score(store, member);
    if is_permitted(rules, old, score) {
        zset.set(store, member, score)?;
        return Ok(is_other(old, score));
    }
    Ok(false)
}

// Writes each score that the rules permit, one after the other, and answers how many of them are other ones then, or the first.
fn write_each<B: BlockStore>(
    zset: &mut Scored,
    store: &mut B,
    rules: ScoreRules,
    pairs: &[(i64, Word<'_>)],
) -> Result<usize, Memory>
    requires { IsScored (B.blocks store.old) zset.old }
    ensures sound { IsScored (B.blocks store.new) zset.new }
    ensures settings { KeepsSettings zset.old zset.new }
    ensures grown { Grown (hash_of zset.old.seed) (tables (B.blocks store.old) zset.old) (tables (B.blocks store.new) zset.new) }
    ensures is { OnOk result (scores (B.blocks store.new) zset.new ≡ write_scores rules (scores (B.blocks store.old) zset.old) pairs.now) }
    ensures changed { IfOk result (λ changed. changed ≡ model.changes rules (scores (B.blocks store.old) zset.old) pairs.now) }
    ensures risen { OnOk result (RisesUnder rules zset.old.limits (form_of zset.old) (scores (B.blocks store.old) zset.old) pairs.now (form_of zset.new)) }
    ensures changes { Changes (B.blocks store.old) (B.blocks store.new) (refs zset.old) (refs zset.new) }
    ensures served { Served B.step store.old store.new }
{
    let mut changed = 0;
    for pair in pairs {
        let other = write_one(zset, store, rules, pair.0, pair.1.as_slice())?;
        changed += usize::from(other);
    }
    Ok(changed)
}

// What is counted: with CH each change, or else the new members.
fn counted(ch: bool, changed: usize, fresh: usize) -> usize
    ensures { result ≡ (if ch then changed else fresh) }
{
    if ch {
        return changed;
    }
    fresh
}

/// Scores to be written to a sorted set, and how many members are counted then.
#[derive(Drop)]
pub struct AddAll<'a> {
    pub rules: ScoreRules,
    /// Changed members are counted with the new ones.
    pub ch: bool,
    pub pairs: &'a [(i64, Word<'a>)],
    pub count: usize,
}

impl<'a> ZsetEdit for AddAll<'a> {
    ghost takes = { λ add scores. Unit {0} };

    ghost makes = { λ first last limits old from new form. Adds first.rules first.ch first.pairs.now last.count limits old from new form };

    fn edit_zset<B: BlockStore>(&mut self, zset: &mut Scored, store: &mut B) -> Result<(), Memory> {
        let before = zset.len();
        let changed = write_each(zset, store, self.rules, self.pairs)?;
        self.count = counted(self.ch, changed, zset.len().saturating_sub(before));
        Ok(())
    }
}

/// Writes scores to the sorted set at a key that was sought, by its item number, or where nothing stands to a new one: how many members
/// are counted.
pub fn add_at<B: BlockStore>(
    keyspace: &mut Keyspace<B>,
    at: &Ctx,
    key: &[u8],
    sought: Sought,
    there: Option<usize>,
    rules: ScoreRules,
    ch: bool,
    pairs: &[(i64, Word<'_>)],
) -> Result<usize, Memory>
    requires ready { Ready B.blocks keyspace.old at.now }
    requires seeks { Seeks keyspace.old.bases (B.blocks keyspace.old.store) at.now.db key.now sought }
    requires there { IsZsetThere (visible B.blocks keyspace.old at.now) keyspace.old.bases (B.blocks keyspace.old.store) at.now.db key.now at.now.moment there }
    ensures added { IfOk result (λ count. IsAdded (visible B.blocks keyspace.old at.now) key.now rules ch pairs.now count (visible B.blocks keyspace.new at.now)) }
    ensures held { KeepsTo B.blocks B.step (one_key at.now.db key.now) keyspace.old keyspace.new }
    ensures forms { IfOk result (λ count. Formed B.blocks (zset_to at.now.db (visible B.blocks keyspace.old at.now) key.now rules pairs.now) keyspace.old keyspace.new) }
{
    let add = AddAll {
        rules,
        ch,
        pairs,
        count: 0,
    };
    let add = change_zset(keyspace, at, key, sought, there, add)?;
    Ok(add.count)
}

// Writes scores to the sorted set at a key that was sought, or to a new one, which XX doesn't make.
fn add_where<B: BlockStore>(
    keyspace: &mut Keyspace<B>,
    at: &Ctx,
    key: &[u8],
    sought: Sought,
    there: Option<usize>,
    rules: ScoreRules,
    ch: bool,
    pairs: &[(i64, Word<'_>)],
) -> Result<Reply, Memory>
    requires ready { Ready B.blocks keyspace.old at.now }
    requires seeks { Seeks keyspace.old.bases (B.blocks keyspace.old.store) at.now.db key.now sought }
    requires there { IsZsetThere (visible B.blocks keyspace.old at.now) keyspace.old.bases (B.blocks keyspace.old.store) at.now.db key.now at.now.moment there }
    ensures gives { Gives B.blocks keyspace.old keyspace.new at.now (zsets.ZAdd key.now rules ch pairs.now) result }
    ensures kept { KeepsOrRefuses B.blocks B.step (one_key at.now.db key.now) keyspace.old keyspace.new result }
    ensures forms { IfOk result (λ reply. Formed B.blocks (zset_form at.now.db (visible B.blocks keyspace.old at.now) (zsets.ZAdd key.now rules ch pairs.now)) keyspace.old keyspace.new) }
{
    let alloc = keyspace.alloc();
    if rules.xx && there.is_none() {
        return count_reply(alloc, 0);
    }
    let count = add_at(keyspace, at, key, sought, there, rules, ch, pairs)?;
    count_reply(alloc, count)
}

/// `ZADD key [NX or XX] [GT or LT] [CH] score member..`: how many members are new, with CH how many are changed or new.
#[tactic(auto, using(crate::proofs::Looking::refused_other))]
pub fn zadd<B: BlockStore>(
    keyspace: &mut Keyspace<B>,
    at: &Ctx,
    key: &[u8],
    rules: ScoreRules,
    ch: bool,
    pairs: &[(i64, Word<'_>)],
) -> Result<Reply, Memory>
    requires ready { Ready B.blocks keyspace.old at.now }
    ensures gives { Gives B.blocks keyspace.old keyspace.new at.now (zsets.ZAdd key.now rules ch pairs.now) result }
    ensures kept { KeepsOrRefuses B.blocks B.step (one_key at.now.db key.now) keyspace.old keyspace.new result }
    ensures forms { IfOk result (λ reply. Formed B.blocks (zset_form at.now.db (visible B.blocks keyspace.old at.now) (zsets.ZAdd key.now rules ch pairs.now)) keyspace.old keyspace.new) }
{
    let alloc = keyspace.alloc();
    let found = seek(keyspace, at, key);
    let there = match zset_sought(keyspace, at, key, found) {
        Look::Other => return Reply::refused(alloc, Refusal::WrongType),
        Look::Missing => None,
        Look::There(item) => Some(item),
    };
    add_where(keyspace, at, key, found.sought, there, rules, ch, pairs)
}
