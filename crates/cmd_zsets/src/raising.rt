//! The command that adds to the score of a member.

ghost use Rattle.std.specs.Prelude.{◌≡◌, ◌+ℤ◌, [], ◌∷◌, true, false, IfOk, MatchOption};
ghost use Rattle.int_text.specs.Decimal.{canonical};
ghost use Rattle.held.specs.Calls.{Seeks};
ghost use Rattle.plain_world.specs.declared.reply.Part.TheVariants as parts;
ghost use Rattle.plain_model.specs.ZsetSteps.{is_score, or_zero, admits};
ghost use Rattle.plain_model.specs.declared.zset_command.ZsetCommand.TheVariants as zsets;
ghost use Rattle.keyspace.specs.Scopes.{one_key};
ghost use Rattle.keyspace.specs.Forms.{Formed, zset_form};
ghost use Rattle.keyspace.specs.Commands.{Ready, KeepsOrRefuses, visible};
ghost use Rattle.cmd_zsets.specs.Found.{Gives};
ghost use Rattle.cmd_zsets.specs.Changed.{IsZsetThere};
ghost use Rattle.cmd_zsets.specs.Written.{IsScoreOf};

use crate::adding::{add_at, is_admitted, is_passed};
use crate::changing::zset_sought;
use crate::there::score_there;
use blocks::BlockStore;
use itoa::Buffer;
use keyspace::{Keyspace, Look, Sought, seek};
use plain_model::{Bytes, Ctx, Memory, Refusal, Reply, ScoreRules, Word};
use std::alloc::Global;

// The greatest magnitude of a score: 2^53.
const GREATEST: i64 = 9_007_199_254_740_992;

// Whether a number is a score.
fn is_in_range(n: i64) -> bool
    ensures { result ≡ is_score n }
{
    -GREATEST <= n && n <= GREATEST
}

// The score that is so much more, where none counts as 0. `None` where its magnitude is above 2^53.
fn raised(old: Option<i64>, by: i64) -> Option<i64>
    ensures { MatchOption result (is_score (or_zero old +ℤ by) ≡ false) (λ sum. (sum ≡ or_zero old +ℤ by) × (is_score sum ≡ true)) }
{
    match old.unwrap_or(0).checked_add(by) {
        None => None,
        Some(sum) => {
            if is_in_range(sum) {
                return Some(sum);
            }
            None
        }
    }
}

/// A score as a reply: its decimal text.
pub fn score_reply(alloc: Global, score: i64) -> Result<Reply, Memory>
    ensures { IfOk result (λ reply. reply ≡ parts.Bulk (canonical score) ∷ []) }
{
    let mut room = Buffer::new();
    let text = Bytes::new(alloc, room.format(score).as_bytes())?;
    Reply::bulk(alloc, text)
}

// Writes a new score of a member, whose old one, or none, is at hand, where the rules let it pass.
fn raise_to<B: BlockStore>(
    keyspace: &mut Keyspace<B>,
    at: &Ctx,
    key: &[u8],
    sought: Sought,
    there: Option<usize>,
    rules: ScoreRules,
    by: i64,
    member: &[u8],
    old: Option<i64>,
    sum: i64,
) -> Result<Reply, Memory>
    requires ready { Ready B.blocks keyspace.old at.now }
    requires seeks { Seeks keyspace.old.bases (B.blocks keyspace.old.store) at.now.db key.now sought }
    requires there { IsZsetThere (visible B.blocks keyspace.old at.now) keyspace.old.bases (B.blocks keyspace.old.store) at.now.db key.now at.now.moment there }
    requires score { IsScoreOf (visible B.blocks keyspace.old at.now) key.now member.now old }
    requires admitted { admits rules old ≡ true }
    requires sum { sum ≡ or_zero old +ℤ by }
    requires range { is_score sum ≡ true }
    ensures gives { Gives B.blocks keyspace.old keyspace.new at.now (zsets.ZIncr key.now rules by member.now) result }
    ensures kept { KeepsOrRefuses B.blocks B.step (one_key at.now.db key.now) keyspace.old keyspace.new result }
    ensures forms { IfOk result (λ reply. Formed B.blocks (zset_form at.now.db (visible B.blocks keyspace.old at.now) (zsets.ZIncr key.now rules by member.now)) keyspace.old keyspace.new) }
{
    let alloc = keyspace.alloc();
    if !is_passed(rules, old, sum) {
        return Reply::null(alloc);
    }
    let pair = (sum, Word::new(member));
    add_at(keyspace, at, key, sought, there, rules, false, &[pair])?;
    score_reply(alloc, sum)
}

// Adds to the score of a member, which, or none, is at hand.
fn raise_from<B: BlockStore>(
    keyspace: &mut Keyspace<B>,
    at: &Ctx,
    key: &[u8],
    sought: Sought,
    there: Option<usize>,
    rules: ScoreRules,
    by: i64,
    member: &[u8],
    old: Option<i64>,
) -> Result<Reply, Memory>
    requires ready { Ready B.blocks keyspace.old at.now }
    requires seeks { Seeks keyspace.old.bases (B.blocks keyspace.old.store) at.now.db key.now sought }
    requires there { IsZsetThere (visible B.blocks keyspace.old at.now) keyspace.old.bases (B.blocks keyspace.old.store) at.now.db key.now at.now.moment there }
    requires score { IsScoreOf (visible B.blocks keyspace.old at.now) key.now member.now old }
    ensures gives { Gives B.blocks keyspace.old keyspace.new at.now (zsets.ZIncr key.now rules by member.now) result }
    ensures kept { KeepsOrRefuses B.blocks B.step (one_key at.now.db key.now) keyspace.old keyspace.new result }
    ensures forms { IfOk result (λ reply. Formed B.blocks (zset_form at.now.db (visible B.blocks keyspace.old at.now) (zsets.ZIncr key.now rules by member.now)) keyspace.old keyspace.new) }
{
    if !is_admitted(rules, old) {
        return Reply::null(keyspace.alloc());
    }
    match raised(old, by) {
        None => Reply::refused(keyspace.alloc(), Refusal::NotAWholeScore),
        Some(sum) => raise_to(
            keyspace, at, key, sought, there, rules, by, member, old, sum,
        ),
    }
}

/// `ZADD key [NX or XX] [GT or LT] [CH] INCR score member`, and `ZINCRBY key score member`: the score that is so much more, where a
/// member that isn't there counts as 0, or null where the rules don't let it be written. A score whose magnitude is above 2^53 is
/// refused.
#[tactic(auto, using(crate::proofs::Looking::refused_other))]
pub fn zincr<B: BlockStore>(
    keyspace: &mut Keyspace<B>,
    at: &Ctx,
    key: &[u8],
    rules: ScoreRules,
    by: i64,
    member: &[u8],
) -> Result<Reply, Memory>
    requires ready { Ready B.blocks keyspace.old at.now }
    ensures gives { Gives B.blocks keyspace.old keyspace.new at.now (zsets.ZIncr key.now rules by member.now) result }
    ensures kept { KeepsOrRefuses B.blocks B.step (one_key at.now.db key.now) keyspace.old keyspace.new result }
    ensures forms { IfOk result (λ reply. Formed B.blocks (zset_form at.now.db (visible B.blocks keyspace.old at.now) (zsets.ZIncr key.now rules by member.now)) keyspace.old keyspace.new) }
{
    let alloc = keyspace.alloc();
    let found = seek(keyspace, at, key);
    let there = match zset_sought(keyspace, at, key, found) {
        Look::Other => return Reply::refused(alloc, Refusal::WrongType),
        Look::Missing => None,
        Look::There(item) => Some(item),
    };
    let old = score_there(keyspace, at, key, there, member);
    raise_from(
        keyspace,
        at,
        key,
        found.sought,
        there,
        rules,
        by,
        member,
        old,
    )
}
