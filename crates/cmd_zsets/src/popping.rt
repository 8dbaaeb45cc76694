//! Commands that take members off a sorted set in its order.

ghost use Rattle.std.specs.Prelude.{◌≡◌, ◌+◌, ◌≤◌, [], ◌∷◌, true, Some, IsSome, IfOk, OnOk};
ghost use Rattle.std.specs.FinMap.{len};
ghost use Rattle.blocks.specs.Blocks.{Changes, Served};
ghost use Rattle.rehash_dict.specs.Grown.{Grown};
ghost use Rattle.rehash_dict.specs.Keyed.{hash_of};
ghost use Rattle.zset_object.specs.Scored.{IsScored, KeepsSettings, scores, ranked, form_of, refs, tables};
ghost use Rattle.plain_world.specs.declared.reply.Part.TheVariants as parts;
ghost use Rattle.plain_model.specs.ListSteps.{list_range};
ghost use Rattle.plain_model.specs.ZsetSteps.{members_of, within, without_members};
ghost use Rattle.plain_model.specs.declared.zset_command.ZsetCommand.TheVariants as zsets;
ghost use Rattle.keyspace.specs.Scopes.{one_key};
ghost use Rattle.keyspace.specs.Insides.{SettledBelow, SettlesAt};
ghost use Rattle.keyspace.specs.Forms.{Formed, zset_form};
ghost use Rattle.keyspace.specs.Commands.{Ready, KeepsOrRefuses, visible};
ghost use Rattle.cmd_zsets.specs.Found.{Gives};
ghost use Rattle.cmd_zsets.specs.Spans.{in_span};
ghost use Rattle.cmd_zsets.specs.Popped.{PopsMany, DropsPart};

use crate::changing::{change_zset, zset_sought};
use crate::edits::ZsetEdit;
use crate::ranges::{by_rank, by_score, start_met};
use crate::reading::array_of;
use crate::spans::{Span, span_reply};
use blocks::BlockStore;
use keyspace::{Keyspace, Look, count_reply, seek};
use plain_model::{Ctx, Direction, Memory, Refusal, Reply, ScoreBound};
use std::alloc::Global;
use zset_object::Scored;

// Takes out the members of a span. From either end they have one range of ranks, whose place is found once.
fn take_span<B: BlockStore>(zset: &mut Scored, store: &mut B, span: Span) -> Result<(), Memory>
    requires sound { IsScored (B.blocks store.old) zset.old }
    requires inside { span.start + span.count ≤ len (scores (B.blocks store.old) zset.old) }
    ensures sound { IsScored (B.blocks store.new) zset.new }
    ensures settings { KeepsSettings zset.old zset.new }
    ensures grown { Grown (hash_of zset.old.seed) (tables (B.blocks store.old) zset.old) (tables (B.blocks store.new) zset.new) }
    ensures settled { OnOk result (SettledBelow (len (scores (B.blocks store.old) zset.old)) (len (scores (B.blocks store.new) zset.new)) (tables (B.blocks store.new) zset.new)) }
    ensures is { OnOk result (scores (B.blocks store.new) zset.new ≡ without_members (scores (B.blocks store.old) zset.old) (members_of (in_span span (ranked (B.blocks store.old) zset.old)))) }
    ensures form { form_of zset.new ≡ form_of zset.old }
    ensures changes { Changes (B.blocks store.old) (B.blocks store.new) (refs zset.old) (refs zset.new) }
    ensures served { Served B.step store.old store.new }
{
    if span.count == 0 {
        return Ok(());
    }
    let len = zset.len();
    let high = span.start + span.count;
    let low = start_met(span.from, len, span.start, high);
    let end = low + span.count;
    zset.remove_range(store, low, end)
}

/// So many members to be taken off an end of a sorted set.
#[derive(Drop)]
pub struct PopMany {
    pub from: Direction,
    pub most: u64,
    pub alloc: Global,
    /// The array of the members with their scores, in the order in which they are met.
    pub told: Option<Reply>,
}

impl ZsetEdit for PopMany {
    ghost takes = { λ pop scores. Unit {0} };

    ghost makes = { λ first last limits old from new form. PopsMany first.from first.most last.told old from new form };

    fn edit_zset<B: BlockStore>(&mut self, zset: &mut Scored, store: &mut B) -> Result<(), Memory> {
        let span = Span {
            from: self.from,
            start: 0,
            count: zset.len().min(self.most as usize),
        };
        self.told = Some(span_reply(self.alloc, store, zset, span, true)?);
        take_span(zset, store, span)
    }
}

/// The members from index a to index b to be taken out of a sorted set, and how many they are.
#[derive(Drop)]
pub struct DropRanks {
    pub a: i64,
    pub b: i64,
    pub gone: usize,
}

impl ZsetEdit for DropRanks {
    ghost takes = { λ remove scores. Unit {0} };

    ghost makes = { λ first last limits old from new form. DropsPart (λ list. list_range list first.a first.b) last.gone old from new form };

    fn edit_zset<B: BlockStore>(&mut self, zset: &mut Scored, store: &mut B) -> Result<(), Memory> {
        let span = by_rank(zset.len(), Direction::Rising, self.a, self.b);
        self.gone = span.count;
        take_span(zset, store, span)
    }
}

/// The members whose scores are within bounds to be taken out of a sorted set, and how many they are.
#[derive(Drop)]
pub struct DropScores {
    pub min: ScoreBound,
    pub max: ScoreBound,
    pub gone: usize,
}

impl ZsetEdit for DropScores {
    ghost takes = { λ remove scores. Unit {0} };

    ghost makes = { λ first last limits old from new form. DropsPart (within first.min first.max) last.gone old from new form };

    fn edit_zset<B: BlockStore>(&mut self, zset: &mut Scored, store: &mut B) -> Result<(), Memory> {
        let span = by_score(store, zset, self.min, self.max, Direction::Rising);
        self.gone = span.count;
        take_span(zset, store, span)
    }
}

// The empty array as a reply.
fn empty_array(alloc: Global) -> Result<Reply, Memory>
    ensures { IfOk result (λ reply. reply ≡ parts.Array 0 ∷ []) }
{
    let parts = array_of(alloc, 0)?;
    Ok(parts.into_reply())
}

// What was told, which is there.
fn reply_of(told: Option<Reply>) -> Result<Reply, Memory>
    requires { IsSome told }
    ensures { IfOk result (λ reply. told ≡ Some reply) }
{
    match told {
        None => unreachable!(),
        Some(reply) => Ok(reply),
    }
}

/// `ZPOPMIN key [n]` and ZPOPMAX: an array of the members that were taken off an end, each followed by its score.
#[tactic(auto, using(crate::proofs::Looking::refused_other))]
pub fn zpop<B: BlockStore>(
    keyspace: &mut Keyspace<B>,
    at: &Ctx,
    key: &[u8],
    from: Direction,
    most: Option<u64>,
) -> Result<Reply, Memory>
    requires ready { Ready B.blocks keyspace.old at.now }
    ensures gives { Gives B.blocks keyspace.old keyspace.new at.now (zsets.ZPop key.now from most) result }
    ensures kept { KeepsOrRefuses B.blocks B.step (one_key at.now.db key.now) keyspace.old keyspace.new result }
    ensures settles { IfOk result (λ reply. SettlesAt B.blocks keyspace.old keyspace.new at.now key.now) }
    ensures forms { IfOk result (λ reply. Formed B.blocks (zset_form at.now.db (visible B.blocks keyspace.old at.now) (zsets.ZPop key.now from most)) keyspace.old keyspace.new) }
{
    let alloc = keyspace.alloc();
    let found = seek(keyspace, at, key);
    let item = match zset_sought(keyspace, at, key, found) {
        Look::Other => return Reply::refused(alloc, Refusal::WrongType),
        Look::Missing => return empty_array(alloc),
        Look::There(item) => item,
    };
    let pop = PopMany {
        from,
        most: most.unwrap_or(1),
        alloc,
        told: None,
    };
    let pop = change_zset(keyspace, at, key, found.sought, Some(item), pop)?;
    reply_of(pop.told)
}

/// `ZREMRANGEBYRANK key a b`: how many members from index a to index b were taken out, where a negative index counts from the end.
#[tactic(auto, using(crate::proofs::Looking::refused_other))]
pub fn zremrangebyrank<B: BlockStore>(
    keyspace: &mut Keyspace<B>,
    at: &Ctx,
    key: &[u8],
    a: i64,
    b: i64,
) -> Result<Reply, Memory>
    requires ready { Ready B.blocks keyspace.old at.now }
    ensures gives { Gives B.blocks keyspace.old keyspace.new at.now (zsets.ZRemRangeByRank key.now a b) result }
    ensures kept { KeepsOrRefuses B.blocks B.step (one_key at.now.db key.now) keyspace.old keyspace.new result }
    ensures settles { IfOk result (λ reply. SettlesAt B.blocks keyspace.old keyspace.new at.now key.now) }
    ensures forms { IfOk result (λ reply. Formed B.blocks (zset_form at.now.db (visible B.blocks keyspace.old at.now) (zsets.ZRemRangeByRank key.now a b)) keyspace.old keyspace.new) }
{
    let alloc = keyspace.alloc();
    let found = seek(keyspace, at, key);
    let item = match zset_sought(keyspace, at, key, found) {
        Look::Other => return Reply::refused(alloc, Refusal::WrongType),
        Look::Missing => return count_reply(alloc, 0),
        Look::There(item) => item,
    };
    let remove = DropRanks { a, b, gone: 0 };
    let remove = change_zset(keyspace, at, key, found.sought, Some(item), remove)?;
    count_reply(alloc, remove.gone)
}

/// `ZREMRANGEBYSCORE key min max`: how many members whose scores are within the bounds were taken out.
#[tactic(auto, using(crate::proofs::Looking::refused_other))]
pub fn zremrangebyscore<B: BlockStore>(
    keyspace: &mut Keyspace<B>,
    at: &Ctx,
    key: &[u8],
    min: ScoreBound,
    max: ScoreBound,
) -> Result<Reply, Memory>
    requires ready { Ready B.blocks keyspace.old at.now }
    ensures gives { Gives B.blocks keyspace.old keyspace.new at.now (zsets.ZRemRangeByScore key.now min max) result }
    ensures kept { KeepsOrRefuses B.blocks B.step (one_key at.now.db key.now) keyspace.old keyspace.new result }
    ensures settles { IfOk result (λ reply. SettlesAt B.blocks keyspace.old keyspace.new at.now key.now) }
    ensures forms { IfOk result (λ reply. Formed B.blocks (zset_form at.now.db (visible B.blocks keyspace.old at.now) (zsets.ZRemRangeByScore key.now min max)) keyspace.old keyspace.new) }
{
    let alloc = keyspace.alloc();
    let found = seek(keyspace, at, key);
    let item = match zset_sought(keyspace, at, key, found) {
        Look::Other => return Reply::refused(alloc, Refusal::WrongType),
        Look::Missing => return count_reply(alloc, 0),
        Look::There(item) => item,
    };
    let remove = DropScores { min, max, gone: 0 };
    let remove = change_zset(keyspace, at, key, found.sought, Some(item), remove)?;
    count_reply(alloc, remove.gone)
}
