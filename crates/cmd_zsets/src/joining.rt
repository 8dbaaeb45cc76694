//! Joins of sorted sets and sets.

ghost use Rattle.std.specs.Prelude.{◌≡◌, ℕ, List, is_some, IfOk, OnOk};
ghost use Rattle.std.specs.FinMap.{empty, get};
ghost use Rattle.plain_world.specs.Worlds.{look};
ghost use Rattle.plain_model.specs.OfType.{source};
ghost use Rattle.plain_model.specs.ZsetSteps.{IsJoin, scores_in, weights_of, zsets_at};
ghost use Rattle.keyspace.specs.Commands.{Ready, visible};
ghost use Rattle.cmd_zsets.specs.Joined.{gathered, met_each, scores_here};

use crate::gathering::{Meeting, Sums, add_at};
use crate::look::{set_at, zset_at};
use blocks::BlockStore;
use keyspace::{Keyspace, Look};
use plain_model::{Aggregate, Ctx, Memory, ScoreJoin, Word};

// Whether a sorted set or a set stands at a key, or nothing.
fn is_source<B: BlockStore>(keyspace: &Keyspace<B>, at: &Ctx, key: &[u8]) -> bool
    requires ready { Ready B.blocks keyspace.now at.now }
    ensures { result ≡ is_some (source scores_in empty (look (visible B.blocks keyspace.now at.now) key.now)) }
{
    match zset_at(keyspace, at, key) {
        Look::Missing => true,
        Look::There(_) => true,
        Look::Other => match set_at(keyspace, at, key) {
            Look::Missing => true,
            Look::There(_) => true,
            Look::Other => false,
        },
    }
}

/// Whether no key has a value of another type than sorted sets and sets.
pub fn are_sources<B: BlockStore>(
    keyspace: &Keyspace<B>,
    at: &Ctx,
    keys: &[(i64, Word<'_>)],
) -> bool
    requires ready { Ready B.blocks keyspace.now at.now }
    ensures { result ≡ is_some (zsets_at (visible B.blocks keyspace.now at.now) keys.now) }
{
    for key in keys {
        if !is_source(keyspace, at, key.1.as_slice()) {
            return false;
        }
    }
    true
}

// Meets what stands at each key, with its weight.
fn add_each<B: BlockStore>(
    keyspace: &Keyspace<B>,
    at: &Ctx,
    join: ScoreJoin,
    how: Aggregate,
    keys: &[(i64, Word<'_>)],
    all: &mut Sums,
) -> Result<(), Memory>
    requires ready { Ready B.blocks keyspace.now at.now }
    ensures { OnOk result
        ((member : List ℕ) → get (gathered all.new) member ≡ met_each join how (get (gathered all.old) member) (weights_of keys.now)
        (scores_here (visible B.blocks keyspace.now at.now) keys.now) member) }
{
    for key in keys {
        let meeting = Meeting {
            join,
            how,
            weight: key.0,
        };
        add_at(keyspace, at, key.1.as_slice(), meeting, all)?;
    }
    Ok(())
}

/// The join of what stands at keys, each with its weight. Each source is met once.
pub fn join_scores<B: BlockStore>(
    keyspace: &Keyspace<B>,
    at: &Ctx,
    join: ScoreJoin,
    how: Aggregate,
    keys: &[(i64, Word<'_>)],
) -> Result<Sums, Memory>
    requires ready { Ready B.blocks keyspace.now at.now }
    ensures { IfOk result (λ sums. IsJoin join how (weights_of keys.now) (scores_here (visible B.blocks keyspace.now at.now) keys.now) (gathered sums)) }
{
    let mut all = Sums::new(keyspace.alloc());
    match keys.split_first() {
        None => Ok(all),
        Some((first, others)) => {
            // all members of the first source go on
            let meeting = Meeting {
                join: ScoreJoin::Union,
                how,
                weight: first.0,
            };
            add_at(keyspace, at, first.1.as_slice(), meeting, &mut all)?;
            add_each(keyspace, at, join, how, others, &mut all)?;
            Ok(all)
        }
    }
}
