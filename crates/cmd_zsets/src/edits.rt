//! What is done to a sorted set in its place.

ghost use Rattle.std.specs.Prelude.{OnOk};
ghost use Rattle.std.specs.FinMap.{len};
ghost use Rattle.blocks.specs.Blocks.{Changes, Served};
ghost use Rattle.rehash_dict.specs.Grown.{Grown};
ghost use Rattle.rehash_dict.specs.Keyed.{hash_of};
ghost use Rattle.zset_object.specs.Scored.{IsScored, KeepsSettings, scores, form_of, refs, tables};
ghost use Rattle.plain_model.specs.ZsetSteps as model;
ghost use Rattle.keyspace.specs.Insides.{SettledBelow};
ghost use Rattle.cmd_zsets.specs.Changed.{IsZsetThat, Made, MakesZset};

use blocks::BlockStore;
use keyspace::{Edit, Value};
use plain_model::Memory;
use zset_object::Scored;

/// What is done to a sorted set. It may keep an answer.
pub trait ZsetEdit: Drop {
    /// It may be done to a sorted set of these scores.
    ghost takes: { Self → model.Scores → Type 0 };

    /// What it makes of the scores of a sorted set and of its form.
    ghost makes: { Self → Self → Made };

    /// Changes a sorted set. After want of memory it is sound, and what it means is not said. Its tables come from those that it had, and
    /// are settled where it has fewer members.
    fn edit_zset<B: BlockStore>(&mut self, zset: &mut Scored, store: &mut B) -> Result<(), Memory>
        requires sound { IsScored (B.blocks store.old) zset.old }
        requires takes { takes self.old (scores (B.blocks store.old) zset.old) }
        ensures sound { IsScored (B.blocks store.new) zset.new }
        ensures settings { KeepsSettings zset.old zset.new }
        ensures grown { Grown (hash_of zset.old.seed) (tables (B.blocks store.old) zset.old) (tables (B.blocks store.new) zset.new) }
        ensures settled { OnOk result (SettledBelow (len (scores (B.blocks store.old) zset.old)) (len (scores (B.blocks store.new) zset.new)) (tables (B.blocks store.new) zset.new)) }
        ensures makes { OnOk result (makes self.old self.new zset.old.limits (scores (B.blocks store.old) zset.old) (form_of zset.old) (scores (B.blocks store.new) zset.new) (form_of zset.new)) }
        ensures changes { Changes (B.blocks store.old) (B.blocks store.new) (refs zset.old) (refs zset.new) }
        ensures served { Served B.step store.old store.new };
}

/// What is done to a value that is a sorted set.
#[derive(Drop)]
pub struct OnZset<E> {
    pub edit: E,
    /// How many members are left.
    pub left: usize,
}

impl<E: ZsetEdit> Edit for OnZset<E> {
    ghost takes = { λ on value. IsZsetThat (E.takes on.edit) value };

    ghost makes = { λ first last old new. MakesZset (E.makes first.edit last.edit) last.left old new };

    fn edit<B: BlockStore>(&mut self, value: &mut Value, store: &mut B) -> Result<(), Memory> {
        match value {
            Value::Text(_) | Value::List(_) | Value::Set(_) | Value::Hash(_) | Value::Stream(_) =>
                unreachable!(),
            Value::Zset(zset) => {
                self.edit.edit_zset(zset, store)?;
                self.left = zset.len();
                Ok(())
            }
        }
    }
}
