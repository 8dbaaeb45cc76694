//! What is done to a set in its place.

ghost use Rattle.std.specs.Prelude.{◌≡◌, OnOk};
ghost use Rattle.std.specs.FinMap.{len};
ghost use Rattle.blocks.specs.Blocks.{Changes, Served};
ghost use Rattle.object_codec.specs.declared.form.Form.{Form};
ghost use Rattle.object_codec.specs.declared.limits.Limits.{Limits};
ghost use Rattle.rehash_dict.specs.Grown.{Grown};
ghost use Rattle.rehash_dict.specs.Keyed.{hash_of};
ghost use Rattle.set_object.specs.Members.{IsMembers, KeepsSettings, members, refs, form_of, tables};
ghost use Rattle.plain_model.specs.SetSteps as model;
ghost use Rattle.keyspace.specs.Insides.{SettledBelow};
ghost use Rattle.cmd_sets.specs.Changed.{IsSetThat, MakesSet};

use blocks::BlockStore;
use keyspace::{Edit, Value};
use plain_model::Memory;
use set_object::Members;

/// What is done to a set. It may keep an answer.
pub trait SetEdit: Drop {
    /// It may be done to a set of these members.
    ghost takes: { Self → model.Members → Type 0 };

    /// What it makes, by these limits, of the members of a set and of its form.
    ghost makes: { Limits → Self → Self → model.Members → Form → model.Members → Form → Type 0 };

    /// Changes a set. After want of memory it is sound, and what it means is not said. Its tables come from those that it had, and are
    /// settled where it has fewer members.
    fn edit_set<B: BlockStore>(&mut self, set: &mut Members, store: &mut B) -> Result<(), Memory>
        requires sound { IsMembers (B.blocks store.old) set.old }
        requires takes { takes self.old (members (B.blocks store.old) set.old) }
        ensures sound { IsMembers (B.blocks store.new) set.new }
        ensures settings { KeepsSettings set.old set.new }
        ensures grown { Grown (hash_of set.old.seed) (tables (B.blocks store.old) set.old) (tables (B.blocks store.new) set.new) }
        ensures settled { OnOk result (SettledBelow (len (members (B.blocks store.old) set.old)) (len (members (B.blocks store.new) set.new)) (tables (B.blocks store.new) set.new)) }
        ensures makes { OnOk result (makes set.old.limits self.old self.new (members (B.blocks store.old) set.old) (form_of set.old) (members (B.blocks store.new) set.new) (form_of set.new)) }
        ensures changes { Changes (B.blocks store.old) (B.blocks store.new) (refs set.old) (refs set.new) }
        ensures served { Served B.step store.old store.new };
}

/// What is done to a value that is a set.
#[derive(Drop)]
pub struct OnSet<E> {
    pub edit: E,
    /// How many members are left.
    pub left: usize,
}

// Changes a set, and counts what is left.
fn edit_counted<E: SetEdit, B: BlockStore>(
    on: &mut OnSet<E>,
    set: &mut Members,
    store: &mut B,
) -> Result<(), Memory>
    requires sound { IsMembers (B.blocks store.old) set.old }
    requires takes { E.takes on.old.edit (members (B.blocks store.old) set.old) }
    ensures sound { IsMembers (B.blocks store.new) set.new }
    ensures settings { KeepsSettings set.old set.new }
    ensures grown { Grown (hash_of set.old.seed) (tables (B.blocks store.old) set.old) (tables (B.blocks store.new) set.new) }
    ensures settled { OnOk result (SettledBelow (len (members (B.blocks store.old) set.old)) (len (members (B.blocks store.new) set.new)) (tables (B.blocks store.new) set.new)) }
    ensures makes { OnOk result (E.makes set.old.limits on.old.edit on.new.edit (members (B.blocks store.old) set.old) (form_of set.old) (members (B.blocks store.new) set.new) (form_of set.new)) }
    ensures counted { OnOk result (on.new.left ≡ len (members (B.blocks store.new) set.new)) }
    ensures changes { Changes (B.blocks store.old) (B.blocks store.new) (refs set.old) (refs set.new) }
    ensures served { Served B.step store.old store.new }
{
    on.edit.edit_set(set, store)?;
    on.left = set.len();
    Ok(())
}

impl<E: SetEdit> Edit for OnSet<E> {
    ghost takes = { λ on value. IsSetThat (E.takes on.edit) value };

    ghost makes = { λ first last old new. MakesSet (λ limits. E.makes limits first.edit last.edit) last.left old new };

    fn edit<B: BlockStore>(&mut self, value: &mut Value, store: &mut B) -> Result<(), Memory> {
        match value {
            Value::Text(_) | Value::List(_) | Value::Hash(_) | Value::Zset(_) | Value::Stream(_) =>
                unreachable!(),
            Value::Set(set) => {
                edit_counted(self, set, store)?;
                Ok(())
            }
        }
    }
}
