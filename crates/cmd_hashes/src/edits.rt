//! What is done to a hash in its place.

ghost use Rattle.std.specs.Prelude.{OnOk};
ghost use Rattle.std.specs.FinMap.{len};
ghost use Rattle.blocks.specs.Blocks.{Changes, Served};
ghost use Rattle.rehash_dict.specs.Grown.{Grown};
ghost use Rattle.rehash_dict.specs.Keyed.{hash_of};
ghost use Rattle.hash_object.specs.Fields.{IsFields, KeepsSettings, fields, form_of, refs, tables};
ghost use Rattle.plain_model.specs.HashSteps as model;
ghost use Rattle.keyspace.specs.Insides.{SettledBelow};
ghost use Rattle.cmd_hashes.specs.Changed.{IsHashThat, Made, MakesHash};

use blocks::BlockStore;
use hash_object::Fields;
use keyspace::{Edit, Value};
use plain_model::Memory;

/// What is done to a hash. It may keep an answer.
pub trait HashEdit: Drop {
    /// It may be done to a hash of these fields.
    ghost takes: { Self → model.Fields → Type 0 };

    /// What it makes of the fields of a hash and of its form.
    ghost makes: { Self → Self → Made };

    /// Changes a hash. After want of memory it is sound, and what it means is not said. Its tables come from those that it had, and are
    /// settled where it has fewer fields.
    fn edit_hash<B: BlockStore>(&mut self, hash: &mut Fields, store: &mut B) -> Result<(), Memory>
        requires sound { IsFields (B.blocks store.old) hash.old }
        requires takes { takes self.old (fields (B.blocks store.old) hash.old) }
        ensures sound { IsFields (B.blocks store.new) hash.new }
        ensures settings { KeepsSettings hash.old hash.new }
        ensures grown { Grown (hash_of hash.old.seed) (tables (B.blocks store.old) hash.old) (tables (B.blocks store.new) hash.new) }
        ensures settled { OnOk result (SettledBelow (len (fields (B.blocks store.old) hash.old)) (len (fields (B.blocks store.new) hash.new)) (tables (B.blocks store.new) hash.new)) }
        ensures makes { OnOk result (makes self.old self.new hash.old.limits (fields (B.blocks store.old) hash.old) (form_of hash.old) (fields (B.blocks store.new) hash.new) (form_of hash.new)) }
        ensures changes { Changes (B.blocks store.old) (B.blocks store.new) (refs hash.old) (refs hash.new) }
        ensures served { Served B.step store.old store.new };
}

/// What is done to a value that is a hash.
#[derive(Drop)]
pub struct OnHash<E> {
    pub edit: E,
    /// How many fields are left.
    pub left: usize,
}

impl<E: HashEdit> Edit for OnHash<E> {
    ghost takes = { λ on value. IsHashThat (E.takes on.edit) value };

    ghost makes = { λ first last old new. MakesHash (E.makes first.edit last.edit) last.left old new };

    fn edit<B: BlockStore>(&mut self, value: &mut Value, store: &mut B) -> Result<(), Memory> {
        match value {
            Value::Text(_) | Value::List(_) | Value::Set(_) | Value::Zset(_) | Value::Stream(_) =>
                unreachable!(),
            Value::Hash(hash) => {
                self.edit.edit_hash(hash, store)?;
                self.left = hash.len();
                Ok(())
            }
        }
    }
}
