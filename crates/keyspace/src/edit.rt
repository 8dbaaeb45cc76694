//! Values changed in their place.

ghost use Rattle.std.specs.Prelude.{◌≡◌, ℕ, [], Some, OnOk};
ghost use Rattle.blocks.specs.Blocks.{Changes, Owned, Served};
ghost use Rattle.object_codec.specs.declared.limits.Limits.{Limits};
ghost use Rattle.plain_world.specs.Worlds.{Entry, look, remove};
ghost use Rattle.plain_world.specs.Worlds as model;
ghost use Rattle.held.specs.Calls.{AllAt, StandsAt, Seeks};
ghost use Rattle.rehash_dict.specs.Grown.{Grown};
ghost use Rattle.rehash_dict.specs.Keyed.{hash_of};
ghost use Rattle.stored.specs.Owning.{no_tables};
ghost use Rattle.keyspace.specs.Values.{value_of, value_refs, value_tables, IsSound};
ghost use Rattle.keyspace.specs.Scopes.{one_key, no_key};
ghost use Rattle.keyspace.specs.Insides.{size, SettledBelow, SettlesAt};
ghost use Rattle.keyspace.specs.Commands.{Ready, KeepsTo, visible};
ghost use Rattle.keyspace.specs.Edits.{Shape, shape, Edits, MakesNew};

use crate::{Keyspace, Lifted, Value};
use blocks::{BlockStore, Memory};
use held::Sought;
use plain_model::Ctx;
use stored::Stored;

/// What is done to a value in its place. It may keep an answer.
pub trait Edit {
    /// It may be done to a value that means this.
    ghost takes: { Self → model.Value → Type 0 };

    /// What it makes of the shape of a value.
    ghost makes: { Self → Self → Shape → Shape → Type 0 };

    /// Changes a value. After want of memory it is sound, and what it means is not said. Its tables come from those that it had, and are
    /// settled where it has fewer elements.
    fn edit<B: BlockStore>(&mut self, value: &mut Value, store: &mut B) -> Result<(), Memory>
        requires owned { Owned (value_refs (B.blocks store.old) value.old) (B.blocks store.old) }
        requires sound { (limits : Limits) × (seed : ℕ) × IsSound limits seed (B.blocks store.old) value.old }
        requires takes { takes self.old (value_of (B.blocks store.old) value.old) }
        ensures sound { (limits : Limits) (seed : ℕ) → IsSound limits seed (B.blocks store.old) value.old → IsSound limits seed (B.blocks store.new) value.new }
        ensures makes { OnOk result (makes self.old self.new (shape (B.blocks store.old) value.old) (shape (B.blocks store.new) value.new)) }
        ensures grown { (limits : Limits) (seed : ℕ) → IsSound limits seed (B.blocks store.old) value.old
            → Grown (hash_of seed) (value_tables (B.blocks store.old) value.old) (value_tables (B.blocks store.new) value.new) }
        ensures settled { OnOk result
            (SettledBelow (size (value_of (B.blocks store.old) value.old)) (size (value_of (B.blocks store.new) value.new)) (value_tables (B.blocks store.new) value.new)) }
        ensures changes { Changes (B.blocks store.old) (B.blocks store.new) (value_refs (B.blocks store.old) value.old) (value_refs (B.blocks store.new) value.new) }
        ensures served { Served B.step store.old store.new };
}

/// Changes the value at a key that is there for the command, by its item number.
pub fn edit_there<E: Edit, B: BlockStore>(
    keyspace: &mut Keyspace<B>,
    at: &Ctx,
    key: &[u8],
    item: usize,
    edit: &mut E,
) -> Result<(), Memory>
    requires ready { Ready B.blocks keyspace.old at.now }
    requires there { StandsAt keyspace.old.bases (B.blocks keyspace.old.store) at.now.db key.now at.now.moment item }
    requires takes { (entry : Entry) → look (visible B.blocks keyspace.old at.now) key.now ≡ Some entry → E.takes edit.old entry.value }
    ensures edits { OnOk result (Edits E.makes edit.old edit.new B.blocks keyspace.old keyspace.new at.now key.now) }
    ensures settles { OnOk result (SettlesAt B.blocks keyspace.old keyspace.new at.now key.now) }
    ensures held { KeepsTo B.blocks B.step (one_key at.now.db key.now) keyspace.old keyspace.new }
{
    // the item number tells the key
    let _ = key;
    let lifted = keyspace.lift_at(at.db, item);
    let Lifted { db, item, value } = lifted;
    let mut value = value;
    let done = edit.edit(&mut value, &mut keyspace.store);
    keyspace.lower(Lifted { db, item, value });
    match done {
        Ok(()) => Ok(()),
        Err(error) => Err(error),
    }
}

/// Puts a value at a key, without a deadline, which is made of this one that owns no block and has no table.
pub fn edit_new<E: Edit, B: BlockStore>(
    keyspace: &mut Keyspace<B>,
    at: &Ctx,
    key: &[u8],
    sought: Sought,
    fresh: Value,
    edit: &mut E,
) -> Result<(), Memory>
    requires ready { Ready B.blocks keyspace.old at.now }
    requires seeks { Seeks keyspace.old.bases (B.blocks keyspace.old.store) at.now.db key.now sought }
    requires blank { value_refs (B.blocks keyspace.old.store) fresh ≡ [] }
    requires bare { value_tables (B.blocks keyspace.old.store) fresh ≡ no_tables }
    requires sound { IsSound keyspace.old.bases.limits keyspace.old.bases.seed (B.blocks keyspace.old.store) fresh }
    requires takes { E.takes edit.old (value_of (B.blocks keyspace.old.store) fresh) }
    ensures made { OnOk result (MakesNew E.makes edit.old edit.new B.blocks keyspace.old keyspace.new at.now key.now fresh) }
    ensures held { KeepsTo B.blocks B.step (one_key at.now.db key.now) keyspace.old keyspace.new }
{
    let mut value = fresh;
    match edit.edit(&mut value, &mut keyspace.store) {
        Ok(()) => keyspace.put_sought(at.db, key, sought, value, None),
        Err(error) => {
            value.release(&mut keyspace.store);
            Err(error)
        }
    }
}

/// Removes a key with its value, by its hash.
pub fn drop_sought<B: BlockStore>(keyspace: &mut Keyspace<B>, at: &Ctx, key: &[u8], hash: u64)
    requires ready { Ready B.blocks keyspace.old at.now }
    requires hashed { hash ≡ hash_of keyspace.old.bases.seed key.now }
    ensures world { visible B.blocks keyspace.new at.now ≡ remove (visible B.blocks keyspace.old at.now) key.now }
    ensures gone { AllAt (λ value. ⊥) keyspace.new.bases (B.blocks keyspace.new.store) at.now.db key.now }
    ensures held { KeepsTo B.blocks B.step (no_key at.now.db) keyspace.old keyspace.new }
{
    let _ = keyspace.drop_hashed(at.db, hash, key);
}
