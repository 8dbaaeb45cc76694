//! The hash at a key changed, or a new one put there.

ghost use Rattle.std.specs.Prelude.{◌≡◌, ℕ, [], List, None, Option, OnOk, IfOk};
ghost use Rattle.plain_world.specs.Worlds.{look};
ghost use Rattle.plain_model.specs.HashSteps.{or_no_fields, keep_hash};
ghost use Rattle.plain_model.specs.HashSteps as model;
ghost use Rattle.held.specs.Calls.{Seeks};
ghost use Rattle.keyspace.specs.Looks.{IsLook};
ghost use Rattle.keyspace.specs.Scopes.{one_key};
ghost use Rattle.keyspace.specs.Insides.{SettlesAt};
ghost use Rattle.keyspace.specs.Seeking.{Sees};
ghost use Rattle.keyspace.specs.Commands.{Ready, KeepsTo, visible};
ghost use Rattle.cmd_hashes.specs.Found.{FoundOther};
ghost use Rattle.cmd_hashes.specs.Changed.{HashItem, IsBefore, IsHashThere, Counting, HashChanged, keep_any};

use crate::edits::{HashEdit, OnHash};
use blocks::BlockStore;
use hash_object::Fields;
use keyspace::{Keyspace, Look, Sought, SoughtAt, Value, drop_sought, edit_new, edit_there};
use plain_model::{Ctx, Memory};

/// The item number of the hash at a key that was sought.
pub fn hash_sought<B: BlockStore>(
    keyspace: &Keyspace<B>,
    at: &Ctx,
    key: &[u8],
    found: SoughtAt,
) -> Look<usize>
    requires ready { Ready B.blocks keyspace.now at.now }
    requires sees { Sees B.blocks keyspace.now at.now key.now found }
    ensures { IsLook (look (visible B.blocks keyspace.now at.now) key.now ≡ None) (FoundOther (visible B.blocks keyspace.now at.now) key.now)
        (HashItem (visible B.blocks keyspace.now at.now) keyspace.now.bases (B.blocks keyspace.now.store) at.now.db key.now at.now.moment) result }
{
    // what was found tells the key
    let _ = key;
    match found.there {
        None => Look::Missing,
        Some(item) => {
            let value = keyspace.value_at(at.db, item);
            match value {
                Value::Hash(_) => Look::There(item),
                _ => Look::Other,
            }
        }
    }
}

// Changes the hash at a key that was sought, or where nothing stands a new one, which is put there, also without a field.
fn edit_hash<E: HashEdit, B: BlockStore>(
    keyspace: &mut Keyspace<B>,
    at: &Ctx,
    key: &[u8],
    sought: Sought,
    there: Option<usize>,
    on: &mut OnHash<E>,
) -> Result<(), Memory>
    requires ready { Ready B.blocks keyspace.old at.now }
    requires seeks { Seeks keyspace.old.bases (B.blocks keyspace.old.store) at.now.db key.now sought }
    requires there { IsHashThere (visible B.blocks keyspace.old at.now) keyspace.old.bases (B.blocks keyspace.old.store) at.now.db key.now at.now.moment there }
    requires takes { (before : Option model.Fields) → IsBefore (visible B.blocks keyspace.old at.now) key.now before → E.takes on.old.edit (or_no_fields before) }
    ensures edited { OnOk result (HashChanged (Counting (E.makes on.old.edit on.new.edit) on.new.left) keep_any B.blocks keyspace.old keyspace.new at.now key.now) }
    ensures settles { OnOk result (SettlesAt B.blocks keyspace.old keyspace.new at.now key.now) }
    ensures held { KeepsTo B.blocks B.step (one_key at.now.db key.now) keyspace.old keyspace.new }
{
    match there {
        None => {
            let alloc = keyspace.alloc();
            let hash = Fields::new(alloc, keyspace.limits(), keyspace.seed());
            let fresh = Value::Hash(Box::new(alloc, hash)?);
            edit_new(keyspace, at, key, sought, fresh, on)
        }
        Some(item) => edit_there(keyspace, at, key, item, on),
    }
}

/// Changes the hash at a key that was sought, by its item number, or where nothing stands a new one, which is put there. The key
/// is removed where no field is left. The edit is handed back.
pub fn change_hash<E: HashEdit, B: BlockStore>(
    keyspace: &mut Keyspace<B>,
    at: &Ctx,
    key: &[u8],
    sought: Sought,
    there: Option<usize>,
    edit: E,
) -> Result<E, Memory>
    requires ready { Ready B.blocks keyspace.old at.now }
    requires seeks { Seeks keyspace.old.bases (B.blocks keyspace.old.store) at.now.db key.now sought }
    requires there { IsHashThere (visible B.blocks keyspace.old at.now) keyspace.old.bases (B.blocks keyspace.old.store) at.now.db key.now at.now.moment there }
    requires takes { (before : Option model.Fields) → IsBefore (visible B.blocks keyspace.old at.now) key.now before → E.takes edit (or_no_fields before) }
    ensures changed { IfOk result (λ last. HashChanged (E.makes edit last) keep_hash B.blocks keyspace.old keyspace.new at.now key.now) }
    ensures settles { IfOk result (λ last. SettlesAt B.blocks keyspace.old keyspace.new at.now key.now) }
    ensures held { KeepsTo B.blocks B.step (one_key at.now.db key.now) keyspace.old keyspace.new }
{
    let mut on = OnHash { edit, left: 0 };
    edit_hash(keyspace, at, key, sought, there, &mut on)?;
    let OnHash { edit, left } = on;
    if left > 0 {
        return Ok(edit);
    }
    drop_sought(keyspace, at, key, sought.hash);
    Ok(edit)
}
