//! The list at a key changed, or a new one put there.

ghost use Rattle.std.specs.Prelude.{◌≡◌, ℕ, [], List, None, Option, OnOk, IfOk, length};
ghost use Rattle.plain_world.specs.Worlds.{look};
ghost use Rattle.plain_model.specs.ListSteps.{or_none, keep_list};
ghost use Rattle.held.specs.Calls.{Seeks};
ghost use Rattle.keyspace.specs.Looks.{IsLook};
ghost use Rattle.keyspace.specs.Scopes.{one_key};
ghost use Rattle.keyspace.specs.Seeking.{Sees};
ghost use Rattle.keyspace.specs.Commands.{Ready, KeepsTo, visible};
ghost use Rattle.cmd_lists.specs.Found.{FoundOther};
ghost use Rattle.cmd_lists.specs.Changed.{HasList, ListItem, IsBefore, IsListThere, Counting, ListChanged, keep_any};

use crate::edits::{ListEdit, OnList};
use blocks::BlockStore;
use keyspace::{Keyspace, Look, Sought, SoughtAt, Value, drop_sought, edit_new, edit_there};
use plain_model::{Ctx, Memory};
use quicklist::Quick;

/// The item number of the list at a key that was sought.
pub fn list_sought<B: BlockStore>(
    keyspace: &Keyspace<B>,
    at: &Ctx,
    key: &[u8],
    found: SoughtAt,
) -> Look<usize>
    requires ready { Ready B.blocks keyspace.now at.now }
    requires sees { Sees B.blocks keyspace.now at.now key.now found }
    ensures { IsLook (look (visible B.blocks keyspace.now at.now) key.now ≡ None) (FoundOther (visible B.blocks keyspace.now at.now) key.now)
        (ListItem (visible B.blocks keyspace.now at.now) keyspace.now.bases (B.blocks keyspace.now.store) at.now.db key.now at.now.moment) result }
{
    // what was found tells the key
    let _ = key;
    match found.there {
        None => Look::Missing,
        Some(item) => {
            let value = keyspace.value_at(at.db, item);
            match value {
                Value::List(_) => Look::There(item),
                _ => Look::Other,
            }
        }
    }
}

/// The length of the list at a key, by its item number.
pub fn length_at<B: BlockStore>(keyspace: &Keyspace<B>, at: &Ctx, key: &[u8], item: usize) -> usize
    requires ready { Ready B.blocks keyspace.now at.now }
    requires there { ListItem (visible B.blocks keyspace.now at.now) keyspace.now.bases (B.blocks keyspace.now.store) at.now.db key.now at.now.moment item }
    ensures { (list : List (List ℕ)) → HasList (visible B.blocks keyspace.now at.now) key.now list → result ≡ length list }
{
    // the item number tells the key
    let _ = key;
    let value = keyspace.value_at(at.db, item);
    match value {
        Value::List(list) => list.len(),
        _ => unreachable!(),
    }
}

// Changes the list at a key that was sought, or where nothing stands a new one, which is put there, also without an element.
fn edit_list<E: ListEdit, B: BlockStore>(
    keyspace: &mut Keyspace<B>,
    at: &Ctx,
    key: &[u8],
    sought: Sought,
    there: Option<usize>,
    on: &mut OnList<E>,
) -> Result<(), Memory>
    requires ready { Ready B.blocks keyspace.old at.now }
    requires seeks { Seeks keyspace.old.bases (B.blocks keyspace.old.store) at.now.db key.now sought }
    requires there { IsListThere (visible B.blocks keyspace.old at.now) keyspace.old.bases (B.blocks keyspace.old.store) at.now.db key.now at.now.moment there }
    requires takes { (before : Option (List (List ℕ))) → IsBefore (visible B.blocks keyspace.old at.now) key.now before → E.takes on.old.edit (or_none before) }
    ensures edited { OnOk result (ListChanged (Counting (E.makes on.old.edit on.new.edit) on.new.left) keep_any B.blocks keyspace.old keyspace.new at.now key.now) }
    ensures held { KeepsTo B.blocks B.step (one_key at.now.db key.now) keyspace.old keyspace.new }
{
    match there {
        None => {
            let alloc = keyspace.alloc();
            let fresh = Value::List(Box::new(alloc, Quick::new(alloc))?);
            edit_new(keyspace, at, key, sought, fresh, on)
        }
        Some(item) => edit_there(keyspace, at, key, item, on),
    }
}

/// Changes the list at a key that was sought, by its item number, or where nothing stands a new one, which is put there. The key
/// is removed where no element is left. The edit is handed back.
pub fn change_list<E: ListEdit, B: BlockStore>(
    keyspace: &mut Keyspace<B>,
    at: &Ctx,
    key: &[u8],
    sought: Sought,
    there: Option<usize>,
    edit: E,
) -> Result<E, Memory>
    requires ready { Ready B.blocks keyspace.old at.now }
    requires seeks { Seeks keyspace.old.bases (B.blocks keyspace.old.store) at.now.db key.now sought }
    requires there { IsListThere (visible B.blocks keyspace.old at.now) keyspace.old.bases (B.blocks keyspace.old.store) at.now.db key.now at.now.moment there }
    requires takes { (before : Option (List (List ℕ))) → IsBefore (visible B.blocks keyspace.old at.now) key.now before → E.takes edit (or_none before) }
    ensures changed { IfOk result (λ last. ListChanged (E.makes edit last) keep_list B.blocks keyspace.old keyspace.new at.now key.now) }
    ensures held { KeepsTo B.blocks B.step (one_key at.now.db key.now) keyspace.old keyspace.new }
{
    let mut on = OnList { edit, left: 0 };
    edit_list(keyspace, at, key, sought, there, &mut on)?;
    let OnList { edit, left } = on;
    if left > 0 {
        return Ok(edit);
    }
    drop_sought(keyspace, at, key, sought.hash);
    Ok(edit)
}
