//! The stream at a key changed, or a new one put there.

ghost use Rattle.std.specs.Prelude.{◌≡◌, None, Option, OnOk, IfOk};
ghost use Rattle.plain_world.specs.Worlds.{look};
ghost use Rattle.plain_world.specs.Streams as model;
ghost use Rattle.plain_model.specs.StreamSteps.{or_no_stream};
ghost use Rattle.held.specs.Calls.{Seeks};
ghost use Rattle.keyspace.specs.Looks.{IsLook};
ghost use Rattle.keyspace.specs.Scopes.{one_key};
ghost use Rattle.keyspace.specs.Seeking.{Sees};
ghost use Rattle.keyspace.specs.Commands.{Ready, KeepsTo, visible};
ghost use Rattle.cmd_streams.specs.Found.{FoundOther};
ghost use Rattle.cmd_streams.specs.Changed.{StreamItem, IsBefore, IsStreamThere, StreamChanged};

use crate::edits::{OnStream, StreamEdit};
use blocks::BlockStore;
use keyspace::{Keyspace, Look, Sought, SoughtAt, Value, edit_new, edit_there};
use plain_model::{Ctx, Memory};
use stream_object::Stream;

/// The item number of the stream at a key that was sought.
pub fn stream_sought<B: BlockStore>(
    keyspace: &Keyspace<B>,
    at: &Ctx,
    key: &[u8],
    found: SoughtAt,
) -> Look<usize>
    requires ready { Ready B.blocks keyspace.now at.now }
    requires sees { Sees B.blocks keyspace.now at.now key.now found }
    ensures { IsLook (look (visible B.blocks keyspace.now at.now) key.now ≡ None) (FoundOther (visible B.blocks keyspace.now at.now) key.now)
        (StreamItem (visible B.blocks keyspace.now at.now) keyspace.now.bases (B.blocks keyspace.now.store) at.now.db key.now at.now.moment) result }
{
    // what was found tells the key
    let _ = key;
    match found.there {
        None => Look::Missing,
        Some(item) => {
            let value = keyspace.value_at(at.db, item);
            match value {
                Value::Stream(_) => Look::There(item),
                _ => Look::Other,
            }
        }
    }
}

// Changes the stream at a key that was sought, or where nothing stands a new one, which is put there.
fn edit_stream<E: StreamEdit, B: BlockStore>(
    keyspace: &mut Keyspace<B>,
    at: &Ctx,
    key: &[u8],
    sought: Sought,
    there: Option<usize>,
    on: &mut OnStream<E>,
) -> Result<(), Memory>
    requires ready { Ready B.blocks keyspace.old at.now }
    requires seeks { Seeks keyspace.old.bases (B.blocks keyspace.old.store) at.now.db key.now sought }
    requires there { IsStreamThere (visible B.blocks keyspace.old at.now) keyspace.old.bases (B.blocks keyspace.old.store) at.now.db key.now at.now.moment there }
    requires takes { (before : Option model.Stream) → IsBefore (visible B.blocks keyspace.old at.now) key.now before → E.takes on.old.edit (or_no_stream before) }
    ensures edited { OnOk result (StreamChanged (E.makes on.old.edit on.new.edit) B.blocks keyspace.old keyspace.new at.now key.now) }
    ensures held { KeepsTo B.blocks B.step (one_key at.now.db key.now) keyspace.old keyspace.new }
{
    match there {
        None => {
            let alloc = keyspace.alloc();
            let fresh = Value::Stream(Box::new(alloc, Stream::new(alloc))?);
            edit_new(keyspace, at, key, sought, fresh, on)
        }
        Some(item) => edit_there(keyspace, at, key, item, on),
    }
}

/// Changes the stream at a key that was sought, by its item number, or where nothing stands a new one, which is put there. It stays
/// also without an entry. The edit is handed back.
pub fn change_stream<E: StreamEdit, B: BlockStore>(
    keyspace: &mut Keyspace<B>,
    at: &Ctx,
    key: &[u8],
    sought: Sought,
    there: Option<usize>,
    edit: E,
) -> Result<E, Memory>
    requires ready { Ready B.blocks keyspace.old at.now }
    requires seeks { Seeks keyspace.old.bases (B.blocks keyspace.old.store) at.now.db key.now sought }
    requires there { IsStreamThere (visible B.blocks keyspace.old at.now) keyspace.old.bases (B.blocks keyspace.old.store) at.now.db key.now at.now.moment there }
    requires takes { (before : Option model.Stream) → IsBefore (visible B.blocks keyspace.old at.now) key.now before → E.takes edit (or_no_stream before) }
    ensures changed { IfOk result (λ last. StreamChanged (E.makes edit last) B.blocks keyspace.old keyspace.new at.now key.now) }
    ensures held { KeepsTo B.blocks B.step (one_key at.now.db key.now) keyspace.old keyspace.new }
{
    let mut on = OnStream { edit };
    edit_stream(keyspace, at, key, sought, there, &mut on)?;
    Ok(on.edit)
}
