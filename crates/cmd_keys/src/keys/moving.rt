//! Commands that move keys, and the one that picks some key.

ghost use Rattle.std.specs.Prelude.{◌≡◌, ◌<◌, Some, IfOk, OnOk, bytes_eq, false};
ghost use Rattle.plain_world.specs.Worlds.{Entry, look, put_in, remove};
ghost use Rattle.plain_model.specs.KeySteps as model;
ghost use Rattle.plain_model.specs.KeySteps.{IsSomeKey};
ghost use Rattle.plain_model.specs.declared.keys.KeyCommand.TheVariants as commands;
ghost use Rattle.cmd_keys.specs.Found.{Gives};
ghost use Rattle.keyspace.specs.Scopes.{two_keys};
ghost use Rattle.keyspace.specs.Forms.{AsAt, Formed, key_form};
ghost use Rattle.keyspace.specs.Commands.{Ready, KeepsTo, KeepsOrRefuses, visible};
ghost use Rattle.keyspace.specs.Seeking.{Sees};
ghost use Rattle.held.specs.Calls.{Seeks};

use crate::keys::look::{count_reply, free_place};
use blocks::BlockStore;
use keyspace::{Keyspace, Sought, SoughtAt, seek};
use plain_model::{Bytes, Ctx, Line, Memory, Refusal, Reply};
use rand_core::utils::NextWord;
use rand_pcg::Pcg32;

/// `RANDOMKEY`: some key that is there, or null where none is.
pub fn randomkey<B: BlockStore>(
    keyspace: &Keyspace<B>,
    at: &Ctx,
    dice: &mut Pcg32,
) -> Result<Reply, Memory>
    requires ready { Ready B.blocks keyspace.now at.now }
    ensures { IfOk result (λ reply. IsSomeKey (visible B.blocks keyspace.now at.now) reply) }
{
    let alloc = keyspace.alloc();
    let start = dice.next_word() as usize;
    match keyspace.pick(at.db, start, at.moment) {
        None => Reply::null(alloc),
        Some(key) => Reply::bulk(alloc, Bytes::new(alloc, key)?),
    }
}

// What stands at a key that was sought moves to another one, of the same database or of another, that was sought too.
fn move_to<B: BlockStore>(
    keyspace: &mut Keyspace<B>,
    at: &Ctx,
    from: &[u8],
    found: SoughtAt,
    number: usize,
    to: &[u8],
    place: Sought,
) -> Result<(), Memory>
    requires ready { Ready B.blocks keyspace.old at.now }
    requires sees { Sees B.blocks keyspace.old at.now from.now found }
    requires number { number < 16 }
    requires place { Seeks keyspace.old.bases (B.blocks keyspace.old.store) number to.now place }
    requires apart { (at.now.db ≡ number) × (from.now ≡ to.now) → ⊥ }
    ensures world { OnOk result
        ((entry : Entry) → look (visible B.blocks keyspace.old at.now) from.now ≡ Some entry
        → visible B.blocks keyspace.new at.now ≡ put_in (remove (visible B.blocks keyspace.old at.now) from.now) number to.now entry) }
    ensures held { KeepsTo B.blocks B.step (two_keys at.now.db from.now number to.now) keyspace.old keyspace.new }
    ensures forms { OnOk result (Formed B.blocks (AsAt at.now.db from.now) keyspace.old keyspace.new) }
{
    match keyspace.rename_sought(at.db, from, found, number, to, place) {
        Ok(_) => Ok(()),
        Err(error) => Err(error),
    }
}

// What stands at a key that was sought moves to another key of the database; the same key changes nothing.
fn rename_key<B: BlockStore>(
    keyspace: &mut Keyspace<B>,
    at: &Ctx,
    from: &[u8],
    found: SoughtAt,
    to: &[u8],
    place: Sought,
) -> Result<(), Memory>
    requires ready { Ready B.blocks keyspace.old at.now }
    requires sees { Sees B.blocks keyspace.old at.now from.now found }
    requires place { Seeks keyspace.old.bases (B.blocks keyspace.old.store) at.now.db to.now place }
    ensures world { OnOk result
        ((entry : Entry) → look (visible B.blocks keyspace.old at.now) from.now ≡ Some entry
        → visible B.blocks keyspace.new at.now ≡ model.rename (visible B.blocks keyspace.old at.now) from.now to.now entry) }
    ensures held { KeepsTo B.blocks B.step (two_keys at.now.db from.now at.now.db to.now) keyspace.old keyspace.new }
    ensures forms { OnOk result (Formed B.blocks (AsAt at.now.db from.now) keyspace.old keyspace.new) }
{
    if from == to {
        return Ok(());
    }
    move_to(keyspace, at, from, found, at.db, to, place)
}

/// `RENAME from to`: OK; what stood at the new key is replaced. An error where nothing stands at the old one.
pub fn rename<B: BlockStore>(
    keyspace: &mut Keyspace<B>,
    at: &Ctx,
    from: &[u8],
    to: &[u8],
) -> Result<Reply, Memory>
    requires ready { Ready B.blocks keyspace.old at.now }
    ensures gives { Gives B.blocks keyspace.old keyspace.new at.now (commands.Rename from.now to.now) result }
    ensures kept { KeepsOrRefuses B.blocks B.step (two_keys at.now.db from.now at.now.db to.now) keyspace.old keyspace.new result }
    ensures forms { IfOk result (λ reply. Formed B.blocks (AsAt at.now.db from.now) keyspace.old keyspace.new) }
{
    let alloc = keyspace.alloc();
    let found = seek(keyspace, at, from);
    match found.there {
        None => Reply::refused(alloc, Refusal::NoSuchKey),
        Some(_) => {
            let place = keyspace.seek(at.db, to);
            rename_key(keyspace, at, from, found, to, place)?;
            Reply::simple(alloc, Line::ok())
        }
    }
}

/// `RENAMENX from to`: 1, or 0 where something stands at the new key. An error where nothing stands at the old one.
pub fn renamenx<B: BlockStore>(
    keyspace: &mut Keyspace<B>,
    at: &Ctx,
    from: &[u8],
    to: &[u8],
) -> Result<Reply, Memory>
    requires ready { Ready B.blocks keyspace.old at.now }
    ensures gives { Gives B.blocks keyspace.old keyspace.new at.now (commands.RenameNx from.now to.now) result }
    ensures kept { KeepsOrRefuses B.blocks B.step (two_keys at.now.db from.now at.now.db to.now) keyspace.old keyspace.new result }
    ensures forms { IfOk result (λ reply. Formed B.blocks (key_form at.now.db (visible B.blocks keyspace.old at.now) (commands.RenameNx from.now to.now)) keyspace.old keyspace.new) }
{
    let alloc = keyspace.alloc();
    let found = seek(keyspace, at, from);
    match found.there {
        None => Reply::refused(alloc, Refusal::NoSuchKey),
        Some(_) => {
            match free_place(keyspace, at, to) {
                None => count_reply(alloc, 0),
                Some(place) => {
                    rename_key(keyspace, at, from, found, to, place)?;
                    count_reply(alloc, 1)
                }
            }
        }
    }
}

/// `MOVE key db`: 1, or 0 where nothing stands at the key or something stands at it in the other database. The databases
/// have to differ.
pub fn move_key<B: BlockStore>(
    keyspace: &mut Keyspace<B>,
    at: &Ctx,
    key: &[u8],
    number: usize,
) -> Result<Reply, Memory>
    requires ready { Ready B.blocks keyspace.old at.now }
    requires number { number < 16 }
    ensures gives { Gives B.blocks keyspace.old keyspace.new at.now (commands.MoveKey key.now number) result }
    ensures kept { KeepsOrRefuses B.blocks B.step (two_keys at.now.db key.now number key.now) keyspace.old keyspace.new result }
    ensures forms { IfOk result (λ reply. Formed B.blocks (key_form at.now.db (visible B.blocks keyspace.old at.now) (commands.MoveKey key.now number)) keyspace.old keyspace.new) }
{
    let alloc = keyspace.alloc();
    if number == at.db {
        return Reply::refused(alloc, Refusal::SameSourceAndDestination);
    }
    let found = seek(keyspace, at, key);
    match found.there {
        None => count_reply(alloc, 0),
        Some(_) => {
            let other = Ctx {
                db: number,
                moment: at.moment,
            };
            match free_place(keyspace, &other, key) {
                None => count_reply(alloc, 0),
                Some(place) => {
                    move_to(keyspace, at, key, found, number, key, place)?;
                    count_reply(alloc, 1)
                }
            }
        }
    }
}
