//! Commands that change a part of a string.

ghost use Rattle.std.specs.Prelude.{◌≡◌, ◌<◌, ◌≤◌, ◌+◌, ◌++◌, List, ℕ, [], IfOk, OnOk, length, is_some, true, if◌then◌else◌};
ghost use Rattle.plain_world.specs.Words.{longest};
ghost use Rattle.plain_world.specs.Worlds.{look};
ghost use Rattle.blocks.specs.Blocks.{Changes, Owned, Served};
ghost use Rattle.string_object.specs.Text.{text_bytes, text_refs, is_raw};
ghost use Rattle.plain_model.specs.declared.command.StringCommand.TheVariants as strings;
ghost use Rattle.keyspace.specs.Scopes.{one_key};
ghost use Rattle.held.specs.Calls.{AllAt};
ghost use Rattle.keyspace.specs.Forms.{FormedString};
ghost use Rattle.keyspace.specs.Values.{IsRaw};
ghost use Rattle.keyspace.specs.Commands.{Ready, KeepsTo, KeepsOrRefuses, visible};
ghost use Rattle.cmd_values.specs.Found.{Gives, IsThere, Becomes};
ghost use Rattle.cmd_values.specs.Changed.{changed, HasRoom};

use crate::strings::look::{length_at, length_reply, length_sought};
use crate::strings::writing::put_string;
use blocks::BlockStore;
use keyspace::{Keyspace, Lifted, Look, Value, seek};
use plain_model::{Ctx, LONGEST, Memory, Refusal, Reply};
use string_object::Text;

// What becomes of a string.
#[derive(Clone, Copy)]
enum Change<'a> {
    // These bytes stand behind it.
    Append(&'a [u8]),
    // A piece that isn't empty stands over it from a place on.
    Write(u64, &'a [u8]),
}

// Changes a string.
fn change_text<B: BlockStore>(
    text: &mut Text,
    store: &mut B,
    change: Change<'_>,
) -> Result<u64, Memory>
    requires owned { Owned (text_refs text.old) (B.blocks store.old) }
    requires room { HasRoom change (text_bytes (B.blocks store.old) text.old) }
    ensures bytes { OnOk result (text_bytes (B.blocks store.new) text.new ≡ changed change.entry (text_bytes (B.blocks store.old) text.old)) }
    ensures raw { OnOk result (is_raw text.new ≡ true) }
    ensures changes { Changes (B.blocks store.old) (B.blocks store.new) (text_refs text.old) (text_refs text.new) }
    ensures served { Served B.step store.old store.new }
{
    match change {
        Change::Append(tail) => text.append(store, tail),
        Change::Write(place, piece) => text.set_range(store, place, piece),
    }
}

// Changes the string at a key.
fn change_there<B: BlockStore>(
    keyspace: &mut Keyspace<B>,
    at: &Ctx,
    key: &[u8],
    change: Change<'_>,
) -> Result<(), Memory>
    requires ready { Ready B.blocks keyspace.old at.now }
    requires there { (bytes : List ℕ) × IsThere (visible B.blocks keyspace.old at.now) key.now bytes }
    requires room { (bytes : List ℕ) → IsThere (visible B.blocks keyspace.old at.now) key.now bytes → HasRoom change bytes }
    ensures becomes { OnOk result (Becomes (visible B.blocks keyspace.old at.now) key.now (changed change.entry) (visible B.blocks keyspace.new at.now)) }
    ensures held { KeepsTo B.blocks B.step (one_key at.now.db key.now) keyspace.old keyspace.new }
    ensures raw { OnOk result (AllAt IsRaw keyspace.new.bases (B.blocks keyspace.new.store) at.now.db key.now) }
{
    let Some(lifted) = keyspace.lift(at.db, key, at.moment) else {
        unreachable!();
    };
    let Lifted { db, item, value } = lifted;
    let mut text = value.into_text();
    let done = change_text(&mut text, &mut keyspace.store, change);
    let value = Value::Text(text);
    keyspace.lower(Lifted { db, item, value });
    match done {
        Ok(_) => Ok(()),
        Err(error) => Err(error),
    }
}

/// `APPEND key tail`: the new length in bytes, which is at most 536,870,912.
pub fn append<B: BlockStore>(
    keyspace: &mut Keyspace<B>,
    at: &Ctx,
    key: &[u8],
    tail: &[u8],
) -> Result<Reply, Memory>
    requires ready { Ready B.blocks keyspace.old at.now }
    ensures gives { Gives B.blocks keyspace.old keyspace.new at.now (strings.Append key.now tail.now) result }
    ensures kept { KeepsOrRefuses B.blocks B.step (one_key at.now.db key.now) keyspace.old keyspace.new result }
    ensures forms { IfOk result (λ reply. FormedString B.blocks at.now.db (visible B.blocks keyspace.old at.now) (strings.Append key.now tail.now) reply keyspace.old keyspace.new) }
{
    let alloc = keyspace.alloc();
    match length_at(keyspace, at, key) {
        Look::Other => Reply::refused(alloc, Refusal::WrongType),
        Look::Missing => {
            if tail.len() > LONGEST {
                return Reply::refused(alloc, Refusal::ValueOutOfRange);
            }
            put_string(keyspace, at, key, None, tail)?;
            length_reply(alloc, tail.len())
        }
        Look::There(length) => {
            let length = length + tail.len();
            if length > LONGEST {
                return Reply::refused(alloc, Refusal::ValueOutOfRange);
            }
            change_there(keyspace, at, key, Change::Append(tail))?;
            length_reply(alloc, length)
        }
    }
}

/// `SETRANGE key at piece`: the new length in bytes; the piece ends at byte 536,870,912 at most.
pub fn setrange<B: BlockStore>(
    keyspace: &mut Keyspace<B>,
    at: &Ctx,
    key: &[u8],
    place: u64,
    piece: &[u8],
) -> Result<Reply, Memory>
    requires ready { Ready B.blocks keyspace.old at.now }
    requires room { 0 < length piece.now → place + length piece.now ≤ longest }
    ensures gives { Gives B.blocks keyspace.old keyspace.new at.now (strings.SetRange key.now place piece.now) result }
    ensures kept { KeepsOrRefuses B.blocks B.step (one_key at.now.db key.now) keyspace.old keyspace.new result }
    ensures forms { IfOk result (λ reply. FormedString B.blocks at.now.db (visible B.blocks keyspace.old at.now) (strings.SetRange key.now place piece.now) reply keyspace.old keyspace.new) }
{
    let alloc = keyspace.alloc();
    let found = seek(keyspace, at, key);
    match length_sought(keyspace, at, key, found) {
        Look::Other => Reply::refused(alloc, Refusal::WrongType),
        Look::Missing => {
            if piece.is_empty() {
                return length_reply(alloc, 0);
            }
            put_string(keyspace, at, key, Some(found), &[])?;
            change_there(keyspace, at, key, Change::Write(place, piece))?;
            length_reply(alloc, place as usize + piece.len())
        }
        Look::There(length) => {
            if piece.is_empty() {
                return length_reply(alloc, length);
            }
            change_there(keyspace, at, key, Change::Write(place, piece))?;
            length_reply(alloc, length.max(place as usize + piece.len()))
        }
    }
}
