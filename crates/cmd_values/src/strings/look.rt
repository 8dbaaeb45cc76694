//! The string at a key.

ghost use Rattle.std.specs.Prelude.{◌≡◌, ◌<◌, ◌^◌, [], ◌∷◌, pos, None, IfOk, length};
ghost use Rattle.plain_world.specs.Worlds.{look};
ghost use Rattle.plain_world.specs.declared.reply.Part.TheVariants as parts;
ghost use Rattle.string_object.specs.Text.{text_bytes, text_refs};
ghost use Rattle.blocks.specs.Blocks.{Owned};
ghost use Rattle.keyspace.specs.Commands.{Ready, visible};
ghost use Rattle.keyspace.specs.Seeking.{Sees};
ghost use Rattle.keyspace.specs.Looks.{IsLook};
ghost use Rattle.cmd_values.specs.Found.{FoundText, FoundOther, HasLength, IsOldValue};

use blocks::BlockStore;
use keyspace::{Keyspace, Look, SoughtAt};
use plain_model::{Bytes, Ctx, Memory, Reply};
use std::alloc::Global;
use string_object::Text;

/// The string at a key.
pub fn text_at<'a, B: BlockStore>(keyspace: &'a Keyspace<B>, at: &Ctx, key: &[u8]) -> Look<&'a Text>
    requires ready { Ready B.blocks keyspace.now at.now }
    ensures { IsLook (look (visible B.blocks keyspace.now at.now) key.now ≡ None) (FoundOther (visible B.blocks keyspace.now at.now) key.now)
        (λ text. FoundText (visible B.blocks keyspace.now at.now) (B.blocks keyspace.now.store) key.now text.now) result }
{
    match keyspace.look(at.db, key, at.moment) {
        None => Look::Missing,
        Some(value) => match value.as_text() {
            None => Look::Other,
            Some(text) => Look::There(text),
        },
    }
}

/// The bytes of a string, on their own.
pub fn bytes_of<B: BlockStore>(alloc: Global, store: &B, text: &Text) -> Result<Bytes, Memory>
    requires { Owned (text_refs text.now) (B.blocks store.now) }
    ensures { IfOk result (λ bytes. bytes ≡ text_bytes (B.blocks store.now) text.now) }
{
    let mut room = [0; 20];
    Bytes::new(alloc, text.bytes(store, &mut room))
}

/// The length of a string, in bytes.
pub fn length_of<B: BlockStore>(store: &B, text: &Text) -> usize
    requires { Owned (text_refs text.now) (B.blocks store.now) }
    ensures length { result ≡ length (text_bytes (B.blocks store.now) text.now) }
    ensures few { result < 2 ^ 63 }
{
    let mut room = [0; 20];
    text.bytes(store, &mut room).len()
}

/// The string at a key that was sought.
pub fn sought_text<'a, B: BlockStore>(
    keyspace: &'a Keyspace<B>,
    at: &Ctx,
    key: &[u8],
    found: SoughtAt,
) -> Look<&'a Text>
    requires ready { Ready B.blocks keyspace.now at.now }
    requires sees { Sees B.blocks keyspace.now at.now key.now found }
    ensures { IsLook (look (visible B.blocks keyspace.now at.now) key.now ≡ None) (FoundOther (visible B.blocks keyspace.now at.now) key.now)
        (λ text. FoundText (visible B.blocks keyspace.now at.now) (B.blocks keyspace.now.store) key.now text.now) result }
{
    // what was found tells the key
    let _ = key;
    match found.there {
        None => Look::Missing,
        Some(item) => match keyspace.value_at(at.db, item).as_text() {
            None => Look::Other,
            Some(text) => Look::There(text),
        },
    }
}

/// The length in bytes of the string at a key.
pub fn length_at<B: BlockStore>(keyspace: &Keyspace<B>, at: &Ctx, key: &[u8]) -> Look<usize>
    requires ready { Ready B.blocks keyspace.now at.now }
    ensures { IsLook (look (visible B.blocks keyspace.now at.now) key.now ≡ None) (FoundOther (visible B.blocks keyspace.now at.now) key.now)
        (HasLength (visible B.blocks keyspace.now at.now) key.now) result }
{
    match text_at(keyspace, at, key) {
        Look::Missing => Look::Missing,
        Look::Other => Look::Other,
        Look::There(text) => Look::There(length_of(&keyspace.store, text)),
    }
}

/// The length in bytes of the string at a key that was sought.
pub fn length_sought<B: BlockStore>(
    keyspace: &Keyspace<B>,
    at: &Ctx,
    key: &[u8],
    found: SoughtAt,
) -> Look<usize>
    requires ready { Ready B.blocks keyspace.now at.now }
    requires sees { Sees B.blocks keyspace.now at.now key.now found }
    ensures { IsLook (look (visible B.blocks keyspace.now at.now) key.now ≡ None) (FoundOther (visible B.blocks keyspace.now at.now) key.now)
        (HasLength (visible B.blocks keyspace.now at.now) key.now) result }
{
    match sought_text(keyspace, at, key, found) {
        Look::Missing => Look::Missing,
        Look::Other => Look::Other,
        Look::There(text) => Look::There(length_of(&keyspace.store, text)),
    }
}

/// A length in bytes as a reply.
pub fn length_reply(alloc: Global, length: usize) -> Result<Reply, Memory>
    requires { length < 2 ^ 63 }
    ensures { IfOk result (λ reply. reply ≡ parts.Number (pos length) ∷ []) }
{
    Reply::number(alloc, length as i64)
}

/// The string at a key as a reply, or null where there is none. `None` comes exactly where a value of another type stands there.
pub fn old_value<B: BlockStore>(
    keyspace: &Keyspace<B>,
    at: &Ctx,
    key: &[u8],
) -> Result<Option<Reply>, Memory>
    requires ready { Ready B.blocks keyspace.now at.now }
    ensures { IfOk result (λ reply. IsOldValue (visible B.blocks keyspace.now at.now) key.now reply) }
{
    let alloc = keyspace.alloc();
    match text_at(keyspace, at, key) {
        Look::Missing => Ok(Some(Reply::null(alloc)?)),
        Look::Other => Ok(None),
        Look::There(text) => {
            let bytes = bytes_of(alloc, &keyspace.store, text)?;
            Ok(Some(Reply::bulk(alloc, bytes)?))
        }
    }
}

/// The string at a key that was sought, as `old_value` tells it.
pub fn sought_value<B: BlockStore>(
    keyspace: &Keyspace<B>,
    at: &Ctx,
    key: &[u8],
    found: SoughtAt,
) -> Result<Option<Reply>, Memory>
    requires ready { Ready B.blocks keyspace.now at.now }
    requires sees { Sees B.blocks keyspace.now at.now key.now found }
    ensures { IfOk result (λ reply. IsOldValue (visible B.blocks keyspace.now at.now) key.now reply) }
{
    let alloc = keyspace.alloc();
    match sought_text(keyspace, at, key, found) {
        Look::Missing => Ok(Some(Reply::null(alloc)?)),
        Look::Other => Ok(None),
        Look::There(text) => {
            let bytes = bytes_of(alloc, &keyspace.store, text)?;
            Ok(Some(Reply::bulk(alloc, bytes)?))
        }
    }
}
