//! Commands on the connection and on the server as a whole.

ghost use Rattle.std.specs.Prelude.{◌≡◌, ◌<◌, ℕ, IfOk};
ghost use Rattle.std.specs.FinMap.{len};
ghost use Rattle.plain_world.specs.Worlds.{no_keys, with_base};
ghost use Rattle.plain_model.specs.declared.connection.ConnectionCommand.TheVariants as commands;
ghost use Rattle.keyspace.specs.Databases.{means, SameSettings};
ghost use Rattle.keyspace.specs.Sound.{Sound};
ghost use Rattle.keyspace.specs.Scopes.{no_key, all_keys, everything};
ghost use Rattle.keyspace.specs.Shown.{IsRehashed, IsPurged, IsEmptied, AreEmptied};
ghost use Rattle.keyspace.specs.Commands.{Ready, KeepsTo, KeepsOrRefuses, visible};
ghost use Rattle.cmd_keys.specs.Found.{Serves, Tells};
ghost use Rattle.cmd_keys.specs.Emptied.{IsEmpty};

use blocks::BlockStore;
use keyspace::Keyspace;
use plain_model::{Bytes, Ctx, Line, Memory, Reply, Word};
use std::alloc::{AllocError, Global};

// How many databases there are.
const DATABASES: usize = 16;

/// `PING [text]`: PONG, or the text.
pub fn ping(alloc: Global, text: &Option<Word<'_>>) -> Result<Reply, Memory>
    ensures { Tells (commands.Ping text.now) result }
{
    match text {
        None => Reply::simple(alloc, Line::pong()),
        Some(text) => Reply::bulk(alloc, Bytes::new(alloc, text.as_slice())?),
    }
}

/// `ECHO text`: the text.
pub fn echo(alloc: Global, text: &[u8]) -> Result<Reply, Memory>
    ensures { Tells (commands.Echo text.now) result }
{
    Reply::bulk(alloc, Bytes::new(alloc, text)?)
}

// Removes all keys of the selected database.
fn clear_selected<B: BlockStore>(keyspace: &mut Keyspace<B>, at: &Ctx)
    requires ready { Ready B.blocks keyspace.old at.now }
    ensures world { visible B.blocks keyspace.new at.now ≡ with_base (visible B.blocks keyspace.old at.now) no_keys }
    ensures emptied { IsEmptied B.blocks keyspace.old keyspace.new at.now }
    ensures held { KeepsTo B.blocks B.step (all_keys at.now.db) keyspace.old keyspace.new }
{
    keyspace.clear(at.db);
}

/// `QUIT`: OK. Whoever holds the connection closes it.
pub fn quit(alloc: Global) -> Result<Reply, Memory>
    ensures { Tells commands.Quit result }
{
    Reply::simple(alloc, Line::ok())
}

/// `FLUSHDB [ASYNC or SYNC]`: OK; the selected database has no key afterwards.
pub fn flushdb<B: BlockStore>(keyspace: &mut Keyspace<B>, at: &Ctx) -> Result<Reply, Memory>
    requires ready { Ready B.blocks keyspace.old at.now }
    ensures gives { Serves B.blocks keyspace.old keyspace.new at.now commands.FlushDb result }
    ensures emptied { IsEmptied B.blocks keyspace.old keyspace.new at.now }
    ensures kept { KeepsOrRefuses B.blocks B.step (all_keys at.now.db) keyspace.old keyspace.new result }
{
    clear_selected(keyspace, at);
    Reply::simple(keyspace.alloc(), Line::ok())
}

// Removes all keys of all databases.
fn clear_all<B: BlockStore>(keyspace: &mut Keyspace<B>, at: &Ctx)
    requires ready { Ready B.blocks keyspace.old at.now }
    ensures world { IsEmpty (visible B.blocks keyspace.new at.now) at.now.db }
    ensures emptied { AreEmptied B.blocks keyspace.old keyspace.new at.now }
    ensures held { KeepsTo B.blocks B.step (everything) keyspace.old keyspace.new }
{
    let _ = at;
    for db in 0..DATABASES {
        keyspace.clear(db);
    }
}

/// `FLUSHALL [ASYNC or SYNC]`: OK; no database has a key afterwards.
pub fn flushall<B: BlockStore>(keyspace: &mut Keyspace<B>, at: &Ctx) -> Result<Reply, Memory>
    requires ready { Ready B.blocks keyspace.old at.now }
    ensures gives { Serves B.blocks keyspace.old keyspace.new at.now commands.FlushAll result }
    ensures emptied { AreEmptied B.blocks keyspace.old keyspace.new at.now }
    ensures kept { KeepsOrRefuses B.blocks B.step (everything) keyspace.old keyspace.new result }
{
    clear_all(keyspace, at);
    Reply::simple(keyspace.alloc(), Line::ok())
}

// Removes the keys of the selected database that are gone, and counts the others.
fn count_live<B: BlockStore>(keyspace: &mut Keyspace<B>, at: &Ctx) -> u64
    requires ready { Ready B.blocks keyspace.old at.now }
    ensures count { result ≡ len ((visible B.blocks keyspace.old at.now).bases at.now.db) }
    ensures world { visible B.blocks keyspace.new at.now ≡ visible B.blocks keyspace.old at.now }
    ensures purged { IsPurged B.blocks keyspace.old keyspace.new at.now }
    ensures held { KeepsTo B.blocks B.step (no_key at.now.db) keyspace.old keyspace.new }
{
    let _ = keyspace.purge(at.db, at.moment);
    keyspace.count(at.db)
}

/// `DBSIZE`: the number of keys that are there. Those that are gone are removed first.
pub fn dbsize<B: BlockStore>(keyspace: &mut Keyspace<B>, at: &Ctx) -> Result<Reply, Memory>
    requires ready { Ready B.blocks keyspace.old at.now }
    ensures gives { Serves B.blocks keyspace.old keyspace.new at.now commands.DbSize result }
    ensures purged { IsPurged B.blocks keyspace.old keyspace.new at.now }
    ensures kept { KeepsOrRefuses B.blocks B.step (no_key at.now.db) keyspace.old keyspace.new result }
{
    let count = count_live(keyspace, at);
    match i64::try_from(count) {
        Ok(count) => Reply::number(keyspace.alloc(), count),
        // So many keys stand in no memory.
        Err(_) => Err(AllocError),
    }
}

/// `DEBUG REHASH n`: makes so many rehash steps, each in the lowest database whose keys are in a rehash, or else in the lowest
/// whose deadlines are. The answer is how many of them found a table.
pub fn debug_rehash<B: BlockStore>(keyspace: &mut Keyspace<B>, steps: u32) -> Result<Reply, Memory>
    requires sound { Sound keyspace.old.bases (B.blocks keyspace.old.store) }
    ensures shows { IfOk result (λ reply. IsRehashed B.blocks steps keyspace.old keyspace.new reply) }
    ensures means { (number : ℕ) → means number keyspace.new.bases (B.blocks keyspace.new.store) ≡ means number keyspace.old.bases (B.blocks keyspace.old.store) }
    ensures sound { Sound keyspace.new.bases (B.blocks keyspace.new.store) }
    ensures store { keyspace.new.store ≡ keyspace.old.store }
    ensures settings { SameSettings keyspace.old.bases keyspace.new.bases }
{
    let found = keyspace.rehash(steps);
    Reply::number(keyspace.alloc(), i64::from(found))
}
