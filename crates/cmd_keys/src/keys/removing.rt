//! Commands that remove keys.

ghost use Rattle.std.specs.Prelude.{◌≡◌, ◌<◌, ◌^◌, is_some};
ghost use Rattle.plain_world.specs.Worlds.{look, remove};
ghost use Rattle.plain_model.specs.KeySteps.{removed, remove_all};
ghost use Rattle.plain_model.specs.declared.keys.KeyCommand.TheVariants as commands;
ghost use Rattle.keyspace.specs.Scopes.{no_key};
ghost use Rattle.keyspace.specs.Commands.{Ready, KeepsTo, KeepsOrRefuses, visible};
ghost use Rattle.cmd_keys.specs.Found.{Gives};

use crate::keys::look::count_reply;
use blocks::BlockStore;
use keyspace::{Keyspace, seek};
use plain_model::{Ctx, Memory, Reply, Word};

/// Removes a key. The answer is whether it was there: one that is gone already doesn't count.
pub fn remove_key<B: BlockStore>(keyspace: &mut Keyspace<B>, at: &Ctx, key: &[u8]) -> bool
    requires ready { Ready B.blocks keyspace.old at.now }
    ensures there { result ≡ is_some (look (visible B.blocks keyspace.old at.now) key.now) }
    ensures world { visible B.blocks keyspace.new at.now ≡ remove (visible B.blocks keyspace.old at.now) key.now }
    ensures held { KeepsTo B.blocks B.step (no_key at.now.db) keyspace.old keyspace.new }
{
    let found = seek(keyspace, at, key);
    let _ = keyspace.drop_hashed(at.db, found.sought.hash, key);
    found.there.is_some()
}

// Removes these keys, one after the other. The answer is how many were there.
fn remove_keys<B: BlockStore>(keyspace: &mut Keyspace<B>, at: &Ctx, keys: &[Word<'_>]) -> u64
    requires ready { Ready B.blocks keyspace.old at.now }
    ensures count { result ≡ removed (visible B.blocks keyspace.old at.now) keys.now }
    ensures few { result < 2 ^ 63 }
    ensures world { visible B.blocks keyspace.new at.now ≡ remove_all (visible B.blocks keyspace.old at.now) keys.now }
    ensures held { KeepsTo B.blocks B.step (no_key at.now.db) keyspace.old keyspace.new }
{
    let mut count: u64 = 0;
    for key in keys {
        count += remove_key(keyspace, at, key.as_slice()) as u64;
    }
    count
}

/// `DEL key..`: how many of the keys were there, and are removed.
pub fn del<B: BlockStore>(
    keyspace: &mut Keyspace<B>,
    at: &Ctx,
    keys: &[Word<'_>],
) -> Result<Reply, Memory>
    requires ready { Ready B.blocks keyspace.old at.now }
    ensures gives { Gives B.blocks keyspace.old keyspace.new at.now (commands.Del keys.now) result }
    ensures kept { KeepsOrRefuses B.blocks B.step (no_key at.now.db) keyspace.old keyspace.new result }
{
    let count = remove_keys(keyspace, at, keys);
    count_reply(keyspace.alloc(), count)
}

/// `UNLINK key..`: how many of the keys were there, and are removed, as by DEL.
pub fn unlink<B: BlockStore>(
    keyspace: &mut Keyspace<B>,
    at: &Ctx,
    keys: &[Word<'_>],
) -> Result<Reply, Memory>
    requires ready { Ready B.blocks keyspace.old at.now }
    ensures gives { Gives B.blocks keyspace.old keyspace.new at.now (commands.Unlink keys.now) result }
    ensures kept { KeepsOrRefuses B.blocks B.step (no_key at.now.db) keyspace.old keyspace.new result }
{
    let count = remove_keys(keyspace, at, keys);
    count_reply(keyspace.alloc(), count)
}
