//! Commands that ask for keys, and change nothing.

ghost use Rattle.std.specs.Prelude.{◌≡◌, ◌<◌, ◌^◌, is_some};
ghost use Rattle.std.specs.List.{count_by};
ghost use Rattle.plain_world.specs.Worlds.{look};
ghost use Rattle.plain_model.specs.KeySteps.{in_seconds};
ghost use Rattle.plain_model.specs.declared.keys.KeyCommand.TheVariants as commands;
ghost use Rattle.keyspace.specs.Commands.{Ready, visible};
ghost use Rattle.cmd_keys.specs.Found.{Gives};

use crate::keys::look::{count_reply, deadline_at, is_there, timeless_reply};
use blocks::BlockStore;
use keyspace::Keyspace;
use plain_model::{Ctx, Line, Memory, Reply, Word};

// How many of these keys are there. A key that is named twice counts twice.
fn count_there<B: BlockStore>(keyspace: &Keyspace<B>, at: &Ctx, keys: &[Word<'_>]) -> u64
    requires ready { Ready B.blocks keyspace.now at.now }
    ensures count { result ≡ count_by (λ key. is_some (look (visible B.blocks keyspace.now at.now) key)) keys.now }
    ensures few { result < 2 ^ 63 }
{
    let mut count: u64 = 0;
    let mut rest = keys;
    'keys: while let [key, others @ ..] = rest {
        count += is_there(keyspace, at, key.as_slice()) as u64;
        rest = others;
    }
    count
}

/// `EXISTS key..`: how many of the keys are there.
pub fn exists<B: BlockStore>(
    keyspace: &Keyspace<B>,
    at: &Ctx,
    keys: &[Word<'_>],
) -> Result<Reply, Memory>
    requires ready { Ready B.blocks keyspace.now at.now }
    ensures { Gives B.blocks keyspace.now keyspace.now at.now (commands.Exists keys.now) result }
{
    count_reply(keyspace.alloc(), count_there(keyspace, at, keys))
}

/// `TOUCH key..`: how many of the keys are there. When a key was used last is not kept.
pub fn touch<B: BlockStore>(
    keyspace: &Keyspace<B>,
    at: &Ctx,
    keys: &[Word<'_>],
) -> Result<Reply, Memory>
    requires ready { Ready B.blocks keyspace.now at.now }
    ensures { Gives B.blocks keyspace.now keyspace.now at.now (commands.Touch keys.now) result }
{
    count_reply(keyspace.alloc(), count_there(keyspace, at, keys))
}

/// `TYPE key`: the name of the value's type, or `none`.
pub fn type_of<B: BlockStore>(keyspace: &Keyspace<B>, at: &Ctx, key: &[u8]) -> Result<Reply, Memory>
    requires ready { Ready B.blocks keyspace.now at.now }
    ensures { Gives B.blocks keyspace.now keyspace.now at.now (commands.TypeOf key.now) result }
{
    let alloc = keyspace.alloc();
    match keyspace.look(at.db, key, at.moment) {
        None => Reply::simple(alloc, Line::none()),
        Some(value) => Reply::simple(alloc, value.type_name()),
    }
}

// Milliseconds in seconds, rounded.
fn seconds(milliseconds: u64) -> u64
    requires { milliseconds < 2 ^ 63 }
    ensures seconds { result ≡ in_seconds milliseconds }
    ensures few { result < 2 ^ 63 }
{
    (milliseconds + 500) / 1000
}

/// `TTL key`: the seconds that the key has left, rounded; -1 where it has no deadline, and -2 where it isn't there.
pub fn ttl<B: BlockStore>(keyspace: &Keyspace<B>, at: &Ctx, key: &[u8]) -> Result<Reply, Memory>
    requires ready { Ready B.blocks keyspace.now at.now }
    ensures { Gives B.blocks keyspace.now keyspace.now at.now (commands.Ttl key.now) result }
{
    let alloc = keyspace.alloc();
    match deadline_at(keyspace, at, key) {
        Ok(deadline) => count_reply(alloc, seconds(deadline - at.moment)),
        Err(timeless) => timeless_reply(alloc, timeless),
    }
}

/// `PTTL key`: the milliseconds that the key has left; -1 where it has no deadline, and -2 where it isn't there.
pub fn pttl<B: BlockStore>(keyspace: &Keyspace<B>, at: &Ctx, key: &[u8]) -> Result<Reply, Memory>
    requires ready { Ready B.blocks keyspace.now at.now }
    ensures { Gives B.blocks keyspace.now keyspace.now at.now (commands.PTtl key.now) result }
{
    let alloc = keyspace.alloc();
    match deadline_at(keyspace, at, key) {
        Ok(deadline) => count_reply(alloc, deadline - at.moment),
        Err(timeless) => timeless_reply(alloc, timeless),
    }
}

/// `EXPIRETIME key`: the deadline in seconds, rounded; -1 where the key has none, and -2 where it isn't there.
pub fn expiretime<B: BlockStore>(
    keyspace: &Keyspace<B>,
    at: &Ctx,
    key: &[u8],
) -> Result<Reply, Memory>
    requires ready { Ready B.blocks keyspace.now at.now }
    ensures { Gives B.blocks keyspace.now keyspace.now at.now (commands.ExpireTime key.now) result }
{
    let alloc = keyspace.alloc();
    match deadline_at(keyspace, at, key) {
        Ok(deadline) => count_reply(alloc, seconds(deadline)),
        Err(timeless) => timeless_reply(alloc, timeless),
    }
}

/// `PEXPIRETIME key`: the deadline in milliseconds; -1 where the key has none, and -2 where it isn't there.
pub fn pexpiretime<B: BlockStore>(
    keyspace: &Keyspace<B>,
    at: &Ctx,
    key: &[u8],
) -> Result<Reply, Memory>
    requires ready { Ready B.blocks keyspace.now at.now }
    ensures { Gives B.blocks keyspace.now keyspace.now at.now (commands.PExpireTime key.now) result }
{
    let alloc = keyspace.alloc();
    match deadline_at(keyspace, at, key) {
        Ok(deadline) => count_reply(alloc, deadline),
        Err(timeless) => timeless_reply(alloc, timeless),
    }
}
