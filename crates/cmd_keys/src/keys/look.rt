//! What stands at a key.

ghost use Rattle.std.specs.Prelude.{◌≡◌, ◌<◌, ◌^◌, [], ◌∷◌, pos, IfOk, IfSome, IfNone, is_some, true, false};
ghost use Rattle.plain_world.specs.Worlds.{look};
ghost use Rattle.plain_world.specs.declared.reply.Part.TheVariants as parts;
ghost use Rattle.keyspace.specs.Commands.{Ready, visible};
ghost use Rattle.held.specs.Calls.{Seeks};
ghost use Rattle.cmd_keys.specs.Found.{IsDeadlineAt, IsAhead, told_without};

use blocks::BlockStore;
use keyspace::{Keyspace, Sought, seek};
use plain_model::{Ctx, Memory, Reply};
use std::alloc::Global;

/// Why a key has no deadline.
#[derive(Clone, Copy)]
pub enum Timeless {
    /// Nothing stands there.
    NoKey,
    /// What stands there has none.
    NoDeadline,
}

/// Whether something stands at a key.
pub fn is_there<B: BlockStore>(keyspace: &Keyspace<B>, at: &Ctx, key: &[u8]) -> bool
    requires ready { Ready B.blocks keyspace.now at.now }
    ensures { result ≡ is_some (look (visible B.blocks keyspace.now at.now) key.now) }
{
    keyspace.look(at.db, key, at.moment).is_some()
}

/// What was sought of a key where nothing stands. `None` comes exactly where something does.
pub fn free_place<B: BlockStore>(keyspace: &Keyspace<B>, at: &Ctx, key: &[u8]) -> Option<Sought>
    requires ready { Ready B.blocks keyspace.now at.now }
    ensures seeks { IfSome result (λ place. Seeks keyspace.now.bases (B.blocks keyspace.now.store) at.now.db key.now place) }
    ensures free { IfSome result (λ place. is_some (look (visible B.blocks keyspace.now at.now) key.now) ≡ false) }
    ensures taken { IfNone result (is_some (look (visible B.blocks keyspace.now at.now) key.now) ≡ true) }
{
    let found = seek(keyspace, at, key);
    match found.there {
        None => Some(found.sought),
        Some(_) => None,
    }
}

/// The deadline of what stands at a key, in milliseconds.
pub fn deadline_at<B: BlockStore>(
    keyspace: &Keyspace<B>,
    at: &Ctx,
    key: &[u8],
) -> Result<u64, Timeless>
    requires ready { Ready B.blocks keyspace.now at.now }
    ensures is { IsDeadlineAt (visible B.blocks keyspace.now at.now) key.now result }
    ensures ahead { IfOk result (λ deadline. IsAhead at.now.moment deadline) }
{
    let found = seek(keyspace, at, key);
    match found.there {
        None => Err(Timeless::NoKey),
        Some(_) => match found.deadline {
            None => Err(Timeless::NoDeadline),
            Some(deadline) => Ok(deadline),
        },
    }
}

/// A count as a reply.
pub fn count_reply(alloc: Global, count: u64) -> Result<Reply, Memory>
    requires { count < 2 ^ 63 }
    ensures { IfOk result (λ reply. reply ≡ parts.Number (pos count) ∷ []) }
{
    Reply::number(alloc, count as i64)
}

/// What is told in place of a deadline: -2 without a key, and -1 where it has none.
pub fn timeless_reply(alloc: Global, timeless: Timeless) -> Result<Reply, Memory>
    ensures { IfOk result (λ reply. reply ≡ parts.Number (told_without timeless) ∷ []) }
{
    match timeless {
        Timeless::NoKey => Reply::number(alloc, -2),
        Timeless::NoDeadline => Reply::number(alloc, -1),
    }
}
