//! Commands that give keys deadlines, or take them away.

ghost use Rattle.std.specs.Prelude.{◌≡◌, ◌<◌, IfOk};
ghost use Rattle.plain_model.specs.KeySteps as model;
ghost use Rattle.plain_model.specs.KeySteps.{expire_outcome};
ghost use Rattle.plain_model.specs.Outcomes.{leaves};
ghost use Rattle.plain_model.specs.declared.keys.KeyCommand.TheVariants as commands;
ghost use Rattle.keyspace.specs.Scopes.{no_key};
ghost use Rattle.keyspace.specs.Commands.{Ready, KeepsTo, KeepsOrRefuses, visible};
ghost use Rattle.cmd_keys.specs.Found.{Gives};

use crate::keys::look::count_reply;
use blocks::BlockStore;
use keyspace::{Keyspace, expire_sought, persist_sought, seek};
use plain_model::{Ctx, ExpireOptions, Memory, Refusal, Reply, Time, TimeOrigin, TimeUnit};

// Whether the options permit a new deadline. No deadline is the latest of all.
fn permits(options: ExpireOptions, deadline: Option<u64>, due: i64) -> bool
    ensures { result ≡ model.permits options deadline due }
{
    match deadline {
        None => !options.xx && !options.gt,
        Some(deadline) => {
            let later = i128::from(deadline) < i128::from(due);
            let earlier = i128::from(due) < i128::from(deadline);
            !options.nx && ((!options.gt || later) && (!options.lt || earlier))
        }
    }
}

// What stands at a key gets the deadline of this time, where the options permit it.
fn expire_by<B: BlockStore>(
    keyspace: &mut Keyspace<B>,
    at: &Ctx,
    key: &[u8],
    time: Time,
    options: ExpireOptions,
) -> Result<Reply, Memory>
    requires ready { Ready B.blocks keyspace.old at.now }
    ensures gives { IfOk result (λ reply. expire_outcome (visible B.blocks keyspace.old at.now) at.now.moment key.now time options ≡ leaves reply (visible B.blocks keyspace.new at.now)) }
    ensures kept { KeepsOrRefuses B.blocks B.step (no_key at.now.db) keyspace.old keyspace.new result }
{
    let alloc = keyspace.alloc();
    match time.due(at.moment) {
        None => Reply::refused(alloc, Refusal::InvalidExpireTime),
        Some(due) => {
            let found = seek(keyspace, at, key);
            match found.there {
                None => count_reply(alloc, 0),
                Some(_) => {
                    if !permits(options, found.deadline, due) {
                        return count_reply(alloc, 0);
                    }
                    expire_sought(keyspace, at, key, found, due)?;
                    count_reply(alloc, 1)
                }
            }
        }
    }
}

/// `EXPIRE key n [NX, XX, GT, LT]`: 1 where the key has its deadline n seconds from now, or is removed since that isn't later
/// than now; 0 where the key isn't there or the options don't permit it.
pub fn expire<B: BlockStore>(
    keyspace: &mut Keyspace<B>,
    at: &Ctx,
    key: &[u8],
    n: i64,
    options: ExpireOptions,
) -> Result<Reply, Memory>
    requires ready { Ready B.blocks keyspace.old at.now }
    ensures gives { Gives B.blocks keyspace.old keyspace.new at.now (commands.Expire key.now n options) result }
    ensures kept { KeepsOrRefuses B.blocks B.step (no_key at.now.db) keyspace.old keyspace.new result }
{
    let time = Time {
        unit: TimeUnit::Seconds,
        from: TimeOrigin::Now,
        n,
    };
    expire_by(keyspace, at, key, time, options)
}

/// `PEXPIRE key n [NX, XX, GT, LT]`: as EXPIRE, with n milliseconds from now.
pub fn pexpire<B: BlockStore>(
    keyspace: &mut Keyspace<B>,
    at: &Ctx,
    key: &[u8],
    n: i64,
    options: ExpireOptions,
) -> Result<Reply, Memory>
    requires ready { Ready B.blocks keyspace.old at.now }
    ensures gives { Gives B.blocks keyspace.old keyspace.new at.now (commands.PExpire key.now n options) result }
    ensures kept { KeepsOrRefuses B.blocks B.step (no_key at.now.db) keyspace.old keyspace.new result }
{
    let time = Time {
        unit: TimeUnit::Milliseconds,
        from: TimeOrigin::Now,
        n,
    };
    expire_by(keyspace, at, key, time, options)
}

/// `EXPIREAT key n [NX, XX, GT, LT]`: as EXPIRE, with n seconds from moment 0.
pub fn expireat<B: BlockStore>(
    keyspace: &mut Keyspace<B>,
    at: &Ctx,
    key: &[u8],
    n: i64,
    options: ExpireOptions,
) -> Result<Reply, Memory>
    requires ready { Ready B.blocks keyspace.old at.now }
    ensures gives { Gives B.blocks keyspace.old keyspace.new at.now (commands.ExpireAt key.now n options) result }
    ensures kept { KeepsOrRefuses B.blocks B.step (no_key at.now.db) keyspace.old keyspace.new result }
{
    let time = Time {
        unit: TimeUnit::Seconds,
        from: TimeOrigin::Epoch,
        n,
    };
    expire_by(keyspace, at, key, time, options)
}

/// `PEXPIREAT key n [NX, XX, GT, LT]`: as EXPIRE, with n milliseconds from moment 0.
pub fn pexpireat<B: BlockStore>(
    keyspace: &mut Keyspace<B>,
    at: &Ctx,
    key: &[u8],
    n: i64,
    options: ExpireOptions,
) -> Result<Reply, Memory>
    requires ready { Ready B.blocks keyspace.old at.now }
    ensures gives { Gives B.blocks keyspace.old keyspace.new at.now (commands.PExpireAt key.now n options) result }
    ensures kept { KeepsOrRefuses B.blocks B.step (no_key at.now.db) keyspace.old keyspace.new result }
{
    let time = Time {
        unit: TimeUnit::Milliseconds,
        from: TimeOrigin::Epoch,
        n,
    };
    expire_by(keyspace, at, key, time, options)
}

/// `PERSIST key`: 1 where the key had a deadline, which goes, and 0 elsewhere.
pub fn persist<B: BlockStore>(
    keyspace: &mut Keyspace<B>,
    at: &Ctx,
    key: &[u8],
) -> Result<Reply, Memory>
    requires ready { Ready B.blocks keyspace.old at.now }
    ensures gives { Gives B.blocks keyspace.old keyspace.new at.now (commands.Persist key.now) result }
    ensures kept { KeepsOrRefuses B.blocks B.step (no_key at.now.db) keyspace.old keyspace.new result }
{
    let found = seek(keyspace, at, key);
    let had = persist_sought(keyspace, at, key, found)?;
    count_reply(keyspace.alloc(), had as u64)
}
