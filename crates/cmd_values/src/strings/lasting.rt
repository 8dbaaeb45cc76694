//! Commands that write or read a string with a deadline.

ghost use Rattle.std.specs.Prelude.{◌≡◌, ◌<◌, ◌^◌, [], ◌∷◌, IfOk};
ghost use Rattle.plain_model.specs.Deadlines as deadlines;
ghost use Rattle.plain_world.specs.Worlds.{look};
ghost use Rattle.plain_model.specs.StringSteps.{set_for, getex_outcome, on_string, or_null};
ghost use Rattle.plain_model.specs.Outcomes.{leaves};
ghost use Rattle.plain_model.specs.declared.times.TimeUnit.TheVariants.{Seconds, Milliseconds};
ghost use Rattle.plain_model.specs.declared.times.Renewal.TheVariants as renewals;
ghost use Rattle.plain_model.specs.declared.command.StringCommand.TheVariants as strings;
ghost use Rattle.keyspace.specs.Scopes.{one_key, no_key};
ghost use Rattle.keyspace.specs.Forms.{FormedString};
ghost use Rattle.keyspace.specs.Commands.{Ready, KeepsOrRefuses, visible};
ghost use Rattle.cmd_values.specs.Found.{Gives};

use crate::strings::look::sought_value;
use crate::strings::reading::get;
use crate::strings::writing::put_lasting;
use blocks::BlockStore;
use keyspace::{Keyspace, expire_sought, persist_sought, seek};
use plain_model::{Ctx, Line, Memory, Refusal, Renewal, Reply, Time, TimeOrigin, TimeUnit};

/// A deadline as moments have it: one before moment 0 counts as moment 0.
pub fn from_zero(due: i64) -> u64
    ensures value { result ≡ deadlines.from_zero due }
    ensures late { result < 2 ^ 63 }
{
    if due < 0 {
        return 0;
    }
    due as u64
}

// A string is written that lasts for so many units from now.
fn set_for_units<B: BlockStore>(
    keyspace: &mut Keyspace<B>,
    at: &Ctx,
    key: &[u8],
    unit: TimeUnit,
    n: i64,
    value: &[u8],
) -> Result<Reply, Memory>
    requires ready { Ready B.blocks keyspace.old at.now }
    ensures gives { IfOk result (λ reply. set_for (visible B.blocks keyspace.old at.now) at.now.moment key.now unit n value.now ≡ leaves reply (visible B.blocks keyspace.new at.now)) }
    ensures kept { KeepsOrRefuses B.blocks B.step (one_key at.now.db key.now) keyspace.old keyspace.new result }
    ensures forms { IfOk result (λ reply. FormedString B.blocks at.now.db (visible B.blocks keyspace.old at.now) (strings.SetEx key.now n value.now) reply keyspace.old keyspace.new) }
{
    let alloc = keyspace.alloc();
    let time = Time {
        unit,
        from: TimeOrigin::Now,
        n,
    };
    match time.due(at.moment) {
        None => Reply::refused(alloc, Refusal::InvalidExpireTime),
        Some(due) => {
            put_lasting(keyspace, at, key, None, value, Some(from_zero(due)))?;
            Reply::simple(alloc, Line::ok())
        }
    }
}

/// `SETEX key s value`: OK; the value lasts for so many seconds.
pub fn setex<B: BlockStore>(
    keyspace: &mut Keyspace<B>,
    at: &Ctx,
    key: &[u8],
    seconds: i64,
    value: &[u8],
) -> Result<Reply, Memory>
    requires ready { Ready B.blocks keyspace.old at.now }
    ensures gives { Gives B.blocks keyspace.old keyspace.new at.now (strings.SetEx key.now seconds value.now) result }
    ensures kept { KeepsOrRefuses B.blocks B.step (one_key at.now.db key.now) keyspace.old keyspace.new result }
    ensures forms { IfOk result (λ reply. FormedString B.blocks at.now.db (visible B.blocks keyspace.old at.now) (strings.SetEx key.now seconds value.now) reply keyspace.old keyspace.new) }
{
    set_for_units(keyspace, at, key, TimeUnit::Seconds, seconds, value)
}

/// `PSETEX key ms value`: OK; the value lasts for so many milliseconds.
pub fn psetex<B: BlockStore>(
    keyspace: &mut Keyspace<B>,
    at: &Ctx,
    key: &[u8],
    milliseconds: i64,
    value: &[u8],
) -> Result<Reply, Memory>
    requires ready { Ready B.blocks keyspace.old at.now }
    ensures gives { Gives B.blocks keyspace.old keyspace.new at.now (strings.PSetEx key.now milliseconds value.now) result }
    ensures kept { KeepsOrRefuses B.blocks B.step (one_key at.now.db key.now) keyspace.old keyspace.new result }
    ensures forms { IfOk result (λ reply. FormedString B.blocks at.now.db (visible B.blocks keyspace.old at.now) (strings.PSetEx key.now milliseconds value.now) reply keyspace.old keyspace.new) }
{
    set_for_units(
        keyspace,
        at,
        key,
        TimeUnit::Milliseconds,
        milliseconds,
        value,
    )
}

// The value is answered, and its deadline is set to a moment in milliseconds.
fn get_expiring<B: BlockStore>(
    keyspace: &mut Keyspace<B>,
    at: &Ctx,
    key: &[u8],
    due: i64,
) -> Result<Reply, Memory>
    requires ready { Ready B.blocks keyspace.old at.now }
    ensures gives { IfOk result
        (λ reply. on_string (visible B.blocks keyspace.old at.now) (look (visible B.blocks keyspace.old at.now) key.now)
        (λ before. leaves (or_null before ∷ []) (deadlines.expire (visible B.blocks keyspace.old at.now) at.now.moment key.now due (look (visible B.blocks keyspace.old at.now) key.now))) ≡
        leaves reply (visible B.blocks keyspace.new at.now)) }
    ensures kept { KeepsOrRefuses B.blocks B.step (no_key at.now.db) keyspace.old keyspace.new result }
{
    let found = seek(keyspace, at, key);
    match sought_value(keyspace, at, key, found)? {
        None => Reply::refused(keyspace.alloc(), Refusal::WrongType),
        Some(reply) => {
            expire_sought(keyspace, at, key, found, due)?;
            Ok(reply)
        }
    }
}

// The value is answered, and its deadline is set.
fn get_until<B: BlockStore>(
    keyspace: &mut Keyspace<B>,
    at: &Ctx,
    key: &[u8],
    time: Time,
) -> Result<Reply, Memory>
    requires ready { Ready B.blocks keyspace.old at.now }
    ensures gives { IfOk result (λ reply. getex_outcome (visible B.blocks keyspace.old at.now) at.now.moment key.now (renewals.Until time) ≡ leaves reply (visible B.blocks keyspace.new at.now)) }
    ensures kept { KeepsOrRefuses B.blocks B.step (no_key at.now.db) keyspace.old keyspace.new result }
{
    match time.due(at.moment) {
        None => Reply::refused(keyspace.alloc(), Refusal::InvalidExpireTime),
        Some(due) => get_expiring(keyspace, at, key, due),
    }
}

// The value is answered, and has no deadline any more.
fn get_persisting<B: BlockStore>(
    keyspace: &mut Keyspace<B>,
    at: &Ctx,
    key: &[u8],
) -> Result<Reply, Memory>
    requires ready { Ready B.blocks keyspace.old at.now }
    ensures gives { IfOk result (λ reply. getex_outcome (visible B.blocks keyspace.old at.now) at.now.moment key.now renewals.Persist ≡ leaves reply (visible B.blocks keyspace.new at.now)) }
    ensures kept { KeepsOrRefuses B.blocks B.step (no_key at.now.db) keyspace.old keyspace.new result }
{
    let found = seek(keyspace, at, key);
    match sought_value(keyspace, at, key, found)? {
        None => Reply::refused(keyspace.alloc(), Refusal::WrongType),
        Some(reply) => {
            let _had = persist_sought(keyspace, at, key, found)?;
            Ok(reply)
        }
    }
}

/// `GETEX key [EX s, PX ms, EXAT s, PXAT ms or PERSIST]`: the value, or null; its deadline is set, goes, or stays.
pub fn getex<B: BlockStore>(
    keyspace: &mut Keyspace<B>,
    at: &Ctx,
    key: &[u8],
    renewal: Renewal,
) -> Result<Reply, Memory>
    requires ready { Ready B.blocks keyspace.old at.now }
    ensures gives { Gives B.blocks keyspace.old keyspace.new at.now (strings.GetEx key.now renewal) result }
    ensures kept { KeepsOrRefuses B.blocks B.step (no_key at.now.db) keyspace.old keyspace.new result }
{
    match renewal {
        Renewal::Unchanged => get(keyspace, at, key),
        Renewal::Persist => get_persisting(keyspace, at, key),
        Renewal::Until(time) => get_until(keyspace, at, key, time),
    }
}
