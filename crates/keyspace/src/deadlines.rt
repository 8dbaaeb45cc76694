//! The deadlines of keys that are there at a moment.

ghost use Rattle.std.specs.Prelude.{◌≡◌, ◌<◌, Some, true, IfOk, OnOk, is_some, OnErr};
ghost use Rattle.held.specs.Calls.{IsDeadline};
ghost use Rattle.plain_world.specs.Worlds.{Entry, look, put, in_time, deadline_of};
ghost use Rattle.plain_model.specs.Deadlines as model;
ghost use Rattle.keyspace.specs.Scopes.{no_key};
ghost use Rattle.keyspace.specs.Commands.{Ready, KeepsTo, visible};
ghost use Rattle.keyspace.specs.Seeking.{Sees};

use crate::Keyspace;
use blocks::BlockStore;
use held::SoughtAt;
use plain_model::{Ctx, Memory};

/// Seeks a key for a command.
pub fn seek<B: BlockStore>(keyspace: &Keyspace<B>, at: &Ctx, key: &[u8]) -> SoughtAt
    requires ready { Ready B.blocks keyspace.now at.now }
    ensures { Sees B.blocks keyspace.now at.now key.now result }
{
    keyspace.seek_at(at.db, key, at.moment)
}

/// The deadline in milliseconds of a key that is there at the moment. `None` where it has none, or isn't there.
pub fn deadline_at<B: BlockStore>(keyspace: &Keyspace<B>, at: &Ctx, key: &[u8]) -> Option<u64>
    requires ready { Ready B.blocks keyspace.now at.now }
    ensures value { result ≡ deadline_of (look (visible B.blocks keyspace.now at.now) key.now) }
    ensures latest { IsDeadline result }
{
    match keyspace.deadline(at.db, key) {
        None => None,
        Some(deadline) => {
            if deadline < at.moment {
                return None;
            }
            Some(deadline)
        }
    }
}

// The key is there, and gets a deadline that is not past, or loses the one that it has.
fn retime<B: BlockStore>(
    keyspace: &mut Keyspace<B>,
    at: &Ctx,
    key: &[u8],
    found: SoughtAt,
    to: Option<u64>,
) -> Result<(), Memory>
    requires ready { Ready B.blocks keyspace.old at.now }
    requires sees { Sees B.blocks keyspace.old at.now key.now found }
    requires latest { IsDeadline to }
    requires late { in_time at.now.moment to ≡ true }
    ensures world { OnOk result
        ((entry : Entry) → look (visible B.blocks keyspace.old at.now) key.now ≡ Some entry
        → visible B.blocks keyspace.new at.now ≡ put (visible B.blocks keyspace.old at.now) key.now (record { value = entry.value; deadline = to })) }
    ensures held { KeepsTo B.blocks B.step (no_key at.now.db) keyspace.old keyspace.new }
    ensures err { OnErr result ((keyspace.new.bases ≡ keyspace.old.bases) × (keyspace.new.store ≡ keyspace.old.store)) }
{
    match keyspace.set_sought(at.db, key, found, to) {
        Ok(_) => Ok(()),
        Err(error) => Err(error),
    }
}

/// What stands at a key that was sought for the command gets this deadline, in milliseconds; by one that is not after the
/// moment the key is removed. Where nothing stands there, nothing changes. `Memory` leaves
/// all.
pub fn expire_sought<B: BlockStore>(
    keyspace: &mut Keyspace<B>,
    at: &Ctx,
    key: &[u8],
    found: SoughtAt,
    due: i64,
) -> Result<(), Memory>
    requires ready { Ready B.blocks keyspace.old at.now }
    requires sees { Sees B.blocks keyspace.old at.now key.now found }
    ensures world { OnOk result
        (visible B.blocks keyspace.new at.now ≡ model.expire (visible B.blocks keyspace.old at.now) at.now.moment key.now due (look (visible B.blocks keyspace.old at.now) key.now)) }
    ensures held { KeepsTo B.blocks B.step (no_key at.now.db) keyspace.old keyspace.new }
    ensures err { OnErr result ((keyspace.new.bases ≡ keyspace.old.bases) × (keyspace.new.store ≡ keyspace.old.store)) }
{
    match found.there {
        None => Ok(()),
        Some(_) => {
            if i128::from(at.moment) < i128::from(due) {
                return retime(keyspace, at, key, found, Some(due as u64));
            }
            let _ = keyspace.drop_hashed(at.db, found.sought.hash, key);
            Ok(())
        }
    }
}

/// What stands at a key that was sought for the command has no deadline any more. The answer is whether it had one. `Memory`
/// leaves all.
pub fn persist_sought<B: BlockStore>(
    keyspace: &mut Keyspace<B>,
    at: &Ctx,
    key: &[u8],
    found: SoughtAt,
) -> Result<bool, Memory>
    requires ready { Ready B.blocks keyspace.old at.now }
    requires sees { Sees B.blocks keyspace.old at.now key.now found }
    ensures answer { IfOk result (λ had. had ≡ is_some (deadline_of (look (visible B.blocks keyspace.old at.now) key.now))) }
    ensures world { OnOk result (visible B.blocks keyspace.new at.now ≡ model.persist (visible B.blocks keyspace.old at.now) key.now (look (visible B.blocks keyspace.old at.now) key.now)) }
    ensures held { KeepsTo B.blocks B.step (no_key at.now.db) keyspace.old keyspace.new }
    ensures err { OnErr result ((keyspace.new.bases ≡ keyspace.old.bases) × (keyspace.new.store ≡ keyspace.old.store)) }
{
    match found.there {
        None => Ok(false),
        Some(_) => match found.deadline {
            None => Ok(false),
            Some(_) => match retime(keyspace, at, key, found, None) {
                Ok(()) => Ok(true),
                Err(error) => Err(error),
            },
        },
    }
}
