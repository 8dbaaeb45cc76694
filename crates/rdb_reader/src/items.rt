//! The items of a file, one by one.

ghost use Rattle.std.specs.Prelude.{◌≡◌, ◌<◌, IfOk};
ghost use Rattle.held.specs.Calls.{IsDeadline};
ghost use Rattle.blocks.specs.Blocks.{Served};
ghost use Rattle.plain_world.specs.Worlds.{new_world};
ghost use Rattle.keyspace.specs.Databases.{means, SameSettings};
ghost use Rattle.keyspace.specs.Sound.{Sound};
ghost use Rattle.keyspace.specs.Scopes.{Within};
ghost use Rattle.rdb_grammar.specs.Returns.{IsPartAt};
ghost use Rattle.rdb_grammar.specs.Views.{text_of, key_of};
ghost use Rattle.rdb_reader.specs.Forms.{AreNew};
ghost use Rattle.rdb_reader.specs.Loads.{Holds, ReadsKey, ReadsItem, ReadsAll, any_key};

use crate::building::refused;
use crate::collections::put_collection;
use crate::fault::LoadFault;
use crate::keys::{Put, put_key};
use crate::loading::Loaded;
use crate::streams::not_read;
use blocks::BlockStore;
use keyspace::Keyspace;
use rdb_grammar::{Chunk, FileValue, LoadKind, Meaning, check_header, next_item};
use std::alloc::Global;

/// How far a file is read.
#[derive(Clone, Copy)]
pub struct Progress {
    /// The offset of the next item in bytes.
    pub at: usize,
    /// The database of the keys that follow, 0 to 15.
    pub db: usize,
    /// The deadline that waits for the next key, in milliseconds.
    pub deadline: Option<u64>,
    /// How many keys are kept.
    pub keys: u64,
    /// How many keys were passed over.
    pub passed: u64,
}

/// What the reading of an item led to.
#[derive(Clone, Copy)]
pub enum Read {
    /// More items follow.
    More(Progress),
    /// The file ended.
    End,
}

// Reads what is left of a key from an offset on, and puts the key.
#[tactic(none)]
fn read_key<B: BlockStore>(
    bytes: &[u8],
    keyspace: &mut Keyspace<B>,
    so_far: Progress,
    next: usize,
    name: &Chunk<'_>,
    value: &FileValue<'_>,
    moment: u64,
) -> Result<(Put, usize), LoadFault>
    requires db { so_far.db < 16 }
    requires latest { IsDeadline so_far.deadline }
    requires stands { IsPartAt bytes.now so_far.at next (key_of (text_of name.now) value.now) }
    requires sound { Sound keyspace.old.bases (B.blocks keyspace.old.store) }
    ensures reads { ReadsKey bytes.now moment so_far (means so_far.db keyspace.old.bases (B.blocks keyspace.old.store)) (means so_far.db keyspace.new.bases (B.blocks keyspace.new.store))
        (text_of name.now) result }
    ensures sound { Sound keyspace.new.bases (B.blocks keyspace.new.store) }
    ensures served { Served B.step keyspace.old.store keyspace.new.store }
    ensures settings { SameSettings keyspace.old.bases keyspace.new.bases }
    ensures within { Within any_key keyspace.old.bases keyspace.new.bases (B.blocks keyspace.old.store) (B.blocks keyspace.new.store) }
    ensures form { IfOk result (λ read. AreNew keyspace.old.bases (B.blocks keyspace.old.store) → AreNew keyspace.new.bases (B.blocks keyspace.new.store)) }
{
    let Progress { db, deadline, .. } = so_far;
    match value {
        FileValue::Text(text) => match put_key(keyspace, db, name, text, deadline, moment) {
            Ok(put) => Ok((put, next)),
            Err(_) => Err(LoadFault::Memory),
        },
        FileValue::Laid(layout) => {
            put_collection(keyspace, db, name, *layout, bytes, next, deadline, moment)
        }
    }
}

// Reads the next item.
#[tactic(auto, using(keyspace::proofs::Serving::nothing, keyspace::proofs::Serving::both, keyspace::proofs::Serving::unmoved, keyspace::proofs::Serving::further))]
fn read_item<B: BlockStore>(
    alloc: Global,
    bytes: &[u8],
    keyspace: &mut Keyspace<B>,
    so_far: Progress,
    moment: u64,
) -> Result<Read, LoadFault>
    requires held { Holds bytes.now moment (means 0 keyspace.old.bases (B.blocks keyspace.old.store)) so_far }
    requires sound { Sound keyspace.old.bases (B.blocks keyspace.old.store) }
    ensures reads { ReadsItem bytes.now moment so_far (means 0 keyspace.old.bases (B.blocks keyspace.old.store)) (means 0 keyspace.new.bases (B.blocks keyspace.new.store)) result }
    ensures sound { Sound keyspace.new.bases (B.blocks keyspace.new.store) }
    ensures served { Served B.step keyspace.old.store keyspace.new.store }
    ensures settings { SameSettings keyspace.old.bases keyspace.new.bases }
    ensures within { Within any_key keyspace.old.bases keyspace.new.bases (B.blocks keyspace.old.store) (B.blocks keyspace.new.store) }
    ensures form { IfOk result (λ read. AreNew keyspace.old.bases (B.blocks keyspace.old.store) → AreNew keyspace.new.bases (B.blocks keyspace.new.store)) }
{
    let item = match next_item(alloc, bytes, so_far.at) {
        Ok(item) => item,
        Err(fault) => return Err(not_read(fault)),
    };
    let behind = Progress {
        at: item.next,
        ..so_far
    };
    match item.meaning {
        Meaning::End => Ok(Read::End),
        Meaning::Passed => Ok(Read::More(behind)),
        Meaning::Deadline(deadline) => Ok(Read::More(Progress {
            deadline: Some(deadline),
            ..behind
        })),
        Meaning::Database(db) => Ok(Read::More(Progress { db, ..behind })),
        Meaning::Key { name, value } => {
            match read_key(bytes, keyspace, so_far, item.next, &name, &value, moment) {
                Ok((Put::Kept, next)) => Ok(Read::More(Progress {
                    at: next,
                    deadline: None,
                    keys: so_far.keys + 1,
                    ..so_far
                })),
                Ok((Put::Passed, next)) => Ok(Read::More(Progress {
                    at: next,
                    deadline: None,
                    passed: so_far.passed + 1,
                    ..so_far
                })),
                Ok((Put::Twice, _)) => Err(LoadFault::Refused {
                    kind: LoadKind::DuplicateKey,
                    at: so_far.at as u64 + 1,
                }),
                Err(fault) => Err(fault),
            }
        }
    }
}

/// Reads the items of a file into a keyspace without a key at a moment, in milliseconds, and says how many keys it has, and
/// how many were passed over.
///
/// `Refused` comes exactly by the file's first fault, and `Memory` for want of memory. Some keys may stand after a fault.
#[tactic(auto, using(keyspace::proofs::Serving::nothing, keyspace::proofs::Serving::both, keyspace::proofs::Serving::unmoved, keyspace::proofs::Serving::further))]
pub fn read_items<B: BlockStore>(
    alloc: Global,
    bytes: &[u8],
    keyspace: &mut Keyspace<B>,
    moment: u64,
) -> Result<Loaded, LoadFault>
    requires empty { means 0 keyspace.old.bases (B.blocks keyspace.old.store) ≡ new_world }
    requires sound { Sound keyspace.old.bases (B.blocks keyspace.old.store) }
    ensures reads { ReadsAll bytes.now moment (means 0 keyspace.new.bases (B.blocks keyspace.new.store)) result }
    ensures sound { Sound keyspace.new.bases (B.blocks keyspace.new.store) }
    ensures served { Served B.step keyspace.old.store keyspace.new.store }
    ensures settings { SameSettings keyspace.old.bases keyspace.new.bases }
    ensures within { Within any_key keyspace.old.bases keyspace.new.bases (B.blocks keyspace.old.store) (B.blocks keyspace.new.store) }
    ensures form { IfOk result (λ loaded. AreNew keyspace.new.bases (B.blocks keyspace.new.store)) }
{
    let at = match check_header(bytes) {
        Ok(at) => at,
        Err(fault) => return Err(refused(fault)),
    };
    let mut so_far = Progress {
        at,
        db: 0,
        deadline: None,
        keys: 0,
        passed: 0,
    };
    'items: loop {
        match read_item(alloc, bytes, keyspace, so_far, moment) {
            Ok(Read::More(further)) => so_far = further,
            Ok(Read::End) => {
                return Ok(Loaded {
                    keys: so_far.keys,
                    passed: so_far.passed,
                });
            }
            Err(fault) => return Err(fault),
        }
    }
}
