//! Loading a file into a keyspace.

ghost use Rattle.std.specs.Prelude.{◌≡◌, true};
ghost use Rattle.outside.specs.Files.{IsListed};
ghost use Rattle.blocks.specs.Blocks.{Served};
ghost use Rattle.plain_world.specs.Worlds.{new_world};
ghost use Rattle.keyspace.specs.Databases.{means, SameSettings};
ghost use Rattle.keyspace.specs.Sound.{Sound};
ghost use Rattle.keyspace.specs.Scopes.{anything, Within};
ghost use Rattle.rdb_reader.specs.Forms.{AreNew};
ghost use Rattle.rdb_reader.specs.Fetching.{Counts, has_failed};
ghost use Rattle.rdb_reader.specs.Taken.{TakesFile};
ghost use Rattle.rdb_reader.specs.Loads.{Loads, load_scope};

use crate::fault::LoadFault;
use crate::fetch::fetch;
use crate::items::read_items;
use blocks::BlockStore;
use keyspace::Keyspace;
use outside::Host;
use std::alloc::Global;

/// What a file held.
#[derive(Clone, Copy, Debug, PartialEq, Eq)]
pub struct Loaded {
    /// How many keys are kept.
    pub keys: u64,
    /// How many keys were passed over.
    pub passed: u64,
}

// Removes all keys of all databases with all their blocks, without memory.
fn clear_all<B: BlockStore>(keyspace: &mut Keyspace<B>)
    requires { Sound keyspace.old.bases (B.blocks keyspace.old.store) }
    ensures empty { means 0 keyspace.new.bases (B.blocks keyspace.new.store) ≡ new_world }
    ensures sound { Sound keyspace.new.bases (B.blocks keyspace.new.store) }
    ensures served { Served B.step keyspace.old.store keyspace.new.store }
    ensures settings { SameSettings keyspace.old.bases keyspace.new.bases }
    ensures within { Within anything keyspace.old.bases keyspace.new.bases (B.blocks keyspace.old.store) (B.blocks keyspace.new.store) }
{
    'databases: for db in 0..16 {
        keyspace.clear(db);
    }
}

/// Loads the host's file of this name, of at most so many bytes, into a keyspace without a key. A key whose deadline the
/// moment is past is passed over; the moment is in milliseconds.
///
/// `Refused` comes exactly where the format excludes the file, with its first fault; `Host` exactly where the host's
/// count of faults rose, before one byte more than the limit was taken; `Limit` exactly where the file has more bytes than the
/// limit. After each fault the keyspace has no key.
///
/// The tables come from those before, after a fault also from none, by inserts and removals, and each value is encoded as one that is written
/// anew: a string as one written whole, a collection in the least form that fits (Redis command reference, "OBJECT ENCODING").
#[tactic(auto, using(keyspace::proofs::Serving::nothing, keyspace::proofs::Serving::both, keyspace::proofs::Serving::unmoved, keyspace::proofs::Serving::further))]
pub fn load<H: Host, B: BlockStore>(
    alloc: Global,
    host: &mut H,
    name: &str,
    limit: u64,
    keyspace: &mut Keyspace<B>,
    moment: u64,
) -> Result<Loaded, LoadFault>
    requires empty { means 0 keyspace.old.bases (B.blocks keyspace.old.store) ≡ new_world }
    requires sound { Sound keyspace.old.bases (B.blocks keyspace.old.store) }
    ensures few { TakesFile (H.seen host.old).files name.now limit (H.seen host.new) (has_failed result) }
    ensures loads { Loads (H.seen host.old).files name.now limit moment (means 0 keyspace.new.bases (B.blocks keyspace.new.store)) result }
    ensures counts { Counts (H.seen host.old).reading.faults (H.seen host.new).reading.faults (((H.seen host.old).reading.sure ≡ true) × IsListed (H.seen host.old).files name.now) result }
    ensures sound { Sound keyspace.new.bases (B.blocks keyspace.new.store) }
    ensures served { Served B.step keyspace.old.store keyspace.new.store }
    ensures settings { SameSettings keyspace.old.bases keyspace.new.bases }
    ensures within { Within (load_scope result) keyspace.old.bases keyspace.new.bases (B.blocks keyspace.old.store) (B.blocks keyspace.new.store) }
    ensures form { AreNew keyspace.new.bases (B.blocks keyspace.new.store) }
{
    let bytes = match fetch(alloc, host, name, limit) {
        Ok(bytes) => bytes,
        Err(fault) => return Err(fault),
    };
    match read_items(alloc, bytes.as_slice(), keyspace, moment) {
        Ok(loaded) => Ok(loaded),
        Err(fault) => {
            clear_all(keyspace);
            Err(fault)
        }
    }
}
