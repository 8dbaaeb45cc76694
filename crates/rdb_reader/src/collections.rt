//! Keys of a file with collections, put into a keyspace.

ghost use Rattle.std.specs.Prelude.{◌≡◌, ◌≤◌, ◌<◌, ℕ, IfOk, length};
ghost use Rattle.blocks.specs.Blocks.{Blocks, Served};
ghost use Rattle.object_codec.specs.declared.limits.Limits.{Limits};
ghost use Rattle.keyspace.specs.Databases.{means, SameSettings};
ghost use Rattle.keyspace.specs.Sound.{Sound, SoundBeside};
ghost use Rattle.keyspace.specs.Scopes.{Within};
ghost use Rattle.keyspace.specs.Values.{value_of, value_refs, IsSound};
ghost use Rattle.held.specs.Calls.{IsDeadline};
ghost use Rattle.rdb_grammar.specs.Files.{is_void as is_void_value};
ghost use Rattle.rdb_grammar.specs.Views.{text_of};
ghost use Rattle.rdb_reader.specs.Building.{ReadsCollection};
ghost use Rattle.rdb_reader.specs.Loads.{IsFate, Puts, any_key};
ghost use Rattle.rdb_reader.specs.Forms.{IsNew, AreNew};

use crate::building::begin;
use crate::fault::LoadFault;
use crate::keys::{Put, is_in_time, is_there};
use crate::layouts::{kind_of, read_laid};
use blocks::{BlockStore, Memory};
use itoa::Buffer;
use keyspace::{Keyspace, Value};
use rdb_grammar::{Chunk, Layout, text};
use stored::Stored;

// Whether a value is a collection without an element.
fn is_void(value: &Value) -> bool
    ensures { (m : Blocks) (limits : Limits) (seed : ℕ) → IsSound limits seed m value.now → result ≡ is_void_value (value_of m value.now) }
{
    match value {
        Value::Text(_) | Value::Stream(_) => false,
        Value::List(list) => list.len() == 0,
        Value::Set(members) => members.len() == 0,
        Value::Hash(fields) => fields.len() == 0,
        Value::Zset(scored) => scored.len() == 0,
    }
}

// What is to become of a key with a value that was built.
#[tactic(auto, using(keyspace::proofs::Serving::nothing, keyspace::proofs::Serving::both))]
fn fate<B: BlockStore>(
    keyspace: &Keyspace<B>,
    db: usize,
    name: &[u8],
    value: &Value,
    deadline: Option<u64>,
    moment: u64,
) -> Put
    requires db { db < 16 }
    requires beside { SoundBeside keyspace.now.bases (B.blocks keyspace.now.store) (value_refs (B.blocks keyspace.now.store) value.now) }
    requires own { IsSound keyspace.now.bases.limits keyspace.now.bases.seed (B.blocks keyspace.now.store) value.now }
    ensures { IsFate moment (means db keyspace.now.bases (B.blocks keyspace.now.store)) name.now (record { value = value_of (B.blocks keyspace.now.store) value.now; deadline = deadline }) result }
{
    if is_there(keyspace, db, name) {
        return Put::Twice;
    }
    if is_void(value) {
        return Put::Passed;
    }
    if is_in_time(moment, deadline) {
        Put::Kept
    } else {
        Put::Passed
    }
}

// Puts a key with a value that was built into a database, or gives the value back where the key is passed over or was there
// before.
#[tactic(auto, using(keyspace::proofs::Serving::nothing, keyspace::proofs::Serving::both))]
fn put_made<B: BlockStore>(
    keyspace: &mut Keyspace<B>,
    db: usize,
    name: &[u8],
    value: Value,
    deadline: Option<u64>,
    moment: u64,
) -> Result<Put, Memory>
    requires db { db < 16 }
    requires latest { IsDeadline deadline }
    requires beside { SoundBeside keyspace.old.bases (B.blocks keyspace.old.store) (value_refs (B.blocks keyspace.old.store) value) }
    requires own { IsSound keyspace.old.bases.limits keyspace.old.bases.seed (B.blocks keyspace.old.store) value }
    ensures puts { IfOk result
        (Puts moment (means db keyspace.old.bases (B.blocks keyspace.old.store)) (means db keyspace.new.bases (B.blocks keyspace.new.store)) name.now
        (record { value = value_of (B.blocks keyspace.old.store) value; deadline = deadline })) }
    ensures sound { Sound keyspace.new.bases (B.blocks keyspace.new.store) }
    ensures served { Served B.step keyspace.old.store keyspace.new.store }
    ensures settings { SameSettings keyspace.old.bases keyspace.new.bases }
    ensures within { Within any_key keyspace.old.bases keyspace.new.bases (B.blocks keyspace.old.store) (B.blocks keyspace.new.store) }
    ensures form { IfOk result
        (λ put. IsNew keyspace.old.bases.limits (B.blocks keyspace.old.store) value → AreNew keyspace.old.bases (B.blocks keyspace.old.store)
        → AreNew keyspace.new.bases (B.blocks keyspace.new.store)) }
{
    match fate(keyspace, db, name, &value, deadline, moment) {
        Put::Kept => {
            keyspace.put(db, name, value, deadline)?;
            Ok(Put::Kept)
        }
        Put::Passed => {
            value.release(&mut keyspace.store);
            Ok(Put::Passed)
        }
        Put::Twice => {
            value.release(&mut keyspace.store);
            Ok(Put::Twice)
        }
    }
}

/// Reads a key's collection or stream, which is laid out from an offset on, and puts the key into a database, unless it is passed
/// over or was there before. The offset behind it is answered. A collection that is passed over is built too, since a
/// member or field that stands twice is found by its table.
#[tactic(none)]
pub fn put_collection<B: BlockStore>(
    keyspace: &mut Keyspace<B>,
    db: usize,
    name: &Chunk<'_>,
    layout: Layout,
    bytes: &[u8],
    at: usize,
    deadline: Option<u64>,
    moment: u64,
) -> Result<(Put, usize), LoadFault>
    requires db { db < 16 }
    requires latest { IsDeadline deadline }
    requires at { at ≤ length bytes.now }
    requires sound { Sound keyspace.old.bases (B.blocks keyspace.old.store) }
    ensures reads { ReadsCollection bytes.now moment (means db keyspace.old.bases (B.blocks keyspace.old.store)) (means db keyspace.new.bases (B.blocks keyspace.new.store)) (text_of name.now) layout
        at deadline result }
    ensures sound { Sound keyspace.new.bases (B.blocks keyspace.new.store) }
    ensures served { Served B.step keyspace.old.store keyspace.new.store }
    ensures settings { SameSettings keyspace.old.bases keyspace.new.bases }
    ensures within { Within any_key keyspace.old.bases keyspace.new.bases (B.blocks keyspace.old.store) (B.blocks keyspace.new.store) }
    ensures form { IfOk result (λ put. AreNew keyspace.old.bases (B.blocks keyspace.old.store) → AreNew keyspace.new.bases (B.blocks keyspace.new.store)) }
{
    let alloc = keyspace.alloc();
    let mut made = match begin(alloc, keyspace.limits(), keyspace.seed(), kind_of(layout)) {
        Ok(made) => made,
        Err(_) => return Err(LoadFault::Memory),
    };
    let next = match read_laid(alloc, &mut made, &mut keyspace.store, bytes, at, layout) {
        Ok(next) => next,
        Err(fault) => {
            made.release(&mut keyspace.store);
            return Err(fault);
        }
    };
    let mut buffer = Buffer::new();
    let name = text(name, &mut buffer);
    match put_made(keyspace, db, name, made, deadline, moment) {
        Ok(put) => Ok((put, next)),
        Err(_) => Err(LoadFault::Memory),
    }
}
