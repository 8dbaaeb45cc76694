//! Keys of a file, put into a keyspace.

ghost use Rattle.object_codec.specs.declared.limits.Limits.{Limits};
ghost use Rattle.std.specs.Prelude.{◌≡◌, ◌<◌, ℕ, [], OnOk, OnErr, IfOk, is_some, true};
ghost use Rattle.blocks.specs.Blocks.{Changes, Served};
ghost use Rattle.plain_world.specs.Worlds.{Str, in_time, look, put};
ghost use Rattle.keyspace.specs.Databases.{means, SameSettings};
ghost use Rattle.keyspace.specs.Sound.{Sound, IsIntact};
ghost use Rattle.keyspace.specs.Scopes.{Within};
ghost use Rattle.keyspace.specs.Values as values;
ghost use Rattle.held.specs.Calls.{IsDeadline};
ghost use Rattle.rdb_grammar.specs.Views.{text_of};
ghost use Rattle.rdb_reader.specs.Forms.{AreNew};
ghost use Rattle.rdb_reader.specs.Loads.{Puts, any_key};

use blocks::{BlockStore, Memory};
use itoa::Buffer;
use keyspace::{Keyspace, Value};
use rdb_grammar::{Chunk, text};
use string_object::Text;

// Makes a string of the file over the blocks of a store. For want of memory no block changes.
fn make_text<B: BlockStore>(store: &mut B, value: &Chunk<'_>) -> Result<Value, Memory>
    ensures means { IfOk result (λ made. values.value_of (B.blocks store.new) made ≡ Str (text_of value.now)) }
    ensures whole { IfOk result (λ made. values.IsWrittenWhole made) }
    ensures changes { IfOk result (λ made. Changes (B.blocks store.old) (B.blocks store.new) [] (values.value_refs (B.blocks store.new) made)) }
    ensures sound { IfOk result (λ made. (limits : Limits) (seed : ℕ) → values.IsSound limits seed (B.blocks store.new) made) }
    ensures served { Served B.step store.old store.new }
    ensures err { OnErr result (B.blocks store.new ≡ B.blocks store.old) }
{
    let mut buffer = Buffer::new();
    let text = Text::make(store, text(value, &mut buffer))?;
    Ok(Value::Text(text))
}

// Lets a string of the file stand at a key of a database, with this deadline or without one.
#[tactic(auto, using(keyspace::proofs::Serving::nothing, keyspace::proofs::Serving::both))]
fn put_text<B: BlockStore>(
    keyspace: &mut Keyspace<B>,
    db: usize,
    name: &[u8],
    value: &Chunk<'_>,
    deadline: Option<u64>,
) -> Result<(), Memory>
    requires db { db < 16 }
    requires latest { IsDeadline deadline }
    requires sound { Sound keyspace.old.bases (B.blocks keyspace.old.store) }
    ensures world { OnOk result
        (means db keyspace.new.bases (B.blocks keyspace.new.store) ≡ put (means db keyspace.old.bases (B.blocks keyspace.old.store)) name.now
        (record { value = Str (text_of value.now); deadline = deadline })) }
    ensures sound { Sound keyspace.new.bases (B.blocks keyspace.new.store) }
    ensures served { Served B.step keyspace.old.store keyspace.new.store }
    ensures settings { SameSettings keyspace.old.bases keyspace.new.bases }
    ensures within { Within any_key keyspace.old.bases keyspace.new.bases (B.blocks keyspace.old.store) (B.blocks keyspace.new.store) }
    ensures form { OnOk result (AreNew keyspace.old.bases (B.blocks keyspace.old.store) → AreNew keyspace.new.bases (B.blocks keyspace.new.store)) }
{
    let made = make_text(&mut keyspace.store, value)?;
    keyspace.put(db, name, made, deadline)
}

// Whether something stands at a key of a database: no deadline is past at moment 0.
pub(crate) fn is_there<B: BlockStore>(keyspace: &Keyspace<B>, db: usize, name: &[u8]) -> bool
    requires db { db < 16 }
    requires intact { IsIntact keyspace.now.bases (B.blocks keyspace.now.store) [] }
    ensures { result ≡ is_some (look (means db keyspace.now.bases (B.blocks keyspace.now.store)) name.now) }
{
    keyspace.look(db, name, 0).is_some()
}

// Whether the moment is not past a deadline: a key stays through the moment of its deadline. Both are in milliseconds.
pub(crate) fn is_in_time(moment: u64, deadline: Option<u64>) -> bool
    ensures { result ≡ in_time moment deadline }
{
    match deadline {
        None => true,
        Some(deadline) => moment <= deadline,
    }
}

/// What became of a key of the file.
#[derive(Clone, Copy)]
pub enum Put {
    /// It was put.
    Kept,
    /// Its deadline is past, or it is a collection without an element, and nothing changed.
    Passed,
    /// It was there before.
    Twice,
}

/// Puts a key of the file with its string into a database, unless the moment is past its deadline. After `Twice`, and for want
/// of memory, the key may have the later value. No memory is wanted where it is passed over.
//
// A key that is kept is searched only once, when it is put: where it was there, the count of keys stays.
#[tactic(auto, using(keyspace::proofs::Serving::nothing, keyspace::proofs::Serving::both, keyspace::proofs::Serving::unmoved, keyspace::proofs::Serving::further))]
pub fn put_key<B: BlockStore>(
    keyspace: &mut Keyspace<B>,
    db: usize,
    name: &Chunk<'_>,
    value: &Chunk<'_>,
    deadline: Option<u64>,
    moment: u64,
) -> Result<Put, Memory>
    requires db { db < 16 }
    requires latest { IsDeadline deadline }
    requires sound { Sound keyspace.old.bases (B.blocks keyspace.old.store) }
    ensures memory { OnErr result (in_time moment deadline ≡ true) }
    ensures puts { IfOk result
        (Puts moment (means db keyspace.old.bases (B.blocks keyspace.old.store)) (means db keyspace.new.bases (B.blocks keyspace.new.store)) (text_of name.now)
        (record { value = Str (text_of value.now); deadline = deadline })) }
    ensures sound { Sound keyspace.new.bases (B.blocks keyspace.new.store) }
    ensures served { Served B.step keyspace.old.store keyspace.new.store }
    ensures settings { SameSettings keyspace.old.bases keyspace.new.bases }
    ensures within { Within any_key keyspace.old.bases keyspace.new.bases (B.blocks keyspace.old.store) (B.blocks keyspace.new.store) }
    ensures form { IfOk result (λ put. AreNew keyspace.old.bases (B.blocks keyspace.old.store) → AreNew keyspace.new.bases (B.blocks keyspace.new.store)) }
{
    let mut buffer = Buffer::new();
    let name = text(name, &mut buffer);
    if !is_in_time(moment, deadline) {
        if is_there(keyspace, db, name) {
            return Ok(Put::Twice);
        }
        return Ok(Put::Passed);
    }
    let before = keyspace.count(db);
    put_text(keyspace, db, name, value, deadline)?;
    if keyspace.count(db) == before {
        return Ok(Put::Twice);
    }
    Ok(Put::Kept)
}
