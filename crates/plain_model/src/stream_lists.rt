//! Lists of ids, and of keys with ids.

ghost use Rattle.std.specs.Prelude.{◌≡◌, ◌∷◌, [], ◌++◌, OnOk, OnErr};

use crate::{EntryId, Word};
use std::alloc::{AllocError, Global};
use std::marker::Model;

/// Ids of entries, which contracts see as a list of pairs of numbers.
#[derive(Drop)]
pub struct IdList {
    ids: Vec<EntryId>,
}

impl Model for IdList {
    ghost use Rattle.std.specs.Prelude.{List, ℕ};

    ghost Value = { List (ℕ × ℕ) };

    ghost view = { λ l. l.ids.items };
}

impl IdList {
    /// No ids.
    pub fn new(alloc: Global) -> IdList
        ensures { result ≡ [] }
    {
        IdList {
            ids: Vec::new(alloc),
        }
    }

    /// Adds an id behind the others. `Memory` leaves the list.
    pub fn push(&mut self, id: EntryId) -> Result<(), AllocError>
        ensures ok { OnOk result (self.new ≡ self.old ++ id ∷ []) }
        ensures err { OnErr result (self.new ≡ self.old) }
    {
        self.ids.push(id)?;
        Ok(())
    }

    /// The ids.
    pub fn as_slice(&self) -> &[EntryId]
        ensures { result.now ≡ self.now }
    {
        self.ids.as_slice()
    }
}

/// Keys, each with an id or with the sign that stands for one, which contracts see as a list of pairs.
#[derive(Drop)]
pub struct ReadList<'a> {
    keys: Vec<(Word<'a>, Option<EntryId>)>,
}

impl<'a> Model for ReadList<'a> {
    ghost use Rattle.std.specs.Prelude.{List, ℕ, Option};

    ghost Value = { List (List ℕ × Option (ℕ × ℕ)) };

    ghost view = { λ l. l.keys.items };
}

impl<'a> ReadList<'a> {
    /// No keys.
    pub fn new(alloc: Global) -> ReadList<'a>
        ensures { result ≡ [] }
    {
        ReadList {
            keys: Vec::new(alloc),
        }
    }

    /// Adds a key with its id behind the others. `Memory` leaves the list.
    pub fn push(&mut self, key: Word<'a>, id: Option<EntryId>) -> Result<(), AllocError>
        ensures ok { OnOk result (self.new ≡ self.old ++ (key.entry, id) ∷ []) }
        ensures err { OnErr result (self.new ≡ self.old) }
    {
        self.keys.push((key, id))?;
        Ok(())
    }

    /// The keys with their ids.
    pub fn as_slice(&self) -> &[(Word<'a>, Option<EntryId>)]
        ensures { result.now ≡ self.now }
    {
        self.keys.as_slice()
    }
}
