//! Numbers at keys.

ghost use Rattle.std.specs.Prelude.{◌≡◌, ◌++◌, ◌∷◌, [], OnOk};
ghost use Rattle.std.specs.FinMap.{empty, insert};
ghost use Rattle.std.specs.Option.{option_map};
ghost use Rattle.key_marks.specs.Marked.{marks_at, numbers_of, or_none};

use std::alloc::{AllocError, Global};
use std::collections::BTreeMap;
use std::marker::Model;

/// Numbers at keys, which contracts see as a finite map from keys to lists of numbers. A key is looked up in as many steps as
/// the logarithm of how many there are; no clause says so.
#[derive(Drop)]
pub struct Marks {
    alloc: Global,
    marks: BTreeMap<Vec<u8>, Vec<usize>>,
}

impl Model for Marks {
    ghost use Rattle.std.specs.Prelude.{ℕ, List};
    ghost use Rattle.std.specs.FinMap as map;
    ghost use Rattle.std.specs.Coded.{coded_ℕ, coded_list};
    ghost use Rattle.stream_groups.specs.Groups.{name_cmp};
    ghost use Rattle.stream_groups.specs.Kept.{named, NamesRise};
    ghost use Rattle.key_marks.specs.Marked.{numbers_of};

    ghost Value = { map.FinMap name_cmp (List ℕ) };

    ghost coded = { map.code (coded_list coded_ℕ) (coded_list coded_ℕ) };

    ghost view = { λ m. named numbers_of m.marks.entries };

    ghost invariant = { λ m. NamesRise m.marks.entries };
}

// These numbers, or none.
fn some_or_none(alloc: Global, found: Option<Vec<usize>>) -> Vec<usize>
    ensures { numbers_of result ≡ or_none (option_map numbers_of found) }
{
    match found {
        None => Vec::new(alloc),
        Some(numbers) => numbers,
    }
}

impl Marks {
    /// No number at any key.
    pub fn new(alloc: Global) -> Marks
        ensures { result ≡ empty }
    {
        Marks {
            alloc,
            marks: BTreeMap::new(alloc),
        }
    }

    /// The numbers at a key, in the order in which they were added.
    pub fn at(&self, key: &[u8]) -> &[usize]
        ensures { result.now ≡ marks_at self.now key.now }
    {
        match self.marks.get(key) {
            None => &[],
            Some(numbers) => numbers.as_slice(),
        }
    }

    /// Adds a number at a key, behind those that are there. `Err` where memory was refused; then those of the key may be gone.
    pub fn add(&mut self, key: &[u8], number: usize) -> Result<(), AllocError>
        ensures { OnOk result (self.new ≡ insert self.old key.now (marks_at self.old key.now ++ number ∷ [])) }
    {
        let name = Vec::from_slice(self.alloc, key)?;
        let found = self.marks.remove(key);
        let mut numbers = some_or_none(self.alloc, found);
        numbers.push(number)?;
        self.marks.insert(name, numbers)?;
        Ok(())
    }

    /// Removes all.
    pub fn clear(&mut self)
        ensures { self.new ≡ empty }
    {
        self.marks.clear();
    }
}
