//! Lists of words that are lent.

ghost use Rattle.std.specs.Prelude.{◌≡◌, ◌<◌, ◌∷◌, [], ◌++◌, List, ℕ, length, slice_get, OnOk, OnErr};

use crate::Word;
use std::alloc::{AllocError, Global};
use std::marker::Model;

/// Words, which contracts see as a list of lists of bytes.
#[derive(Drop)]
pub struct WordList<'a> {
    words: Vec<Word<'a>>,
}

impl<'a> Model for WordList<'a> {
    ghost use Rattle.std.specs.Prelude.{List, ℕ};

    ghost Value = { List (List ℕ) };

    ghost view = { λ l. l.words.items };
}

impl<'a> WordList<'a> {
    /// No words.
    pub fn new(alloc: Global) -> WordList<'a>
        ensures { result ≡ [] }
    {
        WordList {
            words: Vec::new(alloc),
        }
    }

    /// Adds a word behind the others. `Memory` leaves the list.
    pub fn push(&mut self, word: Word<'a>) -> Result<(), AllocError>
        ensures ok { OnOk result (self.new ≡ self.old ++ word.entry ∷ []) }
        ensures err { OnErr result (self.new ≡ self.old) }
    {
        self.words.push(word)?;
        Ok(())
    }

    /// The words.
    pub fn as_slice(&self) -> &[Word<'a>]
        ensures { result.now ≡ self.now }
    {
        self.words.as_slice()
    }
}

/// Pairs of words, which contracts see as a list of pairs.
#[derive(Drop)]
pub struct PairList<'a> {
    pairs: Vec<(Word<'a>, Word<'a>)>,
}

impl<'a> Model for PairList<'a> {
    ghost use Rattle.std.specs.Prelude.{List, ℕ};

    ghost Value = { List (List ℕ × List ℕ) };

    ghost view = { λ l. l.pairs.items };
}

impl<'a> PairList<'a> {
    /// No pairs.
    pub fn new(alloc: Global) -> PairList<'a>
        ensures { result ≡ [] }
    {
        PairList {
            pairs: Vec::new(alloc),
        }
    }

    /// Adds a pair behind the others. `Memory` leaves the list.
    pub fn push(&mut self, first: Word<'a>, second: Word<'a>) -> Result<(), AllocError>
        ensures ok { OnOk result (self.new ≡ self.old ++ (first.entry, second.entry) ∷ []) }
        ensures err { OnErr result (self.new ≡ self.old) }
    {
        self.pairs.push((first, second))?;
        Ok(())
    }

    /// The pairs.
    pub fn as_slice(&self) -> &[(Word<'a>, Word<'a>)]
        ensures { result.now ≡ self.now }
    {
        self.pairs.as_slice()
    }
}

/// Scores with their members, which contracts see as a list of pairs.
#[derive(Drop)]
pub struct ScoreList<'a> {
    scores: Vec<(i64, Word<'a>)>,
}

impl<'a> Model for ScoreList<'a> {
    ghost use Rattle.std.specs.Prelude.{List, ℕ, ℤ};

    ghost Value = { List (ℤ × List ℕ) };

    ghost view = { λ l. l.scores.items };
}

impl<'a> ScoreList<'a> {
    /// No pairs.
    pub fn new(alloc: Global) -> ScoreList<'a>
        ensures { result ≡ [] }
    {
        ScoreList {
            scores: Vec::new(alloc),
        }
    }

    /// Adds a score and its member behind the others. `Memory` leaves the list.
    pub fn push(&mut self, score: i64, member: Word<'a>) -> Result<(), AllocError>
        ensures ok { OnOk result (self.new ≡ self.old ++ (score, member.entry) ∷ []) }
        ensures err { OnErr result (self.new ≡ self.old) }
    {
        self.scores.push((score, member))?;
        Ok(())
    }

    /// The pairs.
    pub fn as_slice(&self) -> &[(i64, Word<'a>)]
        ensures { result.now ≡ self.now }
    {
        self.scores.as_slice()
    }
}
