//! What was read out, by its type.

ghost use Rattle.std.specs.Prelude.{◌≡◌, ◌↔◌, IsTrue};
ghost use Rattle.plain_world.specs.Worlds.{Str, ListOf, SetOf, HashOf, SortedOf, StreamOf};
ghost use Rattle.told_values.specs.Told.{texts_told, set_told, hash_told, scores_told, log_told, told, IsOrdered, AreOrdered};

use crate::hashes::{Pairs, same_pairs};
use crate::lists::same_texts;
use crate::scores::{Scores, same_scores};
use crate::sets::{Names, same_names};
use crate::streams::{Log, same_logs};
use crate::texts::same_bytes;

/// A value of one of the six types.
#[derive(Drop)]
pub(crate) enum Kind {
    Text(Vec<u8>),
    List(Vec<Vec<u8>>),
    Set(Names),
    Hash(Pairs),
    Sorted(Scores),
    Stream(Log),
}

impl Kind {
    // Whether it is this string.
    fn is_text(&self, text: &Vec<u8>) -> bool
        ensures { IsTrue result ↔ (told self.now ≡ Str text.now.items) }
    {
        match self {
            Kind::Text(own) => same_bytes(own, text),
            Kind::List(_) | Kind::Set(_) | Kind::Hash(_) | Kind::Sorted(_) | Kind::Stream(_) => {
                false
            }
        }
    }

    // Whether it is this list.
    fn is_list(&self, texts: &Vec<Vec<u8>>) -> bool
        ensures { IsTrue result ↔ (told self.now ≡ ListOf (texts_told texts.now.items)) }
    {
        match self {
            Kind::List(own) => same_texts(own, texts),
            Kind::Text(_) | Kind::Set(_) | Kind::Hash(_) | Kind::Sorted(_) | Kind::Stream(_) => {
                false
            }
        }
    }

    // Whether it is the set of these names.
    fn is_set(&self, names: &Names) -> bool
        ensures { IsTrue result ↔ (told self.now ≡ SetOf (set_told names.now.entries)) }
    {
        match self {
            Kind::Set(own) => same_names(own, names),
            Kind::Text(_) | Kind::List(_) | Kind::Hash(_) | Kind::Sorted(_) | Kind::Stream(_) => {
                false
            }
        }
    }

    // Whether it is the hash of these fields and values.
    fn is_hash(&self, pairs: &Pairs) -> bool
        ensures { IsTrue result ↔ (told self.now ≡ HashOf (hash_told pairs.now.entries)) }
    {
        match self {
            Kind::Hash(own) => same_pairs(own, pairs),
            Kind::Text(_) | Kind::List(_) | Kind::Set(_) | Kind::Sorted(_) | Kind::Stream(_) => {
                false
            }
        }
    }

    // Whether it is the sorted set of these members and scores.
    fn is_sorted(&self, scores: &Scores) -> bool
        ensures { IsTrue result ↔ (told self.now ≡ SortedOf (scores_told scores.now.entries)) }
    {
        match self {
            Kind::Sorted(own) => same_scores(own, scores),
            Kind::Text(_) | Kind::List(_) | Kind::Set(_) | Kind::Hash(_) | Kind::Stream(_) => false,
        }
    }

    // Whether it is this stream.
    fn is_stream(&self, log: &Log) -> bool
        requires own { IsOrdered self.now }
        requires log { AreOrdered log.now.groups.items }
        ensures { IsTrue result ↔ (told self.now ≡ StreamOf (log_told log.now)) }
    {
        match self {
            Kind::Stream(own) => same_logs(own, log),
            Kind::Text(_) | Kind::List(_) | Kind::Set(_) | Kind::Hash(_) | Kind::Sorted(_) => false,
        }
    }

    /// Whether both are the same value.
    pub(crate) fn same(&self, other: &Kind) -> bool
        requires own { IsOrdered self.now }
        requires other { IsOrdered other.now }
        ensures { IsTrue result ↔ (told self.now ≡ told other.now) }
    {
        match other {
            Kind::Text(text) => self.is_text(text),
            Kind::List(texts) => self.is_list(texts),
            Kind::Set(names) => self.is_set(names),
            Kind::Hash(pairs) => self.is_hash(pairs),
            Kind::Sorted(scores) => self.is_sorted(scores),
            Kind::Stream(log) => self.is_stream(log),
        }
    }
}
