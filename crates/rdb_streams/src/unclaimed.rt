//! Pending entries of a group that no consumer has claimed yet.

ghost use Rattle.std.specs.Prelude.{◌≡◌, ◌==◌, OnOk, OnErr};
ghost use Rattle.std.specs.Option.{option_map};
ghost use Rattle.std.specs.FinMap.{empty, get, contains_key, insert, remove, len};
ghost use Rattle.rdb_grammar.specs.Views.{pair_of, handed_of};

use rdb_grammar::{Handed, Memory};
use std::alloc::Global;
use std::collections::BTreeMap;
use std::marker::Model;
use stream_groups::Id as Pair;
use stream_node::Id;

/// When and how often each entry was handed out, by the entries' ids.
#[derive(Drop)]
pub(crate) struct Unclaimed {
    entries: BTreeMap<Pair, Handed>,
}

impl Model for Unclaimed {
    ghost use Rattle.rdb_streams.specs.Claims.{Claims, claims_code, claims_of};
    ghost use Rattle.stream_groups.specs.Kept.{IdsRise};

    ghost Value = { Claims };

    ghost coded = { claims_code };

    ghost view = { λ u. claims_of u.entries.entries };

    ghost invariant = { λ u. IdsRise u.entries.entries };
}

// An id as a pair of numbers.
fn pair(id: Id) -> Pair
    ensures { result ≡ pair_of id }
{
    (id.ms, id.seq)
}

impl Unclaimed {
    /// No entry.
    pub(crate) fn new(alloc: Global) -> Unclaimed
        ensures { result ≡ empty }
    {
        Unclaimed {
            entries: BTreeMap::new(alloc),
        }
    }

    /// Whether an entry is there.
    pub(crate) fn contains(&self, id: Id) -> bool
        ensures { result ≡ contains_key self.now (pair_of id) }
    {
        self.entries.contains_key(&pair(id))
    }

    /// Puts an entry in, in place of what stood there. `Memory` leaves all as it was.
    pub(crate) fn put(&mut self, id: Id, handed: Handed) -> Result<(), Memory>
        ensures ok { OnOk result (self.new ≡ insert self.old (pair_of id) (handed_of handed)) }
        ensures err { OnErr result (self.new ≡ self.old) }
    {
        self.entries.insert(pair(id), handed)?;
        Ok(())
    }

    /// Takes an entry out. `None` comes exactly where it isn't there.
    pub(crate) fn take(&mut self, id: Id) -> Option<Handed>
        ensures value { option_map handed_of result ≡ get self.old (pair_of id) }
        ensures new { self.new ≡ remove self.old (pair_of id) }
    {
        self.entries.remove(&pair(id))
    }

    /// Whether there is no entry.
    pub(crate) fn is_empty(&self) -> bool
        ensures { result ≡ (len self.now == 0) }
    {
        self.entries.len() == 0
    }
}
