//! A set of ids.

ghost use Rattle.std.specs.Prelude.{◌≡◌, not, IfOk, OnOk, OnErr, slice_get};
ghost use Rattle.std.specs.FinMap.{empty, contains_key, insert, remove, len, keys};
ghost use Rattle.stream_groups.specs.Index.{ids_above};

use crate::{Id, Memory};
use std::alloc::Global;
use std::collections::BTreeMap;
use std::marker::Model;
use std::ops::Bound;

// Ids by their order.
#[derive(Drop)]
pub(crate) struct IdSet {
    ids: BTreeMap<Id, ()>,
}

impl Model for IdSet {
    ghost use Rattle.stream_groups.specs.Index.{IdSet as Value_};
    ghost use Rattle.stream_groups.specs.GroupsCode.{id_set_code};

    ghost Value = { Value_ };

    ghost coded = { id_set_code };

    ghost use Rattle.stream_groups.specs.Kept.{numbered, IdsRise};

    ghost view = { λ s. numbered (λ nothing. nothing) s.ids.entries };

    ghost invariant = { λ s. IdsRise s.ids.entries };
}

impl Clone for IdSet {
    ghost use Rattle.std.specs.Prelude.{◌≡◌};

    ghost is_clone = { λ ids copy. copy ≡ ids };

    fn clone(&self) -> Result<IdSet, Memory> {
        Ok(IdSet {
            ids: self.ids.clone()?,
        })
    }
}

impl IdSet {
    // No id.
    pub(crate) fn new(alloc: Global) -> IdSet
        ensures { result ≡ empty }
    {
        IdSet {
            ids: BTreeMap::new(alloc),
        }
    }

    // Adds an id. `false` comes exactly where it is there. Memory leaves all as it was.
    pub(crate) fn add(&mut self, id: Id) -> Result<bool, Memory>
        ensures fresh { IfOk result (λ fresh. fresh ≡ not (contains_key self.old id)) }
        ensures ok { OnOk result (self.new ≡ insert self.old id tt) }
        ensures err { OnErr result (self.new ≡ self.old) }
    {
        Ok(self.ids.insert(id, ())?.is_none())
    }

    // Takes an id out.
    pub(crate) fn take(&mut self, id: Id)
        ensures { self.new ≡ remove self.old id }
    {
        drop(self.ids.remove(&id));
    }

    // How many ids there are.
    pub(crate) fn len(&self) -> u64
        ensures { result ≡ len self.now }
    {
        self.ids.len() as u64
    }

    // The first id above another one, or of all.
    pub(crate) fn after(&self, above: Option<Id>) -> Option<Id>
        ensures { result ≡ slice_get (ids_above above (keys self.now)) 0 }
    {
        let start = match above {
            None => Bound::Unbounded,
            Some(id) => Bound::Excluded(id),
        };
        match self.ids.range((start, Bound::Unbounded)).next() {
            None => None,
            Some((id, _)) => Some(*id),
        }
    }
}
