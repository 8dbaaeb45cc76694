//! The pending entries of a group, with each consumer's own.

ghost use Rattle.std.specs.Prelude.{T, ◌≡◌, ◌-◌, ℕ, List, [], ◌∷◌, length, take, IfOk, OnOk, OnErr, None, slice_get};
ghost use Rattle.std.specs.Option.{option_map};
ghost use Rattle.std.specs.FinMap.{empty, contains_key, insert, remove, len, keys, find, is_sorted};
ghost use Rattle.stream_groups.specs.Groups.{again_in, name_cmp, placed, ids_of, later, own_ids, tallied};
ghost use Rattle.stream_groups.specs.Kept.{pending_of};
ghost use Rattle.stream_groups.specs.Waits.{owner_pairs};

use crate::consumers::Name;
use crate::entries::{Entries, Handed};
use crate::index::Index;
use crate::waiting::Owner;
use crate::{Id, Memory};
use std::alloc::Global;
use std::marker::Model;

// The pending entries by their ids, and beside them which of them are whose.
#[derive(Drop)]
pub(crate) struct Pendings {
    entries: Entries,
    index: Index,
}

impl Model for Pendings {
    ghost use Rattle.stream_groups.specs.Groups.{Pendings as Value_};
    ghost use Rattle.stream_groups.specs.GroupsCode.{pendings_code};

    ghost Value = { Value_ };

    ghost coded = { pendings_code };

    ghost use Rattle.stream_groups.specs.Index.{Indexes};

    ghost view = { λ p. p.entries };

    ghost invariant = { λ p. Indexes p.index p.entries };
}

impl Clone for Pendings {
    ghost use Rattle.std.specs.Prelude.{◌≡◌};

    ghost is_clone = { λ pending copy. copy ≡ pending };

    fn clone(&self) -> Result<Pendings, Memory> {
        Ok(Pendings {
            entries: self.entries.clone()?,
            index: self.index.clone()?,
        })
    }
}

impl Pendings {
    // Nothing is pending.
    pub(crate) fn new(alloc: Global) -> Pendings
        ensures { result ≡ empty }
    {
        Pendings {
            entries: Entries::new(alloc),
            index: Index::new(alloc),
        }
    }

    // Makes an id pending, whatever it was. Memory leaves all as it was.
    pub(crate) fn put(
        &mut self,
        id: Id,
        consumer: &Name,
        moment: u64,
        count: u64,
    ) -> Result<(), Memory>
        ensures ok { OnOk result (self.new ≡ insert self.old id (record { consumer = consumer.now.value.items; moment = moment; count = count })) }
        ensures err { OnErr result (self.new ≡ self.old) }
    {
        let was = self.entries.put(id, consumer, moment, count)?;
        match self.index.add(consumer.as_slice(), id) {
            Ok(_) => {
                self.index.leave(id, &was, consumer.as_slice());
                Ok(())
            }
            Err(memory) => {
                self.entries.restore(id, was);
                Err(memory)
            }
        }
    }

    // Makes each id pending in the same way, handed out once. Memory leaves all as it was: only what adds to a map needs any, so
    // the ids leave their former consumers last.
    pub(crate) fn put_all(
        &mut self,
        alloc: Global,
        ids: &[Id],
        consumer: &Name,
        moment: u64,
    ) -> Result<(), Memory>
        ensures ok { OnOk result (self.new ≡ placed self.old ids.now (record { consumer = consumer.now.value.items; moment = moment; count = 1 })) }
        ensures err { OnErr result (self.new ≡ self.old) }
    {
        let log = self.entries.put_all(alloc, ids, consumer, moment)?;
        match self.index.add_all(consumer.as_slice(), ids) {
            Ok(()) => {
                self.index.leave_all(ids, &log, consumer.as_slice());
                Ok(())
            }
            Err(memory) => {
                self.entries.undo(ids, log);
                Err(memory)
            }
        }
    }

    // Hands an id out anew. `false` comes exactly where it isn't pending.
    pub(crate) fn again(&mut self, id: Id, moment: u64) -> bool
        ensures value { result ≡ contains_key self.old id }
        ensures new { self.new ≡ again_in self.old id moment }
    {
        self.entries.again(id, moment)
    }

    // Takes an id out. `false` comes exactly where it isn't pending.
    pub(crate) fn take(&mut self, id: Id) -> bool
        ensures value { result ≡ contains_key self.old id }
        ensures new { self.new ≡ remove self.old id }
    {
        match self.entries.take(id) {
            None => false,
            Some(handed) => {
                self.index.take(handed.consumer.as_slice(), id);
                true
            }
        }
    }

    // The first ids, up to a limit, that are pending for a consumer above another id, by rising ids.
    pub(crate) fn ids_of(
        &self,
        alloc: Global,
        consumer: &[u8],
        above: Id,
        limit: u64,
    ) -> Result<Vec<Id>, Memory>
        ensures { IfOk result (λ ids. ids.items ≡ ids_of self.now consumer.now above limit) }
    {
        let mut ids = Vec::new(alloc);
        let mut above = above;
        let mut left = limit;
        while left > 0 {
            match self.own_after(consumer, Some(above)) {
                None => return Ok(ids),
                Some(id) => {
                    ids.push(id)?;
                    above = id;
                    left -= 1;
                }
            }
        }
        Ok(ids)
    }

    // The id of the first entry above an id, or of all, that is pending for a consumer.
    pub(crate) fn own_after(&self, consumer: &[u8], above: Option<Id>) -> Option<Id>
        ensures { result ≡ slice_get (own_ids self.now consumer.now above) 0 }
    {
        self.index.after(consumer, above)
    }

    // How many entries are pending for a consumer.
    pub(crate) fn own_len(&self, consumer: &[u8]) -> u64
        ensures { result ≡ length (own_ids self.now consumer.now None) }
    {
        self.index.len(consumer)
    }

    // The first entry above an id, or of all.
    pub(crate) fn after(&self, above: Option<Id>) -> Option<(Id, &Handed)>
        ensures { option_map (λ found. (found.0, pending_of found.1.now)) result ≡ slice_get (later above self.now) 0 }
    {
        self.entries.after(above)
    }

    // How many ids are pending.
    pub(crate) fn count(&self) -> u64
        ensures { result ≡ len self.now }
    {
        self.entries.count()
    }

    // The least pending id.
    pub(crate) fn least(&self) -> Option<Id>
        ensures { result ≡ slice_get (keys self.now) 0 }
    {
        self.entries.least()
    }

    // The greatest pending id.
    pub(crate) fn greatest(&self) -> Option<Id>
        ensures { result ≡ slice_get (keys self.now) (len self.now - 1) }
    {
        self.entries.greatest()
    }

    // The consumers for which some are pending, by rising bytes of their names, with how many.
    pub(crate) fn owners(&self) -> Result<Vec<Owner>, Memory>
        ensures rising { IfOk result (λ owners. T (is_sorted name_cmp (owner_pairs owners.items))) }
        ensures counts { IfOk result (λ owners. (name : List ℕ) → find name_cmp name (owner_pairs owners.items) ≡ tallied self.now name) }
    {
        self.index.owners()
    }
}
