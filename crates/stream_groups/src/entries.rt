//! The pending entries of a group by their ids.

ghost use Rattle.std.specs.Prelude.{◌≡◌, ◌-◌, ◌≤◌, ℕ, List, is_some, take, length, IfOk, IfSome, OnOk, OnErr, Some, None, slice_get};
ghost use Rattle.std.specs.Option.{option_copied, option_map};
ghost use Rattle.std.specs.FinMap.{empty, get, contains_key, insert, remove, len, keys};
ghost use Rattle.stream_groups.specs.Groups.{again_in, placed, later};
ghost use Rattle.stream_groups.specs.Index.{were};
ghost use Rattle.stream_groups.specs.Kept.{pending_of, restored, undone, logged};

use crate::consumers::Name;
use crate::{Id, Memory};
use std::alloc::Global;
use std::collections::BTreeMap;
use std::marker::Model;
use std::ops::Bound;

// An entry that was handed to a consumer: when the last time, in milliseconds, and how often.
#[derive(Drop)]
pub(crate) struct Handed {
    pub(crate) consumer: Name,
    pub(crate) moment: u64,
    pub(crate) count: u64,
}

impl Clone for Handed {
    ghost use Rattle.std.specs.Prelude.{◌≡◌};
    ghost use Rattle.stream_groups.specs.Kept.{pending_of};

    ghost is_clone = { λ handed copy. pending_of copy ≡ pending_of handed };

    fn clone(&self) -> Result<Handed, Memory> {
        Ok(Handed {
            consumer: self.consumer.clone()?,
            moment: self.moment,
            count: self.count,
        })
    }
}

// The pending entries by their ids.
#[derive(Drop)]
pub(crate) struct Entries {
    entries: BTreeMap<Id, Handed>,
}

impl Model for Entries {
    ghost use Rattle.stream_groups.specs.Groups.{Pendings as Value_};
    ghost use Rattle.stream_groups.specs.GroupsCode.{pendings_code};

    ghost Value = { Value_ };

    ghost coded = { pendings_code };

    ghost use Rattle.stream_groups.specs.Kept.{pendings_of, IdsRise};

    ghost view = { λ p. pendings_of p.entries.entries };

    ghost invariant = { λ p. IdsRise p.entries.entries };
}

impl Clone for Entries {
    ghost use Rattle.std.specs.Prelude.{◌≡◌};

    ghost is_clone = { λ pending copy. copy ≡ pending };

    fn clone(&self) -> Result<Entries, Memory> {
        Ok(Entries {
            entries: self.entries.clone()?,
        })
    }
}

impl Entries {
    // Nothing is pending.
    pub(crate) fn new(alloc: Global) -> Entries
        ensures { result ≡ empty }
    {
        Entries {
            entries: BTreeMap::new(alloc),
        }
    }

    // Makes an id pending, and answers what it was. Memory leaves all as it was.
    pub(crate) fn put(
        &mut self,
        id: Id,
        consumer: &Name,
        moment: u64,
        count: u64,
    ) -> Result<Option<Handed>, Memory>
        ensures was { IfOk result (λ was. option_map pending_of was ≡ get self.old id) }
        ensures ok { OnOk result (self.new ≡ insert self.old id (record { consumer = consumer.now.value.items; moment = moment; count = count })) }
        ensures err { OnErr result (self.new ≡ self.old) }
    {
        let handed = Handed {
            consumer: consumer.clone()?,
            moment,
            count,
        };
        Ok(self.entries.insert(id, handed)?)
    }

    // Hands an id out anew. `false` comes exactly where it isn't pending.
    pub(crate) fn again(&mut self, id: Id, moment: u64) -> bool
        ensures value { result ≡ contains_key self.old id }
        ensures new { self.new ≡ again_in self.old id moment }
    {
        match self.entries.get_mut(&id) {
            None => false,
            Some(handed) => {
                handed.moment = moment;
                handed.count = handed.count.saturating_add(1);
                true
            }
        }
    }

    // Takes an id out, and answers what it was.
    pub(crate) fn take(&mut self, id: Id) -> Option<Handed>
        ensures was { option_map pending_of result ≡ get self.old id }
        ensures new { self.new ≡ remove self.old id }
    {
        self.entries.remove(&id)
    }

    // Puts back what an id was.
    pub(crate) fn restore(&mut self, id: Id, was: Option<Handed>)
        ensures { self.new ≡ restored self.old id (option_map pending_of was) }
    {
        match was {
            None => drop(self.entries.remove(&id)),
            Some(handed) => {
                if let Some(slot) = self.entries.get_mut(&id) {
                    *slot = handed;
                }
            }
        }
    }

    // Puts back what the first ids were, the last of them first.
    pub(crate) fn undo(&mut self, ids: &[Id], log: Vec<Option<Handed>>)
        requires { length log.items ≤ length ids.now }
        ensures { self.new ≡ undone self.old (take (length log.items) ids.now) (logged log.items) }
    {
        let mut log = log;
        while let Some(was) = log.pop() {
            self.restore(ids[log.len()], was);
        }
    }

    // Makes each id pending in the same way, handed out once, and answers what each was. Memory leaves all as it was.
    pub(crate) fn put_all(
        &mut self,
        alloc: Global,
        ids: &[Id],
        consumer: &Name,
        moment: u64,
    ) -> Result<Vec<Option<Handed>>, Memory>
        ensures each { IfOk result (λ log. length log.items ≡ length ids.now) }
        ensures log { IfOk result (λ log. logged log.items ≡ were self.old ids.now (record { consumer = consumer.now.value.items; moment = moment; count = 1 })) }
        ensures undo { IfOk result (λ log. undone self.new ids.now (logged log.items) ≡ self.old) }
        ensures ok { OnOk result (self.new ≡ placed self.old ids.now (record { consumer = consumer.now.value.items; moment = moment; count = 1 })) }
        ensures err { OnErr result (self.new ≡ self.old) }
    {
        let mut log = Vec::with_capacity(alloc, ids.len())?;
        for id in ids {
            match self.put(*id, consumer, moment, 1) {
                Ok(was) => log.push_reserved(was),
                Err(memory) => {
                    self.undo(ids, log);
                    return Err(memory);
                }
            }
        }
        Ok(log)
    }

    // The first entry above an id, or of all.
    pub(crate) fn after(&self, above: Option<Id>) -> Option<(Id, &Handed)>
        ensures { option_map (λ found. (found.0, pending_of found.1.now)) result ≡ slice_get (later above self.now) 0 }
    {
        let start = match above {
            None => Bound::Unbounded,
            Some(id) => Bound::Excluded(id),
        };
        match self.entries.range((start, Bound::Unbounded)).next() {
            None => None,
            Some((id, handed)) => Some((*id, handed)),
        }
    }

    // How many ids are pending.
    pub(crate) fn count(&self) -> u64
        ensures { result ≡ len self.now }
    {
        self.entries.len() as u64
    }

    // The least pending id.
    pub(crate) fn least(&self) -> Option<Id>
        ensures { result ≡ slice_get (keys self.now) 0 }
    {
        match self.entries.first_key_value() {
            None => None,
            Some((id, _)) => Some(*id),
        }
    }

    // The greatest pending id.
    pub(crate) fn greatest(&self) -> Option<Id>
        ensures { result ≡ slice_get (keys self.now) (len self.now - 1) }
    {
        match self.entries.last_key_value() {
            None => None,
            Some((id, _)) => Some(*id),
        }
    }
}
