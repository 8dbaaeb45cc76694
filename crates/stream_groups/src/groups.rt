//! The groups of a stream.

ghost use Rattle.std.specs.Prelude.{◌≡◌, IfOk, IfSome, OnOk, OnErr, IsTrue, not, is_some, slice_get, Some, None};
ghost use Rattle.std.specs.FinMap.{empty, get, contains_key, insert, remove, len, keys, values};
ghost use Rattle.stream_groups.specs.Waits.{Tells, TellsAfter, consumer_at};
ghost use Rattle.stream_groups.specs.Groups.{IsOwned, created, last_of, changed, has_consumer, is_pending, with_consumer, with_pending, with_again, without, delivered, ids_of};
ghost use Rattle.std.specs.Option.{option_copied, option_map};

use crate::group::Group;
use crate::waiting::{Waiting, WaitingEntry};
use crate::{Id, Memory};
use std::alloc::Global;
use std::collections::BTreeMap;
use std::marker::Model;

/// The consumer groups of one stream, which contracts see as a finite map from their names.
///
/// Groups, pending entries and the ids of each consumer stand in ordered maps of std, and a consumer is found by a binary search,
/// so a call takes steps logarithmic in what it looks through, and that for each id that it takes or answers. A new consumer
/// shifts a reference for each consumer behind it, what is pending as a whole passes over the consumers and not over their
/// entries, and what is asked by the place of a group walks through the groups. No clause says so.
#[derive(Drop)]
pub struct Groups {
    alloc: Global,
    groups: BTreeMap<Vec<u8>, Group>,
}

impl Model for Groups {
    ghost use Rattle.stream_groups.specs.Groups.{Groups as Value_};
    ghost use Rattle.stream_groups.specs.GroupsCode.{groups_code};
    ghost use Rattle.stream_groups.specs.Kept.{named, NamesRise};

    ghost Value = { Value_ };

    ghost coded = { groups_code };

    ghost view = { λ g. named (λ group. group) g.groups.entries };

    ghost invariant = { λ g. NamesRise g.groups.entries };
}

impl Groups {
    /// No group.
    pub fn new(alloc: Global) -> Groups
        ensures { result ≡ empty }
    {
        Groups {
            alloc,
            groups: BTreeMap::new(alloc),
        }
    }

    /// The same groups once more.
    pub fn copy(&self) -> Result<Groups, Memory>
        ensures { IfOk result (λ copy. copy ≡ self.now) }
    {
        Ok(Groups {
            alloc: self.alloc,
            groups: self.groups.clone()?,
        })
    }

    /// Adds a group of this name, which hands out what comes after the id `last`. `false` comes exactly where the name is
    /// taken, and then nothing changes. `Memory` leaves all as it was.
    pub fn create(&mut self, name: &[u8], last: Id) -> Result<bool, Memory>
        ensures made { IfOk result (λ made. made ≡ not (contains_key self.old name.now)) }
        ensures ok { OnOk result (self.new ≡ created self.old name.now last) }
        ensures err { OnErr result (self.new ≡ self.old) }
    {
        if self.groups.contains_key(name) {
            return Ok(false);
        }
        let key = Vec::from_slice(self.alloc, name)?;
        self.groups.insert(key, Group::new(self.alloc, last))?;
        Ok(true)
    }

    /// Takes a group out. `false` comes exactly where there is none of this name.
    pub fn destroy(&mut self, name: &[u8]) -> bool
        ensures value { result ≡ contains_key self.old name.now }
        ensures new { self.new ≡ remove self.old name.now }
    {
        self.groups.remove(name).is_some()
    }

    /// The last id that the group handed out. None comes exactly where there is no such group. In each group, a pending
    /// entry is of one of its consumers.
    pub fn last(&self, name: &[u8]) -> Option<Id>
        ensures value { result ≡ last_of (get self.now name.now) }
        ensures owned { IfSome (get self.now name.now) IsOwned }
    {
        match self.groups.get(name) {
            None => None,
            Some(group) => Some(group.last()),
        }
    }

    /// Adds a consumer to the group. None comes exactly where there is no such group, and `Some(false)` where the group has
    /// the consumer; then nothing changes. `Memory` leaves all as it was.
    pub fn add_consumer(&mut self, name: &[u8], consumer: &[u8]) -> Result<Option<bool>, Memory>
        ensures made { IfOk result (λ made. made ≡ option_map (λ group. not (has_consumer consumer.now group)) (get self.old name.now)) }
        ensures ok { OnOk result (self.new ≡ changed self.old name.now (with_consumer consumer.now)) }
        ensures err { OnErr result (self.new ≡ self.old) }
    {
        match self.groups.get_mut(name) {
            None => Ok(None),
            Some(group) => match group.add_consumer(self.alloc, consumer) {
                Ok(made) => Ok(Some(made)),
                Err(memory) => Err(memory),
            },
        }
    }

    /// Makes an id pending in the group, whatever stood there: for a consumer, which the group has, since a moment in
    /// milliseconds, and handed out `count` times. None comes exactly where there is no such group. `Memory` leaves all as
    /// it was.
    pub fn set_pending(
        &mut self,
        name: &[u8],
        consumer: &[u8],
        id: Id,
        moment: u64,
        count: u64,
    ) -> Result<Option<()>, Memory>
        requires { IfSome (get self.old name.now) (λ group. IsTrue (has_consumer consumer.now group)) }
        ensures there { IfOk result (λ there. is_some there ≡ contains_key self.old name.now) }
        ensures ok { OnOk result (self.new ≡ changed self.old name.now (with_pending id (record { consumer = consumer.now; moment = moment; count = count }))) }
        ensures err { OnErr result (self.new ≡ self.old) }
    {
        match self.groups.get_mut(name) {
            None => Ok(None),
            Some(group) => match group.set_pending(consumer, id, moment, count) {
                Ok(()) => Ok(Some(())),
                Err(memory) => Err(memory),
            },
        }
    }

    /// Hands ids out to a consumer of the group, which is added where it isn't there: each of them is pending for it since
    /// this moment in milliseconds, handed out once, whatever stood there, and the last of them is the group's last id. XREADGROUP
    /// hands out rising ids above the last one; here they may be any. None comes exactly where there is no such group. `Memory`
    /// leaves all as it was.
    pub fn deliver(
        &mut self,
        name: &[u8],
        consumer: &[u8],
        ids: &[Id],
        moment: u64,
    ) -> Result<Option<()>, Memory>
        ensures there { IfOk result (λ there. is_some there ≡ contains_key self.old name.now) }
        ensures ok { OnOk result (self.new ≡ changed self.old name.now (delivered consumer.now ids.now moment)) }
        ensures err { OnErr result (self.new ≡ self.old) }
    {
        match self.groups.get_mut(name) {
            None => Ok(None),
            Some(group) => match group.deliver(self.alloc, consumer, ids, moment) {
                Ok(()) => Ok(Some(())),
                Err(memory) => Err(memory),
            },
        }
    }

    /// Hands a pending id out anew: its moment is this one, in milliseconds, and its count one greater, at most 2^64 - 1.
    /// `false` comes exactly where there is no such group or the id isn't pending in it, and then nothing changes.
    pub fn again(&mut self, name: &[u8], id: Id, moment: u64) -> bool
        ensures value { result ≡ is_pending id (get self.old name.now) }
        ensures new { self.new ≡ changed self.old name.now (with_again id moment) }
    {
        match self.groups.get_mut(name) {
            None => false,
            Some(group) => group.again(id, moment),
        }
    }

    /// Acknowledges an id: it isn't pending any longer. `false` comes exactly where there is no such group or the id isn't
    /// pending in it, and then nothing changes.
    pub fn ack(&mut self, name: &[u8], id: Id) -> bool
        ensures value { result ≡ is_pending id (get self.old name.now) }
        ensures new { self.new ≡ changed self.old name.now (without id) }
    {
        match self.groups.get_mut(name) {
            None => false,
            Some(group) => group.ack(id),
        }
    }

    /// The ids that are pending in the group for a consumer above another id, by rising ids, up to a limit; for a consumer
    /// that the group doesn't have there are none. None comes exactly where there is no such group. The entries of other
    /// consumers are not passed over: each id takes logarithmic steps.
    pub fn pending_of(
        &self,
        name: &[u8],
        consumer: &[u8],
        above: Id,
        limit: u64,
    ) -> Result<Option<Vec<Id>>, Memory>
        ensures { IfOk result (λ ids. option_map (λ listed. listed.items) ids ≡ option_map (λ group. ids_of group.pending consumer.now above limit) (get self.now name.now)) }
    {
        match self.groups.get(name) {
            None => Ok(None),
            Some(group) => match group.pending_of(self.alloc, consumer, above, limit) {
                Ok(ids) => Ok(Some(ids)),
                Err(memory) => Err(memory),
            },
        }
    }

    /// What is pending in the group, as a whole, by going through the consumers for which some are. None comes exactly where
    /// there is no such group.
    pub fn pending(&self, name: &[u8]) -> Result<Option<Waiting>, Memory>
        ensures { IfOk result (Tells (get self.now name.now)) }
    {
        match self.groups.get(name) {
            None => Ok(None),
            Some(group) => match group.pending() {
                Ok(waiting) => Ok(Some(waiting)),
                Err(memory) => Err(memory),
            },
        }
    }

    /// How many groups there are.
    pub fn groups(&self) -> usize
        ensures { result ≡ len self.now }
    {
        self.groups.len()
    }

    /// The name of a group by its place among rising bytes of names. None comes exactly past the last.
    pub fn group_name(&self, index: usize) -> Option<&[u8]>
        ensures { option_copied result ≡ slice_get (keys self.now) index }
    {
        match self.groups.iter().nth(index) {
            None => None,
            Some((name, _)) => Some(name.as_slice()),
        }
    }

    /// The name of a consumer, by the place of its group and its own place among rising bytes of names. None comes exactly
    /// past the last, or where no such group is.
    pub fn consumer_name(&self, group: usize, index: usize) -> Option<&[u8]>
        ensures { option_copied result ≡ consumer_at (slice_get (values self.now) group) index }
    {
        match self.group_at(group) {
            None => None,
            Some(group) => group.consumer_name(index),
        }
    }

    /// The first pending entry above an id, or of all, of the group at this place among rising bytes of names. None comes
    /// exactly past the last, or where no such group is.
    pub fn pending_after(&self, group: usize, above: Option<Id>) -> Option<WaitingEntry>
        ensures { TellsAfter (slice_get (values self.now) group) above result }
    {
        match self.group_at(group) {
            None => None,
            Some(group) => group.pending_after(above),
        }
    }

    /// The group at a place among rising bytes of names. `None` comes exactly past the last.
    pub fn group_at(&self, index: usize) -> Option<&Group>
        ensures { option_copied result ≡ slice_get (values self.now) index }
    {
        match self.groups.iter().nth(index) {
            None => None,
            Some((_, group)) => Some(group),
        }
    }
}
