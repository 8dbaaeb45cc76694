//! One group.

ghost use Rattle.std.specs.Prelude.{◌≡◌, None, length, slice_get, not, IfOk, OnOk, OnErr, IsTrue};
ghost use Rattle.std.specs.FinMap.{contains_key, keys, len};
ghost use Rattle.std.specs.Option.{option_copied};
ghost use Rattle.stream_groups.specs.Waits.{IsWaiting, TellsEntry};
ghost use Rattle.stream_groups.specs.Groups.{IsOwned, new_group, has_consumer, with_consumer, with_pending, with_again, without, delivered, last_among, ids_of, later, own_ids};

use crate::consumers::Consumers;
use crate::pendings::Pendings;
use crate::waiting::{Waiting, WaitingEntry};
use crate::{Id, Memory};
use std::alloc::Global;
use std::marker::Model;

/// A consumer group of a stream: the last id that it handed out, its consumers, and the entries that are pending for them.
#[derive(Drop)]
pub struct Group {
    last: Id,
    consumers: Consumers,
    pending: Pendings,
}

impl Model for Group {
    ghost use Rattle.stream_groups.specs.Groups.{Group as Value_, AreOwned};
    ghost use Rattle.stream_groups.specs.GroupsCode.{group_code};

    ghost Value = { Value_ };

    ghost coded = { group_code };

    ghost view = { λ g. record { last = g.last; consumers = g.consumers; pending = g.pending } };

    ghost invariant = { λ g. AreOwned g.consumers g.pending };
}

impl Clone for Group {
    ghost use Rattle.std.specs.Prelude.{◌≡◌};

    ghost is_clone = { λ group copy. copy ≡ group };

    fn clone(&self) -> Result<Group, Memory> {
        Ok(Group {
            last: self.last,
            consumers: self.consumers.clone()?,
            pending: self.pending.clone()?,
        })
    }
}

impl Group {
    // A group without a consumer.
    pub(crate) fn new(alloc: Global, last: Id) -> Group
        ensures { result ≡ new_group last }
    {
        Group {
            last,
            consumers: Consumers::new(alloc),
            pending: Pendings::new(alloc),
        }
    }

    /// The last id that the group handed out. Each pending entry is of one of the group's consumers.
    pub fn last(&self) -> Id
        ensures value { result ≡ self.now.last }
        ensures owned { IsOwned self.now }
    {
        self.last
    }

    // Adds a consumer. `false` comes exactly where it is there. Memory leaves all as it was.
    pub(crate) fn add_consumer(&mut self, alloc: Global, consumer: &[u8]) -> Result<bool, Memory>
        ensures made { IfOk result (λ made. made ≡ not (has_consumer consumer.now self.old)) }
        ensures ok { OnOk result (self.new ≡ with_consumer consumer.now self.old) }
        ensures err { OnErr result (self.new ≡ self.old) }
    {
        let known = self.consumers.contains(consumer);
        let _ = self.consumers.add(alloc, consumer)?;
        Ok(!known)
    }

    // Makes an id pending for a consumer of the group. Memory leaves all as it was.
    pub(crate) fn set_pending(
        &mut self,
        consumer: &[u8],
        id: Id,
        moment: u64,
        count: u64,
    ) -> Result<(), Memory>
        requires { IsTrue (has_consumer consumer.now self.old) }
        ensures ok { OnOk result (self.new ≡ with_pending id (record { consumer = consumer.now; moment = moment; count = count }) self.old) }
        ensures err { OnErr result (self.new ≡ self.old) }
    {
        let name = self.consumers.get(consumer).unwrap();
        self.pending.put(id, name, moment, count)?;
        Ok(())
    }

    // Hands ids to a consumer, which is added where it isn't there. Memory leaves all as it was.
    pub(crate) fn deliver(
        &mut self,
        alloc: Global,
        consumer: &[u8],
        ids: &[Id],
        moment: u64,
    ) -> Result<(), Memory>
        ensures ok { OnOk result (self.new ≡ delivered consumer.now ids.now moment self.old) }
        ensures err { OnErr result (self.new ≡ self.old) }
    {
        let known = self.consumers.contains(consumer);
        let name = self.consumers.add(alloc, consumer)?;
        match self.pending.put_all(alloc, ids, &name, moment) {
            Ok(()) => {
                self.last = last_among(self.last, ids);
                Ok(())
            }
            Err(memory) => {
                if known {
                    return Err(memory);
                }
                self.consumers.drop_name(consumer);
                Err(memory)
            }
        }
    }

    // Hands a pending id out anew. `false` comes exactly where it isn't pending.
    pub(crate) fn again(&mut self, id: Id, moment: u64) -> bool
        ensures value { result ≡ contains_key self.old.pending id }
        ensures new { self.new ≡ with_again id moment self.old }
    {
        self.pending.again(id, moment)
    }

    // Takes an id out of the pending ones. `false` comes exactly where it isn't pending.
    pub(crate) fn ack(&mut self, id: Id) -> bool
        ensures value { result ≡ contains_key self.old.pending id }
        ensures new { self.new ≡ without id self.old }
    {
        self.pending.take(id)
    }

    // The first ids, up to a limit, that are pending for a consumer above another id, by rising ids.
    pub(crate) fn pending_of(
        &self,
        alloc: Global,
        consumer: &[u8],
        above: Id,
        limit: u64,
    ) -> Result<Vec<Id>, Memory>
        ensures { IfOk result (λ ids. ids.items ≡ ids_of self.now.pending consumer.now above limit) }
    {
        self.pending.ids_of(alloc, consumer, above, limit)
    }

    // What is pending as a whole.
    pub(crate) fn pending(&self) -> Result<Waiting, Memory>
        ensures { IfOk result (IsWaiting self.now.pending) }
    {
        Ok(Waiting {
            count: self.pending.count(),
            least: self.pending.least(),
            greatest: self.pending.greatest(),
            owners: self.pending.owners()?,
        })
    }

    /// How many consumers the group has.
    pub fn consumers(&self) -> usize
        ensures { result ≡ len self.now.consumers }
    {
        self.consumers.len()
    }

    /// The name of a consumer by its place among rising bytes of names. `None` comes exactly past the last.
    pub fn consumer_name(&self, index: usize) -> Option<&[u8]>
        ensures { option_copied result ≡ slice_get (keys self.now.consumers) index }
    {
        self.consumers.at(index)
    }

    /// How many entries are pending.
    pub fn pending_len(&self) -> u64
        ensures { result ≡ len self.now.pending }
    {
        self.pending.count()
    }

    /// The first pending entry above an id, or of all. `None` comes exactly where there is none.
    pub fn pending_after(&self, above: Option<Id>) -> Option<WaitingEntry>
        ensures { TellsEntry self.now.consumers (slice_get (later above self.now.pending) 0) result }
    {
        let (id, handed) = match self.pending.after(above) {
            None => return None,
            Some(found) => found,
        };
        let consumer = self.consumers.rank(handed.consumer.as_slice()).unwrap();
        Some(WaitingEntry {
            id,
            consumer,
            moment: handed.moment,
            count: handed.count,
        })
    }

    /// How many entries are pending for a consumer, as it is kept: the steps are logarithmic in the consumers.
    pub fn own_len(&self, consumer: &[u8]) -> u64
        ensures { result ≡ length (own_ids self.now.pending consumer.now None) }
    {
        self.pending.own_len(consumer)
    }

    /// The id of the first entry above an id, or of all, that is pending for a consumer. `None` comes exactly where there is
    /// none. The steps are logarithmic in the consumers and in the consumer's own entries.
    pub fn own_after(&self, consumer: &[u8], above: Option<Id>) -> Option<Id>
        ensures { result ≡ slice_get (own_ids self.now.pending consumer.now above) 0 }
    {
        self.pending.own_after(consumer, above)
    }
}

// The last of some ids, or the one before them.
fn last_among(last: Id, ids: &[Id]) -> Id
    ensures { result ≡ last_among last ids.now }
{
    let mut last = last;
    for id in ids {
        last = *id;
    }
    last
}
