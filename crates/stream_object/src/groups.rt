// The consumer groups of a stream.

ghost use Rattle.std.specs.Prelude.{◌≡◌, IfOk, IfSome, OnOk, OnErr, IsTrue, not, is_some, slice_get};
ghost use Rattle.std.specs.FinMap.{get, contains_key, insert, remove, len, keys, values};
ghost use Rattle.std.specs.Option.{option_copied, option_map};
ghost use Rattle.stream_groups.specs.Waits.{Tells, TellsAfter, consumer_at};
ghost use Rattle.stream_groups.specs.Groups.{created, last_of, changed, has_consumer, is_pending, with_consumer, with_pending, without};
ghost use Rattle.stream_object.specs.Groups.{entry_of, waiting_of};
ghost use Rattle.stream_object.specs.Streams.{pair_of};

use crate::Memory;
use crate::stream::Stream;
use stream_groups::{Group, Id as Pair, Owner};
use stream_node::Id;

/// What is pending in a group: how many ids, the least and the greatest of them, and the consumers for which some are
/// pending, by rising bytes of their names.
#[derive(Drop)]
pub struct Pending {
    pub count: u64,
    pub least: Option<Id>,
    pub greatest: Option<Id>,
    pub owners: Vec<Owner>,
}

/// A pending entry: its id, its consumer by the place of the consumer's name among those of the group by rising bytes, when
/// it was handed out the last time, in milliseconds, and how often it was.
#[derive(Clone, Copy)]
pub struct PendingEntry {
    pub id: Id,
    pub consumer: usize,
    pub moment: u64,
    pub count: u64,
}

/// An id as a pair of numbers.
pub(crate) fn pair(id: Id) -> Pair
    ensures { result ≡ pair_of id }
{
    (id.ms, id.seq)
}

/// A pair of numbers as an id.
pub(crate) fn id_of(pair: Pair) -> Id
    ensures { pair_of result ≡ pair }
{
    Id {
        ms: pair.0,
        seq: pair.1,
    }
}

// The same where there is one.
fn id_if(pair: Option<Pair>) -> Option<Id>
    ensures { option_map pair_of result ≡ pair }
{
    match pair {
        None => None,
        Some(pair) => Some(id_of(pair)),
    }
}

// The same the other way round.
fn pair_if(id: Option<Id>) -> Option<Pair>
    ensures { result ≡ option_map pair_of id }
{
    match id {
        None => None,
        Some(id) => Some(pair(id)),
    }
}

impl Stream {
    /// Adds a group of this name, which hands out what comes after the id `last`. `false` comes exactly where the name is
    /// taken, and then nothing changes. `Memory` leaves all as it was.
    pub fn group_create(&mut self, name: &[u8], last: Id) -> Result<bool, Memory>
        ensures made { IfOk result (λ made. made ≡ not (contains_key self.old.groups name.now)) }
        ensures ok { OnOk result (self.new ≡ record self.old { groups = created self.old.groups name.now (pair_of last) }) }
        ensures err { OnErr result (self.new ≡ self.old) }
    {
        self.groups.create(name, pair(last))
    }

    /// Takes a group out. `false` comes exactly where there is none of this name.
    pub fn group_destroy(&mut self, name: &[u8]) -> bool
        ensures value { result ≡ contains_key self.old.groups name.now }
        ensures new { self.new ≡ record self.old { groups = remove self.old.groups name.now } }
    {
        self.groups.destroy(name)
    }

    /// The last id that the group handed out. `None` comes exactly where there is no such group.
    pub fn group_last(&self, name: &[u8]) -> Option<Id>
        ensures { option_map pair_of result ≡ last_of (get self.now.groups name.now) }
    {
        id_if(self.groups.last(name))
    }

    /// Adds a consumer to the group. `None` comes exactly where there is no such group, and `Some(false)` where the group has
    /// the consumer; then nothing changes. `Memory` leaves all as it was.
    pub fn add_consumer(&mut self, name: &[u8], consumer: &[u8]) -> Result<Option<bool>, Memory>
        ensures made { IfOk result (λ made. made ≡ option_map (λ group. not (has_consumer consumer.now group)) (get self.old.groups name.now)) }
        ensures ok { OnOk result (self.new ≡ record self.old { groups = changed self.old.groups name.now (with_consumer consumer.now) }) }
        ensures err { OnErr result (self.new ≡ self.old) }
    {
        self.groups.add_consumer(name, consumer)
    }

    /// Makes an id pending in the group, whatever stood there: for a consumer, which the group has, since a moment in
    /// milliseconds, and handed out `count` times. `None` comes exactly where there is no such group. `Memory` leaves all as
    /// it was.
    pub fn set_pending(
        &mut self,
        name: &[u8],
        consumer: &[u8],
        id: Id,
        moment: u64,
        count: u64,
    ) -> Result<Option<()>, Memory>
        requires { IfSome (get self.old.groups name.now) (λ group. IsTrue (has_consumer consumer.now group)) }
        ensures there { IfOk result (λ there. is_some there ≡ contains_key self.old.groups name.now) }
        ensures ok { OnOk result
            (self.new ≡ record self.old { groups = changed self.old.groups name.now (with_pending (pair_of id) (record { consumer = consumer.now; moment = moment; count = count })) }) }
        ensures err { OnErr result (self.new ≡ self.old) }
    {
        self.groups
            .set_pending(name, consumer, pair(id), moment, count)
    }

    /// Acknowledges an id: it isn't pending any longer. `false` comes exactly where there is no such group or the id isn't
    /// pending in it, and then nothing changes.
    pub fn ack(&mut self, name: &[u8], id: Id) -> bool
        ensures value { result ≡ is_pending (pair_of id) (get self.old.groups name.now) }
        ensures new { self.new ≡ record self.old { groups = changed self.old.groups name.now (without (pair_of id)) } }
    {
        self.groups.ack(name, pair(id))
    }

    /// What is pending in the group, as a whole. `None` comes exactly where there is no such group.
    pub fn pending(&self, name: &[u8]) -> Result<Option<Pending>, Memory>
        ensures { IfOk result (λ pending. Tells (get self.now.groups name.now) (option_map waiting_of pending)) }
    {
        match self.groups.pending(name)? {
            None => Ok(None),
            Some(waiting) => Ok(Some(Pending {
                count: waiting.count,
                least: id_if(waiting.least),
                greatest: id_if(waiting.greatest),
                owners: waiting.owners,
            })),
        }
    }

    /// How many groups there are.
    pub fn groups(&self) -> usize
        ensures { result ≡ len self.now.groups }
    {
        self.groups.groups()
    }

    /// The name of a group by its place among rising bytes of names. `None` comes exactly past the last.
    pub fn group_name(&self, index: usize) -> Option<&[u8]>
        ensures { option_copied result ≡ slice_get (keys self.now.groups) index }
    {
        self.groups.group_name(index)
    }

    /// The name of a consumer, by the place of its group and its own place among rising bytes of names. `None` comes exactly
    /// past the last, or where no such group is.
    pub fn consumer_name(&self, group: usize, index: usize) -> Option<&[u8]>
        ensures { option_copied result ≡ consumer_at (slice_get (values self.now.groups) group) index }
    {
        self.groups.consumer_name(group, index)
    }

    /// The first pending entry above an id, or of all, of the group at this place among rising bytes of names. `None` comes
    /// exactly past the last, or where no such group is.
    pub fn pending_after(&self, group: usize, above: Option<Id>) -> Option<PendingEntry>
        ensures { TellsAfter (slice_get (values self.now.groups) group) (option_map pair_of above) (option_map entry_of result) }
    {
        match self.groups.pending_after(group, pair_if(above)) {
            None => None,
            Some(entry) => Some(PendingEntry {
                id: id_of(entry.id),
                consumer: entry.consumer,
                moment: entry.moment,
                count: entry.count,
            }),
        }
    }

    /// The group at a place among rising bytes of names. `None` comes exactly past the last.
    pub fn group_at(&self, index: usize) -> Option<&Group>
        ensures { option_copied result ≡ slice_get (values self.now.groups) index }
    {
        self.groups.group_at(index)
    }
}
