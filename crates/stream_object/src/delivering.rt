// Entries handed out to the consumers of a group.

ghost use Rattle.std.specs.Prelude.{◌≡◌, map, take, IfOk, OnOk, OnErr};
ghost use Rattle.std.specs.FinMap.{get};
ghost use Rattle.std.specs.List.{filter};
ghost use Rattle.std.specs.Option.{option_map};
ghost use Rattle.stream_groups.specs.Groups.{changed};
ghost use Rattle.stream_object.specs.Handing.{fresh, handed, is_later};
ghost use Rattle.stream_object.specs.Ranges.{taken};
ghost use Rattle.stream_object.specs.Streams.{IsStream, entries, pair_of, stream_of};

use crate::Memory;
use crate::groups::pair;
use crate::nodes::GREATEST;
use crate::owned::Owned;
use crate::stream::Stream;
use blocks::BlockStore;
use std::alloc::Global;
use stream_groups::Id as Pair;
use stream_node::Id;

// The ids of entries, as pairs of numbers.
fn ids_of(alloc: Global, given: &[Owned]) -> Result<Vec<Pair>, Memory>
    ensures { IfOk result (λ ids. ids.items ≡ map (λ o. pair_of o.id) given.now) }
{
    let mut ids = Vec::new(alloc);
    for entry in given {
        ids.push(pair(entry.id))?;
    }
    Ok(ids)
}

impl Stream {
    // The first entries above an id, up to a limit.
    fn later<B: BlockStore>(&self, store: &B, last: Id, limit: u64) -> Result<Vec<Owned>, Memory>
        requires { IsStream (B.blocks store.now) self.now }
        ensures { IfOk result (λ found. map taken found.items ≡ take limit (filter (is_later (pair_of last)) (entries (B.blocks store.now) self.now))) }
    {
        match last.next() {
            Some(from) => self.range(store, from, GREATEST, false, limit),
            None => Ok(Vec::new(self.alloc)),
        }
    }

    /// Hands the first entries that come after the last id which the group has handed out to a consumer, up to a limit: the
    /// group has the consumer then, each of them is pending for it since this moment in milliseconds, handed out once, and
    /// the last one's id is the group's last. `None` comes exactly where there is no such group, and then nothing changes.
    /// `Memory` leaves all as it was.
    pub fn deliver<B: BlockStore>(
        &mut self,
        store: &B,
        name: &[u8],
        consumer: &[u8],
        limit: u64,
        moment: u64,
    ) -> Result<Option<Vec<Owned>>, Memory>
        requires { IsStream (B.blocks store.now) self.old }
        ensures given { IfOk result (λ given. option_map (λ found. map taken found.items) given ≡ option_map (fresh (stream_of (B.blocks store.now) self.old) limit) (get self.old.groups name.now)) }
        ensures ok { OnOk result (self.new ≡ record self.old { groups = changed self.old.groups name.now (handed (stream_of (B.blocks store.now) self.old) consumer.now limit moment) }) }
        ensures err { OnErr result (self.new ≡ self.old) }
    {
        let Some(last) = self.group_last(name) else {
            return Ok(None);
        };
        let given = self.later(store, last, limit)?;
        let ids = ids_of(self.alloc, &given)?;
        self.groups.deliver(name, consumer, &ids, moment)?;
        Ok(Some(given))
    }
}
