// Entries handed out again to the consumers of a group.

ghost use Rattle.std.specs.Prelude.{◌≡◌, map, IfOk, OnOk, OnErr};
ghost use Rattle.std.specs.FinMap.{get};
ghost use Rattle.std.specs.List.{find};
ghost use Rattle.std.specs.Option.{option_map};
ghost use Rattle.stream_groups.specs.Groups.{changed};
ghost use Rattle.stream_object.specs.Handing.{all_again, handed_again, once_more, told, waiting, with_entries};
ghost use Rattle.stream_object.specs.Ranges.{taken};
ghost use Rattle.stream_object.specs.Streams.{IsStream, entries, has_id, pair_of};

use crate::Memory;
use crate::again::Again;
use crate::groups::{id_of, pair};
use crate::owned::Owned;
use crate::stream::Stream;
use blocks::BlockStore;
use stream_groups::{Groups, Id as Pair};
use stream_node::Id;

// An id is handed out once more in a group, where its entry is there.
fn count_one(groups: &mut Groups, name: &[u8], again: &Again, moment: u64)
    ensures { groups.new ≡ changed groups.old name.now (once_more moment (pair_of again.now.id) (option_map taken again.now.pairs)) }
{
    if again.pairs.is_none() {
        return;
    }
    groups.again(name, pair(again.id), moment);
}

// Ids are handed out once more in a group, those whose entries are there.
fn count_all(groups: &mut Groups, name: &[u8], found: &[Again], moment: u64)
    ensures { groups.new ≡ changed groups.old name.now (all_again moment (map told found.now)) }
{
    for again in found {
        count_one(groups, name, again, moment);
    }
}

impl Stream {
    // The entry of an id.
    fn entry<B: BlockStore>(&self, store: &B, id: Id) -> Result<Option<Owned>, Memory>
        requires { IsStream (B.blocks store.now) self.now }
        ensures { IfOk result (λ found. option_map taken found ≡ find (has_id (pair_of id)) (entries (B.blocks store.now) self.now)) }
    {
        let mut found = self.range(store, id, id, false, 1)?;
        Ok(found.pop())
    }

    // Ids, each with its entry where there is one.
    fn entries_of<B: BlockStore>(&self, store: &B, ids: &[Pair]) -> Result<Vec<Again>, Memory>
        requires { IsStream (B.blocks store.now) self.now }
        ensures { IfOk result (λ found. map told found.items ≡ with_entries (entries (B.blocks store.now) self.now) ids.now) }
    {
        let mut found = Vec::new(self.alloc);
        for pair in ids {
            let id = id_of(*pair);
            let pairs = self.entry(store, id)?;
            found.push(Again { id, pairs })?;
        }
        Ok(found)
    }

    /// Hands what is pending for a consumer above an id to it again, by rising ids and up to a limit: the group has the
    /// consumer then, and each of them whose entry the stream still has is pending since this moment in milliseconds, handed
    /// out once more. `None` comes exactly where there is no such group, and then nothing changes. `Memory` leaves all as it
    /// was.
    pub fn redeliver<B: BlockStore>(
        &mut self,
        store: &B,
        name: &[u8],
        consumer: &[u8],
        above: Id,
        limit: u64,
        moment: u64,
    ) -> Result<Option<Vec<Again>>, Memory>
        requires { IsStream (B.blocks store.now) self.old }
        ensures given { IfOk result
            (λ given. option_map (λ found. map told found.items) given ≡ option_map (waiting (entries (B.blocks store.now) self.old) consumer.now (pair_of above) limit)
            (get self.old.groups name.now)) }
        ensures ok { OnOk result
            (self.new ≡ record self.old { groups = changed self.old.groups name.now (handed_again (entries (B.blocks store.now) self.old) consumer.now (pair_of above) limit moment) }) }
        ensures err { OnErr result (self.new ≡ self.old) }
    {
        let Some(ids) = self.groups.pending_of(name, consumer, pair(above), limit)? else {
            return Ok(None);
        };
        let found = self.entries_of(store, &ids)?;
        self.groups.add_consumer(name, consumer)?;
        count_all(&mut self.groups, name, &found, moment);
        Ok(Some(found))
    }
}
