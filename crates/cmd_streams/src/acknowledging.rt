//! The command that acknowledges ids.

ghost use Rattle.std.specs.Prelude.{◌≡◌, ◌+◌, ◌-◌, ◌≤◌, IfOk};
ghost use Rattle.std.specs.FinMap.{get};
ghost use Rattle.stream_groups.specs.Groups.{changed, without};
ghost use Rattle.plain_model.specs.GroupSteps.{without_ids};
ghost use Rattle.plain_model.specs.declared.stream_command.StreamCommand.TheVariants as streams;
ghost use Rattle.keyspace.specs.Scopes.{one_key};
ghost use Rattle.keyspace.specs.Forms.{Formed, stream_form};
ghost use Rattle.keyspace.specs.Commands.{Ready, KeepsOrRefuses};
ghost use Rattle.cmd_streams.specs.Found.{Gives};
ghost use Rattle.cmd_streams.specs.Acknowledged.{Acknowledges, waits};

use crate::changing::{change_stream, stream_sought};
use crate::edits::StreamEdit;
use crate::grouping::has_group;
use crate::reading::id_of;
use crate::there::stream_there;
use blocks::BlockStore;
use keyspace::{Keyspace, Look, count_reply, seek};
use plain_model::{Ctx, EntryId, Memory, Refusal, Reply};
use stream_object::Stream;

// Acknowledges an id, and tells how many were pending: 1 or 0.
fn ack_one(stream: &mut Stream, name: &[u8], id: EntryId) -> usize
    ensures new { stream.new ≡ record stream.old { groups = changed stream.old.groups name.now (without id) } }
    ensures counted { result + waits (get stream.new.groups name.now) ≡ waits (get stream.old.groups name.now) }
    ensures few { result ≤ 1 }
{
    if stream.ack(name, id_of(id)) {
        return 1;
    }
    0
}

// Acknowledges these ids, one after the other, and tells how many were pending.
fn ack_each(stream: &mut Stream, name: &[u8], ids: &[EntryId]) -> usize
    ensures new { stream.new ≡ record stream.old { groups = changed stream.old.groups name.now (without_ids ids.now) } }
    ensures counted { result ≡ waits (get stream.old.groups name.now) - waits (get stream.new.groups name.now) }
{
    let mut gone = 0;
    for id in ids {
        let one = ack_one(stream, name, *id);
        gone += one;
    }
    gone
}

/// Ids to be acknowledged in a group, and how many of them were pending.
#[derive(Drop)]
pub struct Acknowledge<'a> {
    pub name: &'a [u8],
    pub ids: &'a [EntryId],
    pub gone: usize,
}

impl<'a> StreamEdit for Acknowledge<'a> {
    ghost takes = { λ ack stream. Unit {0} };

    ghost makes = { λ first last old new. Acknowledges first.name.now first.ids.now last.gone old new };

    fn edit_stream<B: BlockStore>(
        &mut self,
        stream: &mut Stream,
        _store: &mut B,
    ) -> Result<(), Memory> {
        self.gone = ack_each(stream, self.name, self.ids);
        Ok(())
    }
}

/// `XACK key group id..`: how many of the ids were pending in the group, which aren't any more.
#[tactic(auto, using(crate::proofs::Looking::refused_other))]
pub fn xack<B: BlockStore>(
    keyspace: &mut Keyspace<B>,
    at: &Ctx,
    key: &[u8],
    name: &[u8],
    ids: &[EntryId],
) -> Result<Reply, Memory>
    requires ready { Ready B.blocks keyspace.old at.now }
    ensures gives { Gives B.blocks keyspace.old keyspace.new at.now (streams.XAck key.now name.now ids.now) result }
    ensures kept { KeepsOrRefuses B.blocks B.step (one_key at.now.db key.now) keyspace.old keyspace.new result }
    ensures forms { IfOk result (λ reply. Formed B.blocks (stream_form (streams.XAck key.now name.now ids.now)) keyspace.old keyspace.new) }
{
    let alloc = keyspace.alloc();
    let found = seek(keyspace, at, key);
    let item = match stream_sought(keyspace, at, key, found) {
        Look::Other => return Reply::refused(alloc, Refusal::WrongType),
        Look::Missing => return count_reply(alloc, 0),
        Look::There(item) => item,
    };
    if !has_group(stream_there(keyspace, at, key, item), name) {
        return count_reply(alloc, 0);
    }
    let acknowledge = Acknowledge { name, ids, gone: 0 };
    let acknowledge = change_stream(keyspace, at, key, found.sought, Some(item), acknowledge)?;
    count_reply(alloc, acknowledge.gone)
}
