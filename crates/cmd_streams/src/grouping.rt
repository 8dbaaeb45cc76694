//! Commands that make groups of a stream, and take them out.

ghost use Rattle.std.specs.Prelude.{◌≡◌, false, Option, IfOk};
ghost use Rattle.std.specs.FinMap.{contains_key};
ghost use Rattle.std.specs.FinMap as finite;
ghost use Rattle.stream_groups.specs.Groups.{created};
ghost use Rattle.plain_world.specs.Streams as model;
ghost use Rattle.held.specs.Calls.{Seeks};
ghost use Rattle.plain_model.specs.Outcomes.{leaves};
ghost use Rattle.plain_model.specs.GroupSteps.{create_in, regrouped};
ghost use Rattle.plain_model.specs.StreamSteps.{from_id, or_no_stream};
ghost use Rattle.plain_model.specs.declared.stream_command.StreamCommand.TheVariants as streams;
ghost use Rattle.keyspace.specs.Scopes.{one_key};
ghost use Rattle.keyspace.specs.Forms.{Log, Formed, stream_form};
ghost use Rattle.keyspace.specs.Commands.{Ready, KeepsOrRefuses, visible};
ghost use Rattle.cmd_streams.specs.Found.{Gives};
ghost use Rattle.cmd_streams.specs.Changed.{IsBefore, IsStreamThere};

use crate::changing::{change_stream, stream_sought};
use crate::edits::StreamEdit;
use crate::several::start_of;
use crate::there::stream_there;
use blocks::BlockStore;
use keyspace::{Keyspace, Look, Sought, count_reply, seek};
use plain_model::{Ctx, EntryId, Line, Memory, Refusal, Reply};
use stream_object::Stream;

/// Whether a stream has a group of this name.
pub fn has_group(stream: &Stream, name: &[u8]) -> bool
    ensures { result ≡ contains_key stream.now.groups name.now }
{
    stream.group_last(name).is_some()
}

/// A group to be made, which begins behind an id, or without one behind the last one.
#[derive(Drop)]
pub struct CreateGroup<'a> {
    pub name: &'a [u8],
    pub id: Option<EntryId>,
}

impl<'a> StreamEdit for CreateGroup<'a> {
    ghost takes = { λ create stream. Unit {0} };

    ghost makes = { λ first last old new. new ≡ regrouped old (created old.groups first.name.now (from_id old first.id)) };

    fn edit_stream<B: BlockStore>(
        &mut self,
        stream: &mut Stream,
        _store: &mut B,
    ) -> Result<(), Memory> {
        let last = start_of(stream, self.id);
        stream.group_create(self.name, last)?;
        Ok(())
    }
}

/// A group to be taken out.
#[derive(Drop)]
pub struct DestroyGroup<'a> {
    pub name: &'a [u8],
}

impl<'a> StreamEdit for DestroyGroup<'a> {
    ghost takes = { λ destroy stream. Unit {0} };

    ghost makes = { λ first last old new. new ≡ regrouped old (finite.remove old.groups first.name.now) };

    fn edit_stream<B: BlockStore>(
        &mut self,
        stream: &mut Stream,
        _store: &mut B,
    ) -> Result<(), Memory> {
        stream.group_destroy(self.name);
        Ok(())
    }
}

// Makes a group of the stream at a key that was sought, by its item number, or where nothing stands of a new one.
fn create_at<B: BlockStore>(
    keyspace: &mut Keyspace<B>,
    at: &Ctx,
    key: &[u8],
    sought: Sought,
    there: Option<usize>,
    name: &[u8],
    id: Option<EntryId>,
) -> Result<Reply, Memory>
    requires ready { Ready B.blocks keyspace.old at.now }
    requires seeks { Seeks keyspace.old.bases (B.blocks keyspace.old.store) at.now.db key.now sought }
    requires there { IsStreamThere (visible B.blocks keyspace.old at.now) keyspace.old.bases (B.blocks keyspace.old.store) at.now.db key.now at.now.moment there }
    requires free { (before : Option model.Stream) → IsBefore (visible B.blocks keyspace.old at.now) key.now before → contains_key (or_no_stream before).groups name.now ≡ false }
    ensures gives { IfOk result
        (λ reply. (before : Option model.Stream) → IsBefore (visible B.blocks keyspace.old at.now) key.now before
        → create_in (visible B.blocks keyspace.old at.now) key.now name.now id (or_no_stream before) ≡ leaves reply (visible B.blocks keyspace.new at.now)) }
    ensures kept { KeepsOrRefuses B.blocks B.step (one_key at.now.db key.now) keyspace.old keyspace.new result }
    ensures forms { IfOk result (λ reply. Formed B.blocks Log keyspace.old keyspace.new) }
{
    let alloc = keyspace.alloc();
    let create = CreateGroup { name, id };
    let _ = change_stream(keyspace, at, key, sought, there, create)?;
    Reply::simple(alloc, Line::ok())
}

/// `XGROUP CREATE key group id [MKSTREAM]`: OK. The group begins behind the id, or without one behind the last id. Refused where the
/// stream has the group, or where there is no stream and none is to be made.
#[tactic(auto, using(crate::proofs::Looking::refused_other))]
pub fn xgroup_create<B: BlockStore>(
    keyspace: &mut Keyspace<B>,
    at: &Ctx,
    key: &[u8],
    name: &[u8],
    id: Option<EntryId>,
    make: bool,
) -> Result<Reply, Memory>
    requires ready { Ready B.blocks keyspace.old at.now }
    ensures gives { Gives B.blocks keyspace.old keyspace.new at.now (streams.XGroupCreate key.now name.now id make) result }
    ensures kept { KeepsOrRefuses B.blocks B.step (one_key at.now.db key.now) keyspace.old keyspace.new result }
    ensures forms { IfOk result (λ reply. Formed B.blocks (stream_form (streams.XGroupCreate key.now name.now id make)) keyspace.old keyspace.new) }
{
    let alloc = keyspace.alloc();
    let found = seek(keyspace, at, key);
    match stream_sought(keyspace, at, key, found) {
        Look::Other => Reply::refused(alloc, Refusal::WrongType),
        Look::Missing => {
            if !make {
                return Reply::refused(alloc, Refusal::NoSuchKey);
            }
            create_at(keyspace, at, key, found.sought, None, name, id)
        }
        Look::There(item) => {
            if has_group(stream_there(keyspace, at, key, item), name) {
                return Reply::refused(alloc, Refusal::GroupExists);
            }
            create_at(keyspace, at, key, found.sought, Some(item), name, id)
        }
    }
}

/// `XGROUP DESTROY key group`: 1 where the stream had the group, else 0. Refused where there is no stream.
#[tactic(auto, using(crate::proofs::Looking::refused_other))]
pub fn xgroup_destroy<B: BlockStore>(
    keyspace: &mut Keyspace<B>,
    at: &Ctx,
    key: &[u8],
    name: &[u8],
) -> Result<Reply, Memory>
    requires ready { Ready B.blocks keyspace.old at.now }
    ensures gives { Gives B.blocks keyspace.old keyspace.new at.now (streams.XGroupDestroy key.now name.now) result }
    ensures kept { KeepsOrRefuses B.blocks B.step (one_key at.now.db key.now) keyspace.old keyspace.new result }
    ensures forms { IfOk result (λ reply. Formed B.blocks (stream_form (streams.XGroupDestroy key.now name.now)) keyspace.old keyspace.new) }
{
    let alloc = keyspace.alloc();
    let found = seek(keyspace, at, key);
    let item = match stream_sought(keyspace, at, key, found) {
        Look::Other => return Reply::refused(alloc, Refusal::WrongType),
        Look::Missing => return Reply::refused(alloc, Refusal::NoSuchKey),
        Look::There(item) => item,
    };
    if !has_group(stream_there(keyspace, at, key, item), name) {
        return count_reply(alloc, 0);
    }
    let destroy = DestroyGroup { name };
    let _ = change_stream(keyspace, at, key, found.sought, Some(item), destroy)?;
    count_reply(alloc, 1)
}
