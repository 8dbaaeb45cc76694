//! Commands that take entries out of a stream.

ghost use Rattle.std.specs.Prelude.{◌≡◌, IfOk, OnOk};
ghost use Rattle.blocks.specs.Blocks.{Changes, Served};
ghost use Rattle.stream_object.specs.Streams.{IsStream, pair_of, refs, stream_of};
ghost use Rattle.plain_model.specs.StreamSteps.{trimmed, without, without_all};
ghost use Rattle.plain_model.specs.declared.stream_command.StreamCommand.TheVariants as streams;
ghost use Rattle.keyspace.specs.Scopes.{one_key};
ghost use Rattle.keyspace.specs.Forms.{Formed, stream_form};
ghost use Rattle.keyspace.specs.Commands.{Ready, KeepsOrRefuses};
ghost use Rattle.cmd_streams.specs.Found.{Gives};
ghost use Rattle.cmd_streams.specs.Removed.{Removes};

use crate::changing::{change_stream, stream_sought};
use crate::edits::StreamEdit;
use blocks::BlockStore;
use keyspace::{Keyspace, Look, count_reply, seek};
use plain_model::{Ctx, EntryId, Memory, Refusal, Reply, Trim};
use stream_object::{Id, Stream};

/// Takes out what goes from the front.
pub fn trim_front<B: BlockStore>(
    stream: &mut Stream,
    store: &mut B,
    trim: Trim,
) -> Result<(), Memory>
    requires { IsStream (B.blocks store.old) stream.old }
    ensures sound { IsStream (B.blocks store.new) stream.new }
    ensures is { OnOk result (stream_of (B.blocks store.new) stream.new ≡ trimmed trim (stream_of (B.blocks store.old) stream.old)) }
    ensures changes { Changes (B.blocks store.old) (B.blocks store.new) (refs (B.blocks store.old) stream.old) (refs (B.blocks store.new) stream.new) }
    ensures served { Served B.step store.old store.new }
{
    match trim {
        Trim::MaxLen(keep) => {
            stream.trim_len(store, keep)?;
            Ok(())
        }
        Trim::MinId((ms, seq)) => {
            stream.trim_id(store, Id { ms, seq })?;
            Ok(())
        }
    }
}

// Takes out the entry of an id, where there is one.
fn delete_one<B: BlockStore>(stream: &mut Stream, store: &mut B, id: Id) -> Result<(), Memory>
    requires { IsStream (B.blocks store.old) stream.old }
    ensures sound { IsStream (B.blocks store.new) stream.new }
    ensures is { OnOk result (stream_of (B.blocks store.new) stream.new ≡ without (stream_of (B.blocks store.old) stream.old) (pair_of id)) }
    ensures changes { Changes (B.blocks store.old) (B.blocks store.new) (refs (B.blocks store.old) stream.old) (refs (B.blocks store.new) stream.new) }
    ensures served { Served B.step store.old store.new }
{
    stream.delete(store, id)?;
    Ok(())
}

// Takes out the entries of these ids, one after the other.
fn delete_each<B: BlockStore>(
    stream: &mut Stream,
    store: &mut B,
    ids: &[EntryId],
) -> Result<(), Memory>
    requires { IsStream (B.blocks store.old) stream.old }
    ensures sound { IsStream (B.blocks store.new) stream.new }
    ensures is { OnOk result (stream_of (B.blocks store.new) stream.new ≡ without_all (stream_of (B.blocks store.old) stream.old) ids.now) }
    ensures changes { Changes (B.blocks store.old) (B.blocks store.new) (refs (B.blocks store.old) stream.old) (refs (B.blocks store.new) stream.new) }
    ensures served { Served B.step store.old store.new }
{
    for id in ids {
        delete_one(
            stream,
            store,
            Id {
                ms: id.0,
                seq: id.1,
            },
        )?;
    }
    Ok(())
}

/// Entries to be taken out by their ids, and how many of them were there.
#[derive(Drop)]
pub struct DeleteAll<'a> {
    pub ids: &'a [EntryId],
    pub gone: u64,
}

impl<'a> StreamEdit for DeleteAll<'a> {
    ghost takes = { λ delete stream. Unit {0} };

    ghost makes = { λ first last old new. Removes (λ s. without_all s first.ids.now) last.gone old new };

    fn edit_stream<B: BlockStore>(
        &mut self,
        stream: &mut Stream,
        store: &mut B,
    ) -> Result<(), Memory> {
        let before = stream.len();
        delete_each(stream, store, self.ids)?;
        self.gone = before.saturating_sub(stream.len());
        Ok(())
    }
}

/// What goes from the front, and how many entries are gone.
#[derive(Drop)]
pub struct TrimFront {
    pub trim: Trim,
    pub gone: u64,
}

impl StreamEdit for TrimFront {
    ghost takes = { λ trim stream. Unit {0} };

    ghost makes = { λ first last old new. Removes (trimmed first.trim) last.gone old new };

    fn edit_stream<B: BlockStore>(
        &mut self,
        stream: &mut Stream,
        store: &mut B,
    ) -> Result<(), Memory> {
        let before = stream.len();
        trim_front(stream, store, self.trim)?;
        self.gone = before.saturating_sub(stream.len());
        Ok(())
    }
}

/// `XDEL key id..`: how many entries were there, which are gone then. The stream stays, also without an entry.
#[tactic(auto, using(crate::proofs::Looking::refused_other))]
pub fn xdel<B: BlockStore>(
    keyspace: &mut Keyspace<B>,
    at: &Ctx,
    key: &[u8],
    ids: &[EntryId],
) -> Result<Reply, Memory>
    requires ready { Ready B.blocks keyspace.old at.now }
    ensures gives { Gives B.blocks keyspace.old keyspace.new at.now (streams.XDel key.now ids.now) result }
    ensures kept { KeepsOrRefuses B.blocks B.step (one_key at.now.db key.now) keyspace.old keyspace.new result }
    ensures forms { IfOk result (λ reply. Formed B.blocks (stream_form (streams.XDel key.now ids.now)) keyspace.old keyspace.new) }
{
    let alloc = keyspace.alloc();
    let found = seek(keyspace, at, key);
    let item = match stream_sought(keyspace, at, key, found) {
        Look::Other => return Reply::refused(alloc, Refusal::WrongType),
        Look::Missing => return count_reply(alloc, 0),
        Look::There(item) => item,
    };
    let delete = DeleteAll { ids, gone: 0 };
    let delete = change_stream(keyspace, at, key, found.sought, Some(item), delete)?;
    count_reply(alloc, delete.gone as usize)
}

/// `XTRIM key MAXLEN or MINID [= or ~] bound`: how many entries are gone, from the front. The stream stays, also without an entry.
#[tactic(auto, using(crate::proofs::Looking::refused_other))]
pub fn xtrim<B: BlockStore>(
    keyspace: &mut Keyspace<B>,
    at: &Ctx,
    key: &[u8],
    trim: Trim,
) -> Result<Reply, Memory>
    requires ready { Ready B.blocks keyspace.old at.now }
    ensures gives { Gives B.blocks keyspace.old keyspace.new at.now (streams.XTrim key.now trim) result }
    ensures kept { KeepsOrRefuses B.blocks B.step (one_key at.now.db key.now) keyspace.old keyspace.new result }
    ensures forms { IfOk result (λ reply. Formed B.blocks (stream_form (streams.XTrim key.now trim)) keyspace.old keyspace.new) }
{
    let alloc = keyspace.alloc();
    let found = seek(keyspace, at, key);
    let item = match stream_sought(keyspace, at, key, found) {
        Look::Other => return Reply::refused(alloc, Refusal::WrongType),
        Look::Missing => return count_reply(alloc, 0),
        Look::There(item) => item,
    };
    let front = TrimFront { trim, gone: 0 };
    let front = change_stream(keyspace, at, key, found.sought, Some(item), front)?;
    count_reply(alloc, front.gone as usize)
}
