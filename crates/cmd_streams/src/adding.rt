//! The command that adds an entry to a stream.

ghost use Rattle.std.specs.Prelude.{◌≡◌, true, false, Ok, Err, Some, None, Option, IfOk, IfErr, IfSome, IfNone};
ghost use Rattle.std.specs.Ordering.{is_lt};
ghost use Rattle.stream_groups.specs.Groups.{id_cmp};
ghost use Rattle.stream_object.specs.Streams.{IsAddable, pair_of};
ghost use Rattle.plain_world.specs.Streams as model;
ghost use Rattle.held.specs.Calls.{Seeks};
ghost use Rattle.plain_model.specs.IdTexts.{next_id};
ghost use Rattle.plain_model.specs.Outcomes.{leaves};
ghost use Rattle.plain_model.specs.StreamSteps.{or_no_stream};
ghost use Rattle.plain_model.specs.StreamSteps as steps;
ghost use Rattle.plain_model.specs.declared.stream_command.StreamCommand.TheVariants as streams;
ghost use Rattle.keyspace.specs.Scopes.{one_key};
ghost use Rattle.keyspace.specs.Forms.{Log, Formed, stream_form};
ghost use Rattle.keyspace.specs.Commands.{Ready, KeepsOrRefuses, visible};
ghost use Rattle.cmd_streams.specs.Found.{Gives};
ghost use Rattle.cmd_streams.specs.Changed.{IsBefore, IsStreamThere};
ghost use Rattle.cmd_streams.specs.Added.{Adds, IsNext};

use crate::changing::{change_stream, stream_sought};
use crate::edits::StreamEdit;
use crate::removing::trim_front;
use crate::telling::id_text;
use crate::there::stream_there;
use blocks::BlockStore;
use keyspace::{Keyspace, Look, Sought, seek};
use plain_model::{AppendOptions, Ctx, Memory, NewId, Refusal, Reply, Trim, Word};
use std::alloc::{AllocError, Global};
use stream_object::{AddFault, Id, Pairs, Stream};

// The first id of these milliseconds that is above the last one.
fn id_within(last: Id, ms: u64) -> Option<Id>
    ensures some { IfSome result (λ id. steps.id_behind 0 (pair_of last) (NewId.Within ms) ≡ Some (pair_of id)) }
    ensures none { IfNone result (steps.id_behind 0 (pair_of last) (NewId.Within ms) ≡ None) }
{
    if last.ms < ms {
        return Some(Id { ms, seq: 0 });
    }
    if last.ms == ms && last.seq < u64::MAX {
        return Some(Id {
            ms,
            seq: last.seq + 1,
        });
    }
    None
}

// The id that a new entry gets behind the last one, which this one follows. `None` comes where there is none of the kind.
fn id_behind(moment: u64, last: Id, next: Id, asked: NewId) -> Option<Id>
    requires { pair_of next ≡ next_id (pair_of last) }
    ensures some { IfSome result (λ id. steps.id_behind moment (pair_of last) asked ≡ Some (pair_of id)) }
    ensures none { IfNone result (steps.id_behind moment (pair_of last) asked ≡ None) }
{
    match asked {
        NewId::Auto => {
            if last.ms < moment {
                return Some(Id { ms: moment, seq: 0 });
            }
            Some(next)
        }
        NewId::Within(ms) => id_within(last, ms),
        NewId::Given((ms, seq)) => {
            let id = Id { ms, seq };
            if last.is_below(id) {
                return Some(id);
            }
            None
        }
    }
}

// The id that a new entry gets behind the last one, or why there is none.
fn id_for(moment: u64, last: Id, asked: NewId) -> Result<Id, Refusal>
    ensures ok { IfOk result (λ id. steps.id_for moment (pair_of last) asked ≡ Ok (pair_of id)) }
    ensures above { IfOk result (λ id. is_lt (id_cmp (pair_of last) (pair_of id)) ≡ true) }
    ensures err { IfErr result (λ refusal. steps.id_for moment (pair_of last) asked ≡ Err refusal) }
{
    let Some(next) = last.next() else {
        return Err(Refusal::NoGreaterStreamId);
    };
    match id_behind(moment, last, next, asked) {
        Some(id) => Ok(id),
        None => Err(Refusal::StreamIdNotGreater),
    }
}

// The last id of the stream at a key that was sought, by its item number, or where nothing stands of a new one.
fn last_there<B: BlockStore>(
    keyspace: &Keyspace<B>,
    at: &Ctx,
    key: &[u8],
    there: Option<usize>,
) -> Id
    requires ready { Ready B.blocks keyspace.now at.now }
    requires there { IsStreamThere (visible B.blocks keyspace.now at.now) keyspace.now.bases (B.blocks keyspace.now.store) at.now.db key.now at.now.moment there }
    ensures { (before : Option model.Stream) → IsBefore (visible B.blocks keyspace.now at.now) key.now before → (or_no_stream before).last ≡ pair_of result }
{
    match there {
        None => Id { ms: 0, seq: 0 },
        Some(item) => stream_there(keyspace, at, key, item).last_id(),
    }
}

// A copy of fields and values.
fn copy_pairs(alloc: Global, pairs: &[(Word<'_>, Word<'_>)]) -> Result<Pairs, Memory>
    ensures { IfOk result (λ copy. copy ≡ pairs.now) }
{
    let mut copy = Pairs::new(alloc);
    for pair in pairs {
        copy.push(pair.0.as_slice(), pair.1.as_slice())?;
    }
    Ok(copy)
}

/// An entry to be added, and what goes from the front then.
#[derive(Drop)]
pub struct Append {
    pub id: Id,
    pub pairs: Pairs,
    pub trim: Option<Trim>,
}

impl StreamEdit for Append {
    ghost takes = { λ add stream. IsNext add.id add.pairs stream };

    ghost makes = { λ first last old new. Adds first.id first.pairs first.trim old new };

    fn edit_stream<B: BlockStore>(
        &mut self,
        stream: &mut Stream,
        store: &mut B,
    ) -> Result<(), Memory> {
        match stream.add(store, self.id, &self.pairs) {
            Ok(()) => match self.trim {
                None => Ok(()),
                Some(trim) => trim_front(stream, store, trim),
            },
            Err(AddFault::NotAbove(_)) => unreachable!(),
            Err(AddFault::Memory) => Err(AllocError),
        }
    }
}

// Adds an entry to the stream at a key that was sought, by its item number, or where nothing stands to a new one.
fn append_at<B: BlockStore>(
    keyspace: &mut Keyspace<B>,
    at: &Ctx,
    key: &[u8],
    sought: Sought,
    there: Option<usize>,
    append: Append,
) -> Result<Reply, Memory>
    requires ready { Ready B.blocks keyspace.old at.now }
    requires seeks { Seeks keyspace.old.bases (B.blocks keyspace.old.store) at.now.db key.now sought }
    requires there { IsStreamThere (visible B.blocks keyspace.old at.now) keyspace.old.bases (B.blocks keyspace.old.store) at.now.db key.now at.now.moment there }
    requires above { (before : Option model.Stream) → IsBefore (visible B.blocks keyspace.old at.now) key.now before → IsNext append.id append.pairs (or_no_stream before) }
    ensures gives { IfOk result
        (λ reply. (before : Option model.Stream) → IsBefore (visible B.blocks keyspace.old at.now) key.now before
        → steps.append_as (visible B.blocks keyspace.old at.now) key.now append.trim append.pairs (or_no_stream before) (Ok (pair_of append.id)) ≡ leaves reply
        (visible B.blocks keyspace.new at.now)) }
    ensures kept { KeepsOrRefuses B.blocks B.step (one_key at.now.db key.now) keyspace.old keyspace.new result }
    ensures forms { IfOk result (λ reply. Formed B.blocks Log keyspace.old keyspace.new) }
{
    let alloc = keyspace.alloc();
    let id = append.id;
    let _ = change_stream(keyspace, at, key, sought, there, append)?;
    Reply::bulk(alloc, id_text(alloc, id)?)
}

// Adds an entry to the stream at a key that was sought, by its item number, or where nothing stands to a new one, which may be made, if
// it gets an id.
fn append_where<B: BlockStore>(
    keyspace: &mut Keyspace<B>,
    at: &Ctx,
    key: &[u8],
    sought: Sought,
    there: Option<usize>,
    options: AppendOptions,
    asked: NewId,
    pairs: &[(Word<'_>, Word<'_>)],
) -> Result<Reply, Memory>
    requires ready { Ready B.blocks keyspace.old at.now }
    requires entry { IsAddable pairs.now }
    requires seeks { Seeks keyspace.old.bases (B.blocks keyspace.old.store) at.now.db key.now sought }
    requires there { IsStreamThere (visible B.blocks keyspace.old at.now) keyspace.old.bases (B.blocks keyspace.old.store) at.now.db key.now at.now.moment there }
    requires made { there ≡ None → options.only_there ≡ false }
    ensures gives { Gives B.blocks keyspace.old keyspace.new at.now (streams.XAdd key.now options asked pairs.now) result }
    ensures kept { KeepsOrRefuses B.blocks B.step (one_key at.now.db key.now) keyspace.old keyspace.new result }
    ensures forms { IfOk result (λ reply. Formed B.blocks Log keyspace.old keyspace.new) }
{
    let alloc = keyspace.alloc();
    let last = last_there(keyspace, at, key, there);
    let id = match id_for(at.moment, last, asked) {
        Err(refusal) => return Reply::refused(alloc, refusal),
        Ok(id) => id,
    };
    let pairs = copy_pairs(alloc, pairs)?;
    let trim = options.trim;
    append_at(keyspace, at, key, sought, there, Append { id, pairs, trim })
}

/// `XADD key [NOMKSTREAM] [MAXLEN or MINID [= or ~] bound] id field value..`: the id of the entry that was added, or null where NOMKSTREAM
/// makes no stream. It has at least one field with its value, and at most 1,048,576 fields and values of together at most 524,288,000
/// bytes.
#[tactic(auto, using(crate::proofs::Looking::refused_other))]
pub fn xadd<B: BlockStore>(
    keyspace: &mut Keyspace<B>,
    at: &Ctx,
    key: &[u8],
    options: AppendOptions,
    asked: NewId,
    pairs: &[(Word<'_>, Word<'_>)],
) -> Result<Reply, Memory>
    requires ready { Ready B.blocks keyspace.old at.now }
    requires entry { IsAddable pairs.now }
    ensures gives { Gives B.blocks keyspace.old keyspace.new at.now (streams.XAdd key.now options asked pairs.now) result }
    ensures kept { KeepsOrRefuses B.blocks B.step (one_key at.now.db key.now) keyspace.old keyspace.new result }
    ensures forms { IfOk result (λ reply. Formed B.blocks (stream_form (streams.XAdd key.now options asked pairs.now)) keyspace.old keyspace.new) }
{
    let alloc = keyspace.alloc();
    let found = seek(keyspace, at, key);
    let there = match stream_sought(keyspace, at, key, found) {
        Look::Other => return Reply::refused(alloc, Refusal::WrongType),
        Look::Missing => {
            if options.only_there {
                return Reply::null(alloc);
            }
            None
        }
        Look::There(item) => Some(item),
    };
    append_where(
        keyspace,
        at,
        key,
        found.sought,
        there,
        options,
        asked,
        pairs,
    )
}
