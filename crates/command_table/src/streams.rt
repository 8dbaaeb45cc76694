//! The words of commands on streams.

ghost use Rattle.std.specs.Prelude.{◌<◌, ◌∷◌, [], None, Ok, false, codes, length, drop};
ghost use Rattle.plain_model.specs.Shapes.{EntryId, FirstId, IdOr, LastId, Plain, and_then, by_second, fixed, repeated, with_options};
ghost use Rattle.plain_model.specs.StreamWords.{at_most, count_option, create_options, each_told, group_rows, no_options, read_group_words, read_words, stream_rows};
ghost use Rattle.plain_model.specs.declared.command.Command.TheVariants as commands;
ghost use Rattle.plain_model.specs.declared.stream_command.StreamCommand.{StreamCommand};
ghost use Rattle.plain_model.specs.declared.zset_command.Direction.TheVariants.{Falling, Rising};
ghost use Rattle.command_words.specs.Readings.{ReadsAs, ReadsStream, Tells};
ghost use Rattle.command_table.specs.Rows.{by_own, stream_name};

use crate::table::StreamName;
use command_words::ReadingFault;
use command_words::kinds::{WRONG_NUMBER, one};
use command_words::options::read_options;
use command_words::stream_appends::{append, trim};
use command_words::stream_ids::{first_id, id_or, last_id};
use command_words::stream_options::{AtMost, Makes};
use command_words::stream_reads::{ids, streams};
use command_words::words::{is_word, plain};
use plain_model::{Direction, Refusal, StreamCommand};
use resp_frames::Request;
use std::alloc::Global;

const BROKEN: ReadingFault = ReadingFault::Refused(Refusal::Syntax);

// XRANGE: the first id and the last one.
fn rising<'r>(request: &'r Request<'_>) -> Result<StreamCommand<'r>, ReadingFault>
    requires { 0 < length request.now }
    ensures { Tells (with_options (Plain ∷ FirstId ∷ LastId ∷ []) (count_option at_most ∷ []) None (λ a o. Ok (StreamCommand.XRange a.0 a.1.0 a.1.1.0 Rising o)) (drop 1 request.now)) result }
{
    if request.len() < 4 {
        return Err(WRONG_NUMBER);
    }
    let from = first_id(request, 2)?;
    let to = last_id(request, 3)?;
    let limit = read_options(request, AtMost(None), 4)?;
    Ok(StreamCommand::XRange(plain(request, 1), from, to, Direction::Rising, limit.0))
}

// XREVRANGE: the last id and the first one.
fn falling<'r>(request: &'r Request<'_>) -> Result<StreamCommand<'r>, ReadingFault>
    requires { 0 < length request.now }
    ensures { Tells (with_options (Plain ∷ LastId ∷ FirstId ∷ []) (count_option at_most ∷ []) None (λ a o. Ok (StreamCommand.XRange a.0 a.1.1.0 a.1.0 Falling o)) (drop 1 request.now)) result }
{
    if request.len() < 4 {
        return Err(WRONG_NUMBER);
    }
    let to = last_id(request, 2)?;
    let from = first_id(request, 3)?;
    let limit = read_options(request, AtMost(None), 4)?;
    Ok(StreamCommand::XRange(plain(request, 1), from, to, Direction::Falling, limit.0))
}

// XDEL: a key, and one id or more.
fn delete<'r>(alloc: Global, request: &'r Request<'_>) -> Result<StreamCommand<'r>, ReadingFault>
    requires { 0 < length request.now }
    ensures { ReadsStream (repeated (Plain ∷ []) 1 (λ a own. and_then (each_told EntryId own) (λ ids. Ok (StreamCommand.XDel a.0 ids))) (drop 1 request.now)) result }
{
    if request.len() < 3 {
        return Err(WRONG_NUMBER);
    }
    let own = ids(alloc, request, 2)?;
    Ok(StreamCommand::XDel(plain(request, 1), own))
}

// XACK: a key, a group, and one id or more.
fn ack<'r>(alloc: Global, request: &'r Request<'_>) -> Result<StreamCommand<'r>, ReadingFault>
    requires { 0 < length request.now }
    ensures { ReadsStream (repeated (Plain ∷ Plain ∷ []) 1 (λ a own. and_then (each_told EntryId own) (λ ids. Ok (StreamCommand.XAck a.0 a.1.0 ids))) (drop 1 request.now)) result }
{
    if request.len() < 4 {
        return Err(WRONG_NUMBER);
    }
    let own = ids(alloc, request, 3)?;
    Ok(StreamCommand::XAck(plain(request, 1), plain(request, 2), own))
}

// XREAD: COUNT, then STREAMS with keys and ids.
fn read<'r>(alloc: Global, request: &'r Request<'_>) -> Result<StreamCommand<'r>, ReadingFault>
    requires { 0 < length request.now }
    ensures { ReadsStream (read_words (drop 1 request.now)) result }
{
    if request.len() < 4 {
        return Err(WRONG_NUMBER);
    }
    let (limit, own) = streams(alloc, request, 1, b"$")?;
    Ok(StreamCommand::XRead(limit, own))
}

// XREADGROUP: GROUP, a group and a consumer, and what XREAD has.
fn read_group<'r>(
    alloc: Global,
    request: &'r Request<'_>,
) -> Result<StreamCommand<'r>, ReadingFault>
    requires { 0 < length request.now }
    ensures { ReadsStream (read_group_words (drop 1 request.now)) result }
{
    if request.len() < 7 {
        return Err(WRONG_NUMBER);
    }
    if !is_word(request.word(1), b"group") {
        return Err(BROKEN);
    }
    let (limit, own) = streams(alloc, request, 4, b">")?;
    Ok(StreamCommand::XReadGroup(plain(request, 2), plain(request, 3), limit, own))
}

// XGROUP CREATE: a key, a group and an id, and MKSTREAM.
fn create<'r>(request: &'r Request<'_>) -> Result<StreamCommand<'r>, ReadingFault>
    requires { 1 < length request.now }
    ensures { Tells (with_options (Plain ∷ Plain ∷ IdOr (codes "$") ∷ []) create_options false (λ a o. Ok (StreamCommand.XGroupCreate a.0 a.1.0 a.1.1.0 o)) (drop 2 request.now)) result }
{
    if request.len() < 5 {
        return Err(WRONG_NUMBER);
    }
    let id = id_or(request, 4, b"$")?;
    let makes = read_options(request, Makes(false), 5)?;
    Ok(StreamCommand::XGroupCreate(plain(request, 2), plain(request, 3), id, makes.0))
}

// XGROUP DESTROY: a key and a group.
fn destroy<'r>(request: &'r Request<'_>) -> Result<StreamCommand<'r>, ReadingFault>
    requires { 1 < length request.now }
    ensures { Tells (fixed (Plain ∷ Plain ∷ []) (λ a. Ok (StreamCommand.XGroupDestroy a.0 a.1.0)) (drop 2 request.now)) result }
{
    if request.len() != 4 {
        return Err(WRONG_NUMBER);
    }
    Ok(StreamCommand::XGroupDestroy(plain(request, 2), plain(request, 3)))
}

// XGROUP: its second word, and what stands behind it.
fn group<'r>(request: &'r Request<'_>) -> Result<StreamCommand<'r>, ReadingFault>
    requires { 0 < length request.now }
    ensures { Tells (by_second 3 group_rows (drop 1 request.now)) result }
{
    if request.len() < 4 {
        return Err(WRONG_NUMBER);
    }
    if is_word(request.word(1), b"create") {
        return create(request);
    }
    if is_word(request.word(1), b"destroy") {
        return destroy(request);
    }
    Err(BROKEN)
}

// XPENDING: a key and a group, and nothing else.
fn pending<'r>(request: &'r Request<'_>) -> Result<StreamCommand<'r>, ReadingFault>
    requires { 0 < length request.now }
    ensures { Tells (with_options (Plain ∷ Plain ∷ []) no_options tt (λ a o. Ok (StreamCommand.XPending a.0 a.1.0)) (drop 1 request.now)) result }
{
    if request.len() < 3 {
        return Err(WRONG_NUMBER);
    }
    if request.len() != 3 {
        return Err(BROKEN);
    }
    Ok(StreamCommand::XPending(plain(request, 1), plain(request, 2)))
}

/// Turns the words behind the name of a command on streams into it.
#[tactic(auto, using(crate::proofs::Arms::fixed_made, command_words::proofs::Lifted::lifted))]
pub fn read_stream<'r>(
    alloc: Global,
    name: StreamName,
    request: &'r Request<'_>,
) -> Result<StreamCommand<'r>, ReadingFault>
    requires { 0 < length request.now }
    ensures { ReadsAs commands.Streams (by_own commands.Streams stream_rows (stream_name name) (drop 1 request.now)) result }
{
    match name {
        StreamName::XAdd => append(alloc, request),
        StreamName::XLen => one(request).map(StreamCommand::XLen),
        StreamName::XRange => rising(request),
        StreamName::XRevRange => falling(request),
        StreamName::XDel => delete(alloc, request),
        StreamName::XTrim => trim(request),
        StreamName::XRead => read(alloc, request),
        StreamName::XGroup => group(request),
        StreamName::XReadGroup => read_group(alloc, request),
        StreamName::XAck => ack(alloc, request),
        StreamName::XPending => pending(request),
    }
}
