//! The words of commands on streams that have several ids: XDEL and XACK, XREAD and XREADGROUP.

ghost use Rattle.std.specs.Prelude.{◌≡◌, ◌<◌, ◌≤◌, ◌+◌, ◌*◌, None, length, drop};
ghost use Rattle.plain_model.specs.Shapes.{EntryId};
ghost use Rattle.plain_model.specs.StreamWords.{at_most_or_all, each_told, keyed, keys_and_ids, streams_read};
ghost use Rattle.command_words.specs.Readings.{Gathers, HasMore};

use crate::ReadingFault;
use crate::stream_ids::{entry_id, id_or};
use crate::words::{is_word, number, plain};
use plain_model::{EntryId, IdList, Memory, ReadList, Refusal, Word};
use resp_frames::Request;
use std::alloc::Global;

const BROKEN: ReadingFault = ReadingFault::Refused(Refusal::Syntax);

// The list with an id more. Once there was no memory, nothing is kept.
fn with_id(list: Result<IdList, Memory>, id: EntryId) -> Result<IdList, Memory>
    ensures { HasMore list id result }
{
    let mut list = list?;
    list.push(id)?;
    Ok(list)
}

/// The words from a place on, which are ids.
pub fn ids<'r>(alloc: Global, request: &'r Request<'_>, from: usize) -> Result<IdList, ReadingFault>
    requires { from ≤ length request.now }
    ensures { Gathers (each_told EntryId (drop from request.now)) result }
{
    let mut list = Ok(IdList::new(alloc));
    for index in from..request.len() {
        let id = entry_id(request, index)?;
        list = with_id(list, id);
    }
    match list {
        Ok(list) => Ok(list),
        Err(_) => Err(ReadingFault::Memory),
    }
}

// The list with a key and its id more.
fn with_key<'r>(
    list: Result<ReadList<'r>, Memory>,
    key: Word<'r>,
    id: Option<EntryId>,
) -> Result<ReadList<'r>, Memory>
    ensures { HasMore list.entry (key.entry, id) result }
{
    let mut list = list?;
    list.push(key, id)?;
    Ok(list)
}

// So many keys from a place on, and as many ids behind them, or a sign that stands for one: all words that are left.
fn keyed<'r>(
    alloc: Global,
    request: &'r Request<'_>,
    from: usize,
    count: usize,
    sign: &[u8],
) -> Result<ReadList<'r>, ReadingFault>
    requires { from + 2 * count ≡ length request.now }
    ensures { Gathers (keyed sign.now (drop from request.now) (drop (from + count) request.now)) result }
{
    let mut list = Ok(ReadList::new(alloc));
    for index in request.len() - count..request.len() {
        let id = id_or(request, index, sign)?;
        list = with_key(list, plain(request, index - count), id);
    }
    match list {
        Ok(list) => Ok(list),
        Err(_) => Err(ReadingFault::Memory),
    }
}

// Keys and as many ids from a place on.
fn keys_and_ids<'r>(
    alloc: Global,
    request: &'r Request<'_>,
    from: usize,
    sign: &[u8],
) -> Result<ReadList<'r>, ReadingFault>
    requires { from ≤ length request.now }
    ensures { Gathers (keys_and_ids sign.now (drop from request.now)) result }
{
    let left = request.len() - from;
    if left % 2 != 0 {
        return Err(BROKEN);
    }
    keyed(alloc, request, from, left / 2, sign)
}

// How many entries a COUNT lets be read: all for 0 or a number below it.
fn at_most_or_all(n: i64) -> Option<u64>
    ensures { result ≡ at_most_or_all n }
{
    match u64::try_from(n) {
        Ok(n) if n > 0 => Some(n),
        _ => None,
    }
}

/// COUNT from a place on, and behind STREAMS keys and as many ids.
pub fn streams<'r>(
    alloc: Global,
    request: &'r Request<'_>,
    from: usize,
    sign: &[u8],
) -> Result<(Option<u64>, ReadList<'r>), ReadingFault>
    requires { from ≤ length request.now }
    ensures { Gathers (streams_read sign.now None (drop from request.now)) result }
{
    let mut limit = None;
    let mut index = from;
    while request.len() - index >= 2 {
        let word = request.word(index);
        if is_word(word, b"streams") {
            let list = keys_and_ids(alloc, request, index + 1, sign)?;
            return Ok((limit, list));
        }
        if !is_word(word, b"count") {
            return Err(BROKEN);
        }
        let n = number(request, index + 1)?;
        limit = at_most_or_all(n);
        index += 2;
    }
    Err(BROKEN)
}
