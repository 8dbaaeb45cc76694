//! Words as ids of entries.

ghost use Rattle.std.specs.Prelude.{◌≡◌, ◌<◌, ◌^◌, ◌-◌, ◌∷◌, [], codes, length};
ghost use Rattle.std.specs.Option.{option_copied};
ghost use Rattle.plain_model.specs.IdTexts.{above, before_dash, behind_dash, below, first_in, id_in, id_part, is_open, last_in, next_id, or_invalid};
ghost use Rattle.plain_model.specs.Shapes.{EntryId, FirstId, ForEntry, IdOr, LastId, told};
ghost use Rattle.command_words.specs.Readings.{Tells, word_at};

use crate::ReadingFault;
use int_text::read_u64;
use plain_model::{EntryId, NewId, Refusal};
use resp_frames::Request;

const INVALID: ReadingFault = ReadingFault::Refused(Refusal::InvalidStreamId);

const LEAST: EntryId = (0, 0);

const GREATEST: EntryId = (u64::MAX, u64::MAX);

// What stands before the first `-`, and what stands behind it.
fn split(text: &[u8]) -> (&[u8], Option<&[u8]>)
    ensures before { result.0.now ≡ before_dash text.now }
    ensures behind { option_copied result.1 ≡ behind_dash text.now }
{
    for index in 0..text.len() {
        if text[index] == b'-' {
            return (&text[..index], Some(&text[index + 1..]));
        }
    }
    (text, None)
}

// One of the two numbers of an id.
fn part(text: &[u8]) -> Option<u64>
    ensures { result ≡ id_part text.now }
{
    read_u64(text)
}

// A text as an id, whose second number may be missing.
fn id_in(text: &[u8], missing: u64) -> Option<EntryId>
    ensures { result ≡ id_in missing text.now }
{
    let (before, behind) = split(text);
    let ms = part(before)?;
    let Some(text) = behind else {
        return Some((ms, missing));
    };
    let seq = part(text)?;
    Some((ms, seq))
}

// An id, where there is one.
fn valid(id: Option<EntryId>) -> Result<EntryId, ReadingFault>
    ensures { Tells (or_invalid id) result }
{
    match id {
        Some(id) => Ok(id),
        None => Err(INVALID),
    }
}

/// A word as an id; where its second number is missing it is 0.
pub fn entry_id(request: &Request<'_>, index: usize) -> Result<EntryId, ReadingFault>
    requires { index < length request.now }
    ensures { Tells (told EntryId (word_at request.now index)) result }
{
    valid(id_in(request.word(index), 0))
}

/// A word as an id, or as a sign that stands for one.
pub fn id_or(
    request: &Request<'_>,
    index: usize,
    sign: &[u8],
) -> Result<Option<EntryId>, ReadingFault>
    requires { index < length request.now }
    ensures { Tells (told (IdOr sign.now) (word_at request.now index)) result }
{
    if request.word(index) == sign {
        return Ok(None);
    }
    let id = entry_id(request, index)?;
    Ok(Some(id))
}

// Whether a `*` alone stands behind the first `-`.
fn is_open(behind: Option<&[u8]>) -> bool
    ensures { result ≡ is_open (option_copied behind.entry) }
{
    match behind {
        Some(text) => text == b"*".as_slice(),
        None => false,
    }
}

/// A word as the id of a new entry: `*`, an id, or milliseconds with `-*` behind them.
pub fn new_id(request: &Request<'_>, index: usize) -> Result<NewId, ReadingFault>
    requires { index < length request.now }
    ensures { Tells (told ForEntry (word_at request.now index)) result }
{
    let word = request.word(index);
    if word == b"*".as_slice() {
        return Ok(NewId::Auto);
    }
    let (before, behind) = split(word);
    if is_open(behind) {
        return match part(before) {
            Some(ms) => Ok(NewId::Within(ms)),
            None => Err(INVALID),
        };
    }
    let id = valid(id_in(word, 0))?;
    Ok(NewId::Given(id))
}

// The id above an id, where there is one.
fn above(id: EntryId) -> Option<EntryId>
    ensures { result ≡ above (Some id) }
{
    let (ms, seq) = id;
    if seq < u64::MAX {
        return Some((ms, seq + 1));
    }
    if ms < u64::MAX {
        return Some((ms + 1, 0));
    }
    None
}

// The id below an id, where there is one.
fn below(id: EntryId) -> Option<EntryId>
    ensures { result ≡ below (Some id) }
{
    let (ms, seq) = id;
    if seq > 0 {
        return Some((ms, seq - 1));
    }
    if ms > 0 {
        return Some((ms - 1, u64::MAX));
    }
    None
}

// A text as the first id of a range.
fn first_in(text: &[u8]) -> Option<EntryId>
    ensures { result ≡ first_in text.now }
{
    match text {
        [b'(', behind @ ..] => above(id_in(behind, 0)?),
        _ => id_in(text, 0),
    }
}

// A text as the last id of a range.
fn last_in(text: &[u8]) -> Option<EntryId>
    ensures { result ≡ last_in text.now }
{
    match text {
        [b'(', behind @ ..] => below(id_in(behind, u64::MAX)?),
        _ => id_in(text, u64::MAX),
    }
}

/// A word as the first id of a range: `-`, `+`, an id, or `(` and an id.
pub fn first_id(request: &Request<'_>, index: usize) -> Result<EntryId, ReadingFault>
    requires { index < length request.now }
    ensures { Tells (told FirstId (word_at request.now index)) result }
{
    let word = request.word(index);
    if word == b"-".as_slice() {
        return Ok(LEAST);
    }
    if word == b"+".as_slice() {
        return Ok(GREATEST);
    }
    valid(first_in(word))
}

/// A word as the last id of a range.
pub fn last_id(request: &Request<'_>, index: usize) -> Result<EntryId, ReadingFault>
    requires { index < length request.now }
    ensures { Tells (told LastId (word_at request.now index)) result }
{
    let word = request.word(index);
    if word == b"-".as_slice() {
        return Ok(LEAST);
    }
    if word == b"+".as_slice() {
        return Ok(GREATEST);
    }
    valid(last_in(word))
}
