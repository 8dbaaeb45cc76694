//! The words of XADD and XTRIM: what goes from the front, and options in front of an id.

ghost use Rattle.std.specs.Prelude.{◌≡◌, ◌↔◌, ◌<◌, ◌≤◌, ◌+◌, ◌%◌, [], Ok, IfSome, IfNone, false, length, drop};
ghost use Rattle.plain_world.specs.Words.{in_lower_case};
ghost use Rattle.plain_model.specs.StringWords.{pairs_of};
ghost use Rattle.plain_model.specs.StreamWords.{append_option, append_options, append_words, behind_options, entry_words, is_mark, is_option, is_trim, no_append_options, own_of};
ghost use Rattle.plain_model.specs.StreamWords.{own_words, pairs_len, trim_of, trim_words, unmarked};
ghost use Rattle.command_words.specs.Readings.{Gathers, ReadsStream, Tells, word_at};

use crate::ReadingFault;
use crate::kinds::WRONG_NUMBER;
use crate::stream_ids::{entry_id, new_id};
use crate::words::{amount, is_word, plain};
use plain_model::{AppendOptions, PairList, Refusal, StreamCommand, Trim};
use resp_frames::Request;
use std::alloc::Global;

const BROKEN: ReadingFault = ReadingFault::Refused(Refusal::Syntax);

// How many bytes the fields and values of an entry have together at most.
const LONGEST_ENTRY: usize = 524_288_000;

// Whether a word is `=` or `~`.
fn is_mark(word: &[u8]) -> bool
    ensures { result ≡ is_mark word.now }
{
    word == b"=".as_slice() || word == b"~".as_slice()
}

// How many words from a place on are those of MAXLEN or MINID in front of it.
fn own_words(request: &Request<'_>, from: usize) -> usize
    ensures same { result ≡ own_words (drop from request.now) }
    ensures some { 1 ≤ result }
    ensures few { result ≤ 2 }
{
    if from < request.len() && is_mark(request.word(from)) {
        2
    } else {
        1
    }
}

// The place of the bound among the words from a place on, where one stands there.
fn bound_at(request: &Request<'_>, from: usize) -> Option<usize>
    requires { from ≤ length request.now }
    ensures some { IfSome result (λ bound. (bound < length request.now) × (unmarked (drop from request.now) ≡ drop bound request.now)) }
    ensures none { IfNone result (unmarked (drop from request.now) ≡ []) }
{
    let left = request.len() - from;
    let own = own_words(request, from);
    if own > left {
        return None;
    }
    Some(from + own - 1)
}

// MAXLEN or MINID at a place, with its bound.
fn trim_at(request: &Request<'_>, index: usize) -> Result<Trim, ReadingFault>
    requires { index < length request.now }
    ensures { Tells (trim_of (in_lower_case (word_at request.now index)) (drop (index + 1) request.now)) result }
{
    let word = request.word(index);
    prove!(index < request.len());
    let Some(bound) = bound_at(request, index + 1) else {
        return Err(BROKEN);
    };
    if is_word(word, b"maxlen") {
        let n = amount(request, bound)?;
        return Ok(Trim::MaxLen(n));
    }
    if is_word(word, b"minid") {
        let id = entry_id(request, bound)?;
        return Ok(Trim::MinId(id));
    }
    Err(BROKEN)
}

/// XTRIM: a key, MAXLEN or MINID, and a bound that a mark may stand before.
pub fn trim<'r>(request: &'r Request<'_>) -> Result<StreamCommand<'r>, ReadingFault>
    requires { 0 < length request.now }
    ensures { Tells (trim_words (drop 1 request.now)) result }
{
    if request.len() < 4 || request.len() > 5 {
        return Err(WRONG_NUMBER);
    }
    let trim = trim_at(request, 2)?;
    if request.len() != 3 + own_words(request, 3) {
        return Err(BROKEN);
    }
    Ok(StreamCommand::XTrim(plain(request, 1), trim))
}

// Whether a word is MAXLEN or MINID.
fn is_trim(word: &[u8]) -> bool
    ensures { result ≡ is_trim word.now }
{
    is_word(word, b"maxlen") || is_word(word, b"minid")
}

// Whether a word is an option of XADD.
fn is_option(word: &[u8]) -> bool
    ensures { result ≡ is_option word.now }
{
    is_trim(word) || is_word(word, b"nomkstream")
}

// How many words behind an option are its own.
fn own_of(request: &Request<'_>, index: usize) -> usize
    requires { index < length request.now }
    ensures same { result ≡ own_of (word_at request.now index) (drop (index + 1) request.now) }
    ensures few { result ≤ 2 }
{
    prove!(index < request.len());
    if is_trim(request.word(index)) {
        own_words(request, index + 1)
    } else {
        0
    }
}

// Where the id stands: behind the options in front.
fn id_place(request: &Request<'_>) -> usize
    ensures behind { drop result request.now ≡ behind_options 0 (drop 2 request.now) }
    ensures within { result ≤ length request.now }
{
    let mut index = 2;
    while index < request.len() && is_option(request.word(index)) {
        index = index + 1 + own_of(request, index);
    }
    index.min(request.len())
}

// What is said with the option at a place.
fn append_option(
    request: &Request<'_>,
    index: usize,
    before: AppendOptions,
) -> Result<AppendOptions, ReadingFault>
    requires { index < length request.now }
    ensures { Tells (append_option before (word_at request.now index) (drop (index + 1) request.now)) result }
{
    if !is_trim(request.word(index)) {
        return Ok(AppendOptions {
            only_there: true,
            ..before
        });
    }
    let trim = Some(trim_at(request, index)?);
    Ok(AppendOptions { trim, ..before })
}

// What the options in front say.
fn append_options(request: &Request<'_>) -> Result<AppendOptions, ReadingFault>
    ensures { Tells (append_options no_append_options 0 (drop 2 request.now)) result }
{
    let mut options = AppendOptions {
        only_there: false,
        trim: None,
    };
    let mut index = 2;
    while index < request.len() && is_option(request.word(index)) {
        options = append_option(request, index, options)?;
        index = index + 1 + own_of(request, index);
    }
    Ok(options)
}

// Whether the words from a place on have too many bytes together for an entry.
fn is_long(request: &Request<'_>, from: usize) -> bool
    requires { (length request.now) % 2 ≡ from % 2 }
    ensures { result ≡ false ↔ pairs_len (pairs_of (drop from request.now)) ≤ 524288000 }
{
    let mut left = LONGEST_ENTRY;
    for index in from..request.len() {
        match left.checked_sub(request.word(index).len()) {
            Some(rest) => left = rest,
            None => return true,
        }
    }
    false
}

// The pairs of words from a place on.
fn pairs_from<'r>(
    alloc: Global,
    request: &'r Request<'_>,
    from: usize,
) -> Result<PairList<'r>, ReadingFault>
    requires { from ≤ length request.now }
    ensures { Gathers (Ok (pairs_of (drop from request.now))) result }
{
    let mut list = PairList::new(alloc);
    let count = (request.len() - from) / 2;
    for index in 0..count {
        let first = plain(request, from + 2 * index);
        let second = plain(request, from + 2 * index + 1);
        if list.push(first, second).is_err() {
            return Err(ReadingFault::Memory);
        }
    }
    Ok(list)
}

// The id at a place, and the fields and values behind it.
fn entry<'r>(
    alloc: Global,
    request: &'r Request<'_>,
    options: AppendOptions,
    index: usize,
) -> Result<StreamCommand<'r>, ReadingFault>
    requires few { 1 < length request.now }
    requires there { index < length request.now }
    requires odd { (length request.now) % 2 ≡ (index + 1) % 2 }
    ensures { ReadsStream (entry_words (word_at request.now 1) (drop index request.now) options) result }
{
    prove!(index < request.len());
    let id = new_id(request, index)?;
    if is_long(request, index + 1) {
        return Err(ReadingFault::Refused(Refusal::ValueOutOfRange));
    }
    let pairs = pairs_from(alloc, request, index + 1)?;
    Ok(StreamCommand::XAdd(plain(request, 1), options, id, pairs))
}

/// XADD: a key, options in front, an id, and fields with their values.
pub fn append<'r>(
    alloc: Global,
    request: &'r Request<'_>,
) -> Result<StreamCommand<'r>, ReadingFault>
    requires { 0 < length request.now }
    ensures { ReadsStream (append_words (drop 1 request.now)) result }
{
    let index = id_place(request);
    let left = request.len() - index;
    if left < 3 || left % 2 == 0 {
        return Err(WRONG_NUMBER);
    }
    let options = append_options(request)?;
    entry(alloc, request, options, index)
}
