//! Words of a request, one by one.

ghost use Rattle.std.specs.Prelude.{◌≡◌, ◌<◌, length, bytes_eq, Err};
ghost use Rattle.plain_world.specs.Words.{in_lower_case};
ghost use Rattle.plain_model.specs.Shapes.{Whole, Offset, Span, Database, Count, Steps, Cursor, Amount, Rank, OnSide, AtEnd, Score, Bound, Picks, Keys, Aggregated, score, score_bound, told};
ghost use Rattle.plain_world.specs.ScoreTexts.{score_of};
ghost use Rattle.command_words.specs.Readings.{Tells, word_at, included};

use crate::ReadingFault;
use int_text::{ScoreFault, read_i64, read_score, read_u64};
use plain_model::{Aggregate, ListEnd, Refusal, ScoreBound, Side, Word};
use resp_frames::Request;

/// Whether a word is this name, whatever the case of either.
pub fn is_word(word: &[u8], name: &[u8]) -> bool
    ensures { result ≡ bytes_eq (in_lower_case word.now) (in_lower_case name.now) }
{
    word.len() == name.len() && word.eq_ignore_ascii_case(name)
}

/// A word as it stands.
pub fn plain<'r>(request: &'r Request<'_>, index: usize) -> Word<'r>
    requires { index < length request.now }
    ensures { result ≡ word_at request.now index }
{
    Word::new(request.word(index))
}

/// A word as a whole number of 64 bits with a sign.
pub fn number(request: &Request<'_>, index: usize) -> Result<i64, ReadingFault>
    requires { index < length request.now }
    ensures { Tells (told Whole (word_at request.now index)) result }
{
    match read_i64(request.word(index)) {
        Some(n) => Ok(n),
        None => Err(ReadingFault::Refused(Refusal::NotAnInteger)),
    }
}

/// A word as such a number from 0 on.
pub fn offset(request: &Request<'_>, index: usize) -> Result<u64, ReadingFault>
    requires { index < length request.now }
    ensures { Tells (told Offset (word_at request.now index)) result }
{
    let n = number(request, index)?;
    match u64::try_from(n) {
        Ok(at) => Ok(at),
        Err(_) => Err(ReadingFault::Refused(Refusal::IndexOutOfRange)),
    }
}

/// A word as such a number above 0, which is a time.
pub fn span(request: &Request<'_>, index: usize) -> Result<i64, ReadingFault>
    requires { index < length request.now }
    ensures { Tells (told Span (word_at request.now index)) result }
{
    let n = number(request, index)?;
    if n > 0 {
        return Ok(n);
    }
    Err(ReadingFault::Refused(Refusal::InvalidExpireTime))
}

/// A word as such a number from 0 to 15, which is a database.
pub fn database(request: &Request<'_>, index: usize) -> Result<usize, ReadingFault>
    requires { index < length request.now }
    ensures { Tells (told Database (word_at request.now index)) result }
{
    let n = number(request, index)?;
    match usize::try_from(n) {
        Ok(db) if db < 16 => Ok(db),
        _ => Err(ReadingFault::Refused(Refusal::DatabaseOutOfRange)),
    }
}

/// A word as such a number above 0, which is how many are to be met.
pub fn count(request: &Request<'_>, index: usize) -> Result<u64, ReadingFault>
    requires { index < length request.now }
    ensures { Tells (told Count (word_at request.now index)) result }
{
    let n = number(request, index)?;
    match u64::try_from(n) {
        Ok(count) if count > 0 => Ok(count),
        _ => Err(ReadingFault::Refused(Refusal::Syntax)),
    }
}

/// A word as such a number from 0 to 1,000,000, which is how many steps are to be made.
pub fn steps(request: &Request<'_>, index: usize) -> Result<u32, ReadingFault>
    requires { index < length request.now }
    ensures { Tells (told Steps (word_at request.now index)) result }
{
    let n = number(request, index)?;
    match u32::try_from(n) {
        Ok(steps) if steps <= 1_000_000 => Ok(steps),
        _ => Err(ReadingFault::Refused(Refusal::ValueOutOfRange)),
    }
}

/// A word as a cursor: decimal digits, leading zeros too, of a number of 64 bits.
pub fn cursor(request: &Request<'_>, index: usize) -> Result<u64, ReadingFault>
    requires { index < length request.now }
    ensures { Tells (told Cursor (word_at request.now index)) result }
{
    match read_u64(request.word(index)) {
        Some(cursor) => Ok(cursor),
        None => Err(ReadingFault::Refused(Refusal::InvalidCursor)),
    }
}

/// A word as a whole number from 0 on, which is how many are asked for.
pub fn amount(request: &Request<'_>, index: usize) -> Result<u64, ReadingFault>
    requires { index < length request.now }
    ensures { Tells (told Amount (word_at request.now index)) result }
{
    let n = number(request, index)?;
    match u64::try_from(n) {
        Ok(amount) => Ok(amount),
        Err(_) => Err(ReadingFault::Refused(Refusal::ValueOutOfRange)),
    }
}

/// A word as a whole number that isn't 0 and has an opposite one, which is the rank of a match.
pub fn rank(request: &Request<'_>, index: usize) -> Result<i64, ReadingFault>
    requires { index < length request.now }
    ensures { Tells (told Rank (word_at request.now index)) result }
{
    let n = number(request, index)?;
    if n == 0 || n == i64::MIN {
        return Err(ReadingFault::Refused(Refusal::ValueOutOfRange));
    }
    Ok(n)
}

/// A word as a side, BEFORE or AFTER.
pub fn side(request: &Request<'_>, index: usize) -> Result<Side, ReadingFault>
    requires { index < length request.now }
    ensures { Tells (told OnSide (word_at request.now index)) result }
{
    let word = request.word(index);
    if is_word(word, b"before") {
        return Ok(Side::Before);
    }
    if is_word(word, b"after") {
        return Ok(Side::After);
    }
    Err(ReadingFault::Refused(Refusal::Syntax))
}

/// A word as an end of a list, LEFT or RIGHT.
pub fn end(request: &Request<'_>, index: usize) -> Result<ListEnd, ReadingFault>
    requires { index < length request.now }
    ensures { Tells (told AtEnd (word_at request.now index)) result }
{
    let word = request.word(index);
    if is_word(word, b"left") {
        return Ok(ListEnd::Head);
    }
    if is_word(word, b"right") {
        return Ok(ListEnd::Tail);
    }
    Err(ReadingFault::Refused(Refusal::Syntax))
}

// Why a text is refused that is no score.
fn no_score(fault: ScoreFault) -> Refusal
    ensures { score (Err fault) ≡ Err result }
{
    match fault {
        ScoreFault::Malformed => Refusal::NotAScore,
        ScoreFault::NotWhole => Refusal::NotAWholeScore,
        ScoreFault::TooLarge => Refusal::NotAWholeScore,
    }
}

// A text as a score.
fn score_text(text: &[u8]) -> Result<i64, ReadingFault>
    ensures { Tells (score (score_of text.now)) result }
{
    match read_score(text) {
        Ok(n) => Ok(n),
        Err(fault) => Err(ReadingFault::Refused(no_score(fault))),
    }
}

/// A word as a score.
pub fn score(request: &Request<'_>, index: usize) -> Result<i64, ReadingFault>
    requires { index < length request.now }
    ensures { Tells (told Score (word_at request.now index)) result }
{
    score_text(request.word(index))
}

// A text as a score that is in the range.
fn score_included(text: &[u8]) -> Result<ScoreBound, ReadingFault>
    ensures { Tells (included text.now) result }
{
    let n = score_text(text)?;
    Ok(ScoreBound::Including(n))
}

// A text as an end of a range: behind `(` a score that is left out, else one that is in the range.
fn score_bound(text: &[u8]) -> Result<ScoreBound, ReadingFault>
    ensures { Tells (score_bound text.now) result }
{
    match text {
        [b'(', behind @ ..] => {
            let n = score_text(behind)?;
            Ok(ScoreBound::Excluding(n))
        }
        _ => score_included(text),
    }
}

/// A word as an end of a range of scores: an infinity, or a score that may stand behind a `(`.
pub fn bound(request: &Request<'_>, index: usize) -> Result<ScoreBound, ReadingFault>
    requires { index < length request.now }
    ensures { Tells (told Bound (word_at request.now index)) result }
{
    let word = request.word(index);
    if is_word(word, b"-inf") {
        return Ok(ScoreBound::Lowest);
    }
    if is_word(word, b"inf") || is_word(word, b"+inf") {
        return Ok(ScoreBound::Highest);
    }
    score_bound(word)
}

/// A word as a whole number from -1,048,576 on, which is how many are picked; below 0 with repeats.
pub fn picks(request: &Request<'_>, index: usize) -> Result<i64, ReadingFault>
    requires { index < length request.now }
    ensures { Tells (told Picks (word_at request.now index)) result }
{
    let n = number(request, index)?;
    if n >= -1_048_576 {
        return Ok(n);
    }
    Err(ReadingFault::Refused(Refusal::ValueOutOfRange))
}

/// A word as a whole number above 0, which is how many keys stand behind it.
pub fn keys(request: &Request<'_>, index: usize) -> Result<usize, ReadingFault>
    requires { index < length request.now }
    ensures { Tells (told Keys (word_at request.now index)) result }
{
    let n = number(request, index)?;
    match usize::try_from(n) {
        Ok(keys) if keys > 0 => Ok(keys),
        _ => Err(ReadingFault::Refused(Refusal::ValueOutOfRange)),
    }
}

/// A word as what is made of scores, SUM, MIN or MAX.
pub fn aggregate(request: &Request<'_>, index: usize) -> Result<Aggregate, ReadingFault>
    requires { index < length request.now }
    ensures { Tells (told Aggregated (word_at request.now index)) result }
{
    let word = request.word(index);
    if is_word(word, b"sum") {
        return Ok(Aggregate::Sum);
    }
    if is_word(word, b"min") {
        return Ok(Aggregate::Min);
    }
    if is_word(word, b"max") {
        return Ok(Aggregate::Max);
    }
    Err(ReadingFault::Refused(Refusal::Syntax))
}
