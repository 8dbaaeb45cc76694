//! The words behind a command's name, by their number and their kinds.

ghost use Rattle.std.specs.Prelude.{◌<◌, [], ◌∷◌, length, drop, Ok};
ghost use Rattle.plain_model.specs.Shapes.{Plain, Whole, Span, Database, OnSide, AtEnd, Score, Bound, fixed};
ghost use Rattle.command_words.specs.Readings.{Gathers, Tells, TellsAs, and_options, just, one_and_amount, one_and_pairs, one_and_some, some_pairs, some_words};

use crate::ReadingFault;
use crate::options::{Options, read_options};
use crate::words::{amount, bound, database, end, number, plain, score, side, span};
use plain_model::{ListEnd, PairList, Refusal, ScoreBound, Side, Word, WordList};
use resp_frames::Request;
use std::alloc::Global;

/// Another number of words than the command takes.
pub const WRONG_NUMBER: ReadingFault = ReadingFault::Refused(Refusal::WrongNumberOfArguments);

/// A command that has no word.
pub fn alone<C: Drop>(request: &Request<'_>, command: C) -> Result<C, ReadingFault>
    requires { 0 < length request.now }
    ensures { Tells (fixed [] (λ a. Ok command) (drop 1 request.now)) result }
{
    if request.len() != 1 {
        return Err(WRONG_NUMBER);
    }
    Ok(command)
}

/// Just one word.
pub fn one<'r>(request: &'r Request<'_>) -> Result<Word<'r>, ReadingFault>
    requires { 0 < length request.now }
    ensures { TellsAs (λ a. (a, tt)) (just (Plain ∷ []) request.now) result }
{
    if request.len() != 2 {
        return Err(WRONG_NUMBER);
    }
    Ok(plain(request, 1))
}

/// Just two words.
pub fn two<'r>(request: &'r Request<'_>) -> Result<(Word<'r>, Word<'r>), ReadingFault>
    requires { 0 < length request.now }
    ensures { TellsAs (λ a. (a.0, (a.1, tt))) (just (Plain ∷ Plain ∷ []) request.now) result }
{
    if request.len() != 3 {
        return Err(WRONG_NUMBER);
    }
    Ok((plain(request, 1), plain(request, 2)))
}

/// Just a word and a number.
pub fn one_and_number<'r>(request: &'r Request<'_>) -> Result<(Word<'r>, i64), ReadingFault>
    requires { 0 < length request.now }
    ensures { TellsAs (λ a. (a.0, (a.1, tt))) (just (Plain ∷ Whole ∷ []) request.now) result }
{
    if request.len() != 3 {
        return Err(WRONG_NUMBER);
    }
    let n = number(request, 2)?;
    Ok((plain(request, 1), n))
}

/// Just a word and two numbers.
pub fn one_and_numbers<'r>(request: &'r Request<'_>) -> Result<(Word<'r>, i64, i64), ReadingFault>
    requires { 0 < length request.now }
    ensures { TellsAs (λ a. (a.0, (a.1, (a.2, tt)))) (just (Plain ∷ Whole ∷ Whole ∷ []) request.now) result }
{
    if request.len() != 4 {
        return Err(WRONG_NUMBER);
    }
    let a = number(request, 2)?;
    let b = number(request, 3)?;
    Ok((plain(request, 1), a, b))
}

/// Just three words.
pub fn three<'r>(request: &'r Request<'_>) -> Result<(Word<'r>, Word<'r>, Word<'r>), ReadingFault>
    requires { 0 < length request.now }
    ensures { TellsAs (λ a. (a.0, (a.1, (a.2, tt)))) (just (Plain ∷ Plain ∷ Plain ∷ []) request.now) result }
{
    if request.len() != 4 {
        return Err(WRONG_NUMBER);
    }
    Ok((plain(request, 1), plain(request, 2), plain(request, 3)))
}

/// Just two words and a number.
pub fn two_and_number<'r>(
    request: &'r Request<'_>,
) -> Result<(Word<'r>, Word<'r>, i64), ReadingFault>
    requires { 0 < length request.now }
    ensures { TellsAs (λ a. (a.0, (a.1, (a.2, tt)))) (just (Plain ∷ Plain ∷ Whole ∷ []) request.now) result }
{
    if request.len() != 4 {
        return Err(WRONG_NUMBER);
    }
    let n = number(request, 3)?;
    Ok((plain(request, 1), plain(request, 2), n))
}

/// A word, and one pair of words or more behind it.
pub fn one_and_pairs<'r>(
    alloc: Global,
    request: &'r Request<'_>,
) -> Result<(Word<'r>, PairList<'r>), ReadingFault>
    requires { 0 < length request.now }
    ensures { Gathers (one_and_pairs request.now) result }
{
    if request.len() < 4 || request.len() % 2 == 1 {
        return Err(WRONG_NUMBER);
    }
    let mut list = PairList::new(alloc);
    let count = request.len() / 2;
    for index in 1..count {
        let first = plain(request, 2 * index);
        let second = plain(request, 2 * index + 1);
        if list.push(first, second).is_err() {
            return Err(ReadingFault::Memory);
        }
    }
    Ok((plain(request, 1), list))
}

/// Just a word, a number and a word.
pub fn one_number_one<'r>(
    request: &'r Request<'_>,
) -> Result<(Word<'r>, i64, Word<'r>), ReadingFault>
    requires { 0 < length request.now }
    ensures { TellsAs (λ a. (a.0, (a.1, (a.2, tt)))) (just (Plain ∷ Whole ∷ Plain ∷ []) request.now) result }
{
    if request.len() != 4 {
        return Err(WRONG_NUMBER);
    }
    let n = number(request, 2)?;
    Ok((plain(request, 1), n, plain(request, 3)))
}

/// Just a word, a side and two words.
pub fn one_side_two<'r>(
    request: &'r Request<'_>,
) -> Result<(Word<'r>, Side, Word<'r>, Word<'r>), ReadingFault>
    requires { 0 < length request.now }
    ensures { TellsAs (λ a. (a.0, (a.1, (a.2, (a.3, tt))))) (just (Plain ∷ OnSide ∷ Plain ∷ Plain ∷ []) request.now) result }
{
    if request.len() != 5 {
        return Err(WRONG_NUMBER);
    }
    let side = side(request, 2)?;
    Ok((
        plain(request, 1),
        side,
        plain(request, 3),
        plain(request, 4),
    ))
}

/// Just two words and two ends.
pub fn two_and_ends<'r>(
    request: &'r Request<'_>,
) -> Result<(Word<'r>, Word<'r>, ListEnd, ListEnd), ReadingFault>
    requires { 0 < length request.now }
    ensures { TellsAs (λ a. (a.0, (a.1, (a.2, (a.3, tt))))) (just (Plain ∷ Plain ∷ AtEnd ∷ AtEnd ∷ []) request.now) result }
{
    if request.len() != 5 {
        return Err(WRONG_NUMBER);
    }
    let first = end(request, 3)?;
    let second = end(request, 4)?;
    Ok((plain(request, 1), plain(request, 2), first, second))
}

/// A word, and a number from 0 on or none.
pub fn one_and_perhaps<'r>(
    request: &'r Request<'_>,
) -> Result<(Word<'r>, Option<u64>), ReadingFault>
    requires { 0 < length request.now }
    ensures { Tells (one_and_amount (drop 1 request.now)) result }
{
    match request.len() {
        2 => Ok((plain(request, 1), None)),
        3 => {
            let n = amount(request, 2)?;
            Ok((plain(request, 1), Some(n)))
        }
        _ => Err(WRONG_NUMBER),
    }
}

/// A word, and one word or more behind it.
pub fn one_and_words<'r>(
    alloc: Global,
    request: &'r Request<'_>,
) -> Result<(Word<'r>, WordList<'r>), ReadingFault>
    requires { 0 < length request.now }
    ensures { Gathers (one_and_some request.now) result }
{
    if request.len() < 3 {
        return Err(WRONG_NUMBER);
    }
    let mut list = WordList::new(alloc);
    for index in 2..request.len() {
        if list.push(plain(request, index)).is_err() {
            return Err(ReadingFault::Memory);
        }
    }
    Ok((plain(request, 1), list))
}

/// Just a word, a time above 0 and a word.
pub fn one_span_one<'r>(request: &'r Request<'_>) -> Result<(Word<'r>, i64, Word<'r>), ReadingFault>
    requires { 0 < length request.now }
    ensures { TellsAs (λ a. (a.0, (a.1, (a.2, tt)))) (just (Plain ∷ Span ∷ Plain ∷ []) request.now) result }
{
    if request.len() != 4 {
        return Err(WRONG_NUMBER);
    }
    let n = span(request, 2)?;
    Ok((plain(request, 1), n, plain(request, 3)))
}

/// Just a word and a database.
pub fn one_and_database<'r>(request: &'r Request<'_>) -> Result<(Word<'r>, usize), ReadingFault>
    requires { 0 < length request.now }
    ensures { TellsAs (λ a. (a.0, (a.1, tt))) (just (Plain ∷ Database ∷ []) request.now) result }
{
    if request.len() != 3 {
        return Err(WRONG_NUMBER);
    }
    let db = database(request, 2)?;
    Ok((plain(request, 1), db))
}

/// One word or more.
pub fn words<'r>(alloc: Global, request: &'r Request<'_>) -> Result<WordList<'r>, ReadingFault>
    requires { 0 < length request.now }
    ensures { Gathers (some_words request.now) result }
{
    if request.len() < 2 {
        return Err(WRONG_NUMBER);
    }
    let mut list = WordList::new(alloc);
    for index in 1..request.len() {
        if list.push(plain(request, index)).is_err() {
            return Err(ReadingFault::Memory);
        }
    }
    Ok(list)
}

/// One pair of words or more.
pub fn pairs<'r>(alloc: Global, request: &'r Request<'_>) -> Result<PairList<'r>, ReadingFault>
    requires { 0 < length request.now }
    ensures { Gathers (some_pairs request.now) result }
{
    if request.len() < 2 || request.len() % 2 == 0 {
        return Err(WRONG_NUMBER);
    }
    let mut list = PairList::new(alloc);
    let count = request.len() / 2;
    for index in 0..count {
        let first = plain(request, 2 * index + 1);
        let second = plain(request, 2 * index + 2);
        if list.push(first, second).is_err() {
            return Err(ReadingFault::Memory);
        }
    }
    Ok(list)
}

/// A word, and options behind it.
pub fn one_and_options<'r, O: Options<'r>>(
    request: &'r Request<'_>,
    none: O,
) -> Result<(Word<'r>, O), ReadingFault>
    requires { 0 < length request.now }
    ensures { TellsAs (λ a. ((a.0, tt), a.1)) (and_options (Plain ∷ []) O.named none request.now) result }
{
    if request.len() < 2 {
        return Err(WRONG_NUMBER);
    }
    let options = read_options(request, none, 2)?;
    Ok((plain(request, 1), options))
}

/// Two words, and options behind them.
pub fn two_and_options<'r, O: Options<'r>>(
    request: &'r Request<'_>,
    none: O,
) -> Result<(Word<'r>, Word<'r>, O), ReadingFault>
    requires { 0 < length request.now }
    ensures { TellsAs (λ a. ((a.0, (a.1, tt)), a.2)) (and_options (Plain ∷ Plain ∷ []) O.named none request.now) result }
{
    if request.len() < 3 {
        return Err(WRONG_NUMBER);
    }
    let options = read_options(request, none, 3)?;
    Ok((plain(request, 1), plain(request, 2), options))
}

/// Just a word, a score and a word.
pub fn one_score_one<'r>(
    request: &'r Request<'_>,
) -> Result<(Word<'r>, i64, Word<'r>), ReadingFault>
    requires { 0 < length request.now }
    ensures { TellsAs (λ a. (a.0, (a.1, (a.2, tt)))) (just (Plain ∷ Score ∷ Plain ∷ []) request.now) result }
{
    if request.len() != 4 {
        return Err(WRONG_NUMBER);
    }
    let n = score(request, 2)?;
    Ok((plain(request, 1), n, plain(request, 3)))
}

/// Just a word and two ends of a range of scores.
pub fn one_and_bounds<'r>(
    request: &'r Request<'_>,
) -> Result<(Word<'r>, ScoreBound, ScoreBound), ReadingFault>
    requires { 0 < length request.now }
    ensures { TellsAs (λ a. (a.0, (a.1, (a.2, tt)))) (just (Plain ∷ Bound ∷ Bound ∷ []) request.now) result }
{
    if request.len() != 4 {
        return Err(WRONG_NUMBER);
    }
    let a = bound(request, 2)?;
    let b = bound(request, 3)?;
    Ok((plain(request, 1), a, b))
}

/// A word and two numbers, and options behind them.
pub fn numbers_and_options<'r, O: Options<'r>>(
    request: &'r Request<'_>,
    none: O,
) -> Result<(Word<'r>, i64, i64, O), ReadingFault>
    requires { 0 < length request.now }
    ensures { TellsAs (λ a. ((a.0, (a.1, (a.2, tt))), a.3)) (and_options (Plain ∷ Whole ∷ Whole ∷ []) O.named none request.now) result }
{
    if request.len() < 4 {
        return Err(WRONG_NUMBER);
    }
    let a = number(request, 2)?;
    let b = number(request, 3)?;
    let options = read_options(request, none, 4)?;
    Ok((plain(request, 1), a, b, options))
}

/// A word and two ends of a range of scores, and options behind them.
pub fn bounds_and_options<'r, O: Options<'r>>(
    request: &'r Request<'_>,
    none: O,
) -> Result<(Word<'r>, ScoreBound, ScoreBound, O), ReadingFault>
    requires { 0 < length request.now }
    ensures { TellsAs (λ a. ((a.0, (a.1, (a.2, tt))), a.3)) (and_options (Plain ∷ Bound ∷ Bound ∷ []) O.named none request.now) result }
{
    if request.len() < 4 {
        return Err(WRONG_NUMBER);
    }
    let a = bound(request, 2)?;
    let b = bound(request, 3)?;
    let options = read_options(request, none, 4)?;
    Ok((plain(request, 1), a, b, options))
}
