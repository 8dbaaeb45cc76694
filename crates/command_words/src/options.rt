//! Options behind a command's first words, read one by one.

ghost use Rattle.std.specs.Prelude.{◌≡◌, ◌<◌, ◌≤◌, ◌+◌, List, length, drop};
ghost use Rattle.plain_world.specs.Words.{in_lower_case};
ghost use Rattle.plain_model.specs.Shapes.{Plain, Span, Database, Count, Amount, Rank, NamedOption, option_of, read_option, options_read};
ghost use Rattle.command_words.specs.Readings.{Tells, word_at, own_word};

use crate::ReadingFault;
use crate::words::{amount, count, database, plain, rank, span};
use plain_model::{Refusal, Word};
use resp_frames::Request;

/// What the options of a command say, so far as they are read.
pub trait Options<'r>: Drop {
    /// The options.
    ghost named: { List (NamedOption Self) };

    /// Reads the option at a place: what they say with it, and how many words behind it are its own.
    fn with_option(
        self,
        request: &'r Request<'_>,
        index: usize,
    ) -> Result<(Self, usize), ReadingFault>
        requires { index < length request.now }
        ensures { Tells (read_option self (option_of named (in_lower_case (word_at request.now index))) (drop (index + 1) request.now)) result };
}

/// Reads the options from a place on.
pub fn read_options<'r, O: Options<'r>>(
    request: &'r Request<'_>,
    none: O,
    from: usize,
) -> Result<O, ReadingFault>
    requires { from ≤ length request.now }
    ensures { Tells (options_read O.named none 0 (drop from request.now)) result }
{
    let mut options = none;
    let mut index = from;
    while index < request.len() {
        let (next, own) = options.with_option(request, index)?;
        options = next;
        index = index + 1 + own;
    }
    Ok(options)
}

/// The one word of the option at a place, which is a time above 0.
pub fn own_span(request: &Request<'_>, index: usize) -> Result<i64, ReadingFault>
    requires { index < length request.now }
    ensures { Tells (own_word Span (drop (index + 1) request.now)) result }
{
    if request.len() - index < 2 {
        return Err(ReadingFault::Refused(Refusal::Syntax));
    }
    span(request, index + 1)
}

/// The one word of the option at a place, which is a database.
pub fn own_database(request: &Request<'_>, index: usize) -> Result<usize, ReadingFault>
    requires { index < length request.now }
    ensures { Tells (own_word Database (drop (index + 1) request.now)) result }
{
    if request.len() - index < 2 {
        return Err(ReadingFault::Refused(Refusal::Syntax));
    }
    database(request, index + 1)
}

/// The one word of the option at a place, which is how many are to be met.
pub fn own_count(request: &Request<'_>, index: usize) -> Result<u64, ReadingFault>
    requires { index < length request.now }
    ensures { Tells (own_word Count (drop (index + 1) request.now)) result }
{
    if request.len() - index < 2 {
        return Err(ReadingFault::Refused(Refusal::Syntax));
    }
    count(request, index + 1)
}

/// The one word of the option at a place, which is how many are asked for.
pub fn own_amount(request: &Request<'_>, index: usize) -> Result<u64, ReadingFault>
    requires { index < length request.now }
    ensures { Tells (own_word Amount (drop (index + 1) request.now)) result }
{
    if request.len() - index < 2 {
        return Err(ReadingFault::Refused(Refusal::Syntax));
    }
    amount(request, index + 1)
}

/// The one word of the option at a place, which is the rank of a match.
pub fn own_rank(request: &Request<'_>, index: usize) -> Result<i64, ReadingFault>
    requires { index < length request.now }
    ensures { Tells (own_word Rank (drop (index + 1) request.now)) result }
{
    if request.len() - index < 2 {
        return Err(ReadingFault::Refused(Refusal::Syntax));
    }
    rank(request, index + 1)
}

/// The one word of the option at a place.
pub fn own_word<'r>(request: &'r Request<'_>, index: usize) -> Result<Word<'r>, ReadingFault>
    requires { index < length request.now }
    ensures { Tells (own_word Plain (drop (index + 1) request.now)) result }
{
    if request.len() - index < 2 {
        return Err(ReadingFault::Refused(Refusal::Syntax));
    }
    Ok(plain(request, index + 1))
}
