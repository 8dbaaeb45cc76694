//! The words of SRANDMEMBER, HRANDFIELD and ZRANDMEMBER: a key, and how many of its elements are picked.

ghost use Rattle.std.specs.Prelude.{◌<◌, [], ◌∷◌, length, drop, codes};
ghost use Rattle.plain_model.specs.Shapes.{Plain, Picks};
ghost use Rattle.command_words.specs.Readings.{Tells, TellsAs, and_options, flag, one_and_picks, one_and_picked};

use crate::ReadingFault;
use crate::kinds::WRONG_NUMBER;
use crate::options::{Options, read_options};
use crate::words::{is_word, picks, plain};
use plain_model::{Refusal, Word};
use resp_frames::Request;
use std::marker::Model;

/// Whether each field is followed by its value.
#[derive(Drop)]
pub struct WithValues(pub bool);

impl Model for WithValues {
    ghost use Rattle.std.specs.Prelude.{Bool};

    ghost Value = { Bool };

    ghost view = { λ o. o.0 };
}

impl<'r> Options<'r> for WithValues {
    ghost named = { flag (codes "withvalues") };

    fn with_option(
        self,
        request: &'r Request<'_>,
        index: usize,
    ) -> Result<(WithValues, usize), ReadingFault> {
        if is_word(request.word(index), b"withvalues") {
            return Ok((WithValues(true), 0));
        }
        Err(ReadingFault::Refused(Refusal::Syntax))
    }
}

/// Whether each member is followed by its score.
#[derive(Drop)]
pub struct WithScores(pub bool);

impl Model for WithScores {
    ghost use Rattle.std.specs.Prelude.{Bool};

    ghost Value = { Bool };

    ghost view = { λ o. o.0 };
}

impl<'r> Options<'r> for WithScores {
    ghost named = { flag (codes "withscores") };

    fn with_option(
        self,
        request: &'r Request<'_>,
        index: usize,
    ) -> Result<(WithScores, usize), ReadingFault> {
        if is_word(request.word(index), b"withscores") {
            return Ok((WithScores(true), 0));
        }
        Err(ReadingFault::Refused(Refusal::Syntax))
    }
}

/// A word, and a number of picks or none.
pub fn one_and_picks<'r>(request: &'r Request<'_>) -> Result<(Word<'r>, Option<i64>), ReadingFault>
    requires { 0 < length request.now }
    ensures { Tells (one_and_picks (drop 1 request.now)) result }
{
    match request.len() {
        2 => Ok((plain(request, 1), None)),
        3 => {
            let n = picks(request, 2)?;
            Ok((plain(request, 1), Some(n)))
        }
        _ => Err(WRONG_NUMBER),
    }
}

// A word and a number of picks, and options behind them.
fn picks_and_options<'r, O: Options<'r>>(
    request: &'r Request<'_>,
    none: O,
) -> Result<(Word<'r>, i64, O), ReadingFault>
    requires { 0 < length request.now }
    ensures { TellsAs (λ a. ((a.0, (a.1, tt)), a.2)) (and_options (Plain ∷ Picks ∷ []) O.named none request.now) result }
{
    if request.len() < 3 {
        return Err(WRONG_NUMBER);
    }
    let n = picks(request, 2)?;
    let options = read_options(request, none, 3)?;
    Ok((plain(request, 1), n, options))
}

/// A word, and a number of picks with options behind it, or none.
pub fn one_and_picked<'r, O: Options<'r>>(
    request: &'r Request<'_>,
    none: O,
) -> Result<(Word<'r>, Option<i64>, O), ReadingFault>
    requires { 0 < length request.now }
    ensures { Tells (one_and_picked O.named none (drop 1 request.now)) result }
{
    if request.len() == 2 {
        return Ok((plain(request, 1), None, none));
    }
    let (key, n, options) = picks_and_options(request, none)?;
    Ok((key, Some(n), options))
}
