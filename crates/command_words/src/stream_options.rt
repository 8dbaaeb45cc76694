//! The options of XRANGE and XREVRANGE, and of XGROUP CREATE.

ghost use Rattle.std.specs.Prelude.{◌≡◌, ◌<◌, ◌+◌, ◌∷◌, [], length, drop};
ghost use Rattle.plain_model.specs.Shapes.{Whole};
ghost use Rattle.plain_model.specs.StreamWords.{at_most, count_option, create_options};
ghost use Rattle.command_words.specs.Readings.{Tells, own_word};

use crate::ReadingFault;
use crate::options::Options;
use crate::words::{is_word, number};
use plain_model::Refusal;
use resp_frames::Request;
use std::marker::Model;

const BROKEN: ReadingFault = ReadingFault::Refused(Refusal::Syntax);

/// What the options of XRANGE and XREVRANGE say: how many entries at most.
#[derive(Drop)]
pub struct AtMost(pub Option<u64>);

impl Model for AtMost {
    ghost use Rattle.std.specs.Prelude.{Option, ℕ};

    ghost Value = { Option ℕ };

    ghost view = { λ o. o.0 };
}

// How many entries a COUNT lets be told: none for a number below 0.
fn at_most(n: i64) -> Option<u64>
    ensures { result ≡ at_most n }
{
    match u64::try_from(n) {
        Ok(n) => Some(n),
        Err(_) => Some(0),
    }
}

// The one word of COUNT at a place.
fn own_count(request: &Request<'_>, index: usize) -> Result<i64, ReadingFault>
    requires { index < length request.now }
    ensures { Tells (own_word Whole (drop (index + 1) request.now)) result }
{
    if request.len() - index < 2 {
        return Err(BROKEN);
    }
    number(request, index + 1)
}

impl<'r> Options<'r> for AtMost {
    ghost named = { count_option at_most ∷ [] };

    fn with_option(
        self,
        request: &'r Request<'_>,
        index: usize,
    ) -> Result<(AtMost, usize), ReadingFault> {
        if is_word(request.word(index), b"count") {
            let n = own_count(request, index)?;
            return Ok((AtMost(at_most(n)), 1));
        }
        Err(BROKEN)
    }
}

/// What the option of XGROUP CREATE says: whether a missing stream is made.
#[derive(Drop)]
pub struct Makes(pub bool);

impl Model for Makes {
    ghost use Rattle.std.specs.Prelude.{Bool};

    ghost Value = { Bool };

    ghost view = { λ o. o.0 };
}

impl<'r> Options<'r> for Makes {
    ghost named = { create_options };

    fn with_option(
        self,
        request: &'r Request<'_>,
        index: usize,
    ) -> Result<(Makes, usize), ReadingFault> {
        if is_word(request.word(index), b"mkstream") {
            return Ok((Makes(true), 0));
        }
        Err(BROKEN)
    }
}
