//! The options of LPOS.

ghost use Rattle.std.specs.Prelude.{◌≡◌};
ghost use Rattle.plain_model.specs.ListWords.{no_position_options, position_options};

use crate::ReadingFault;
use crate::options::{Options, own_amount, own_rank};
use crate::words::is_word;
use plain_model::{PositionOptions, Refusal};
use resp_frames::Request;

impl<'r> Options<'r> for PositionOptions {
    ghost named = { position_options };

    fn with_option(
        self,
        request: &'r Request<'_>,
        index: usize,
    ) -> Result<(PositionOptions, usize), ReadingFault> {
        let word = request.word(index);
        if is_word(word, b"rank") {
            let rank = own_rank(request, index)?;
            return Ok((PositionOptions { rank, ..self }, 1));
        }
        if is_word(word, b"count") {
            let count = Some(own_amount(request, index)?);
            return Ok((PositionOptions { count, ..self }, 1));
        }
        if is_word(word, b"maxlen") {
            let most = own_amount(request, index)?;
            return Ok((PositionOptions { most, ..self }, 1));
        }
        Err(ReadingFault::Refused(Refusal::Syntax))
    }
}

/// None of the options of LPOS: the first match among all elements.
pub fn no_position_options() -> PositionOptions
    ensures { result ≡ no_position_options }
{
    PositionOptions {
        rank: 1,
        count: None,
        most: 0,
    }
}
