//! The words of SSCAN, HSCAN and ZSCAN: a key, a cursor and options.

ghost use Rattle.std.specs.Prelude.{◌<◌, [], ◌∷◌, length};
ghost use Rattle.plain_model.specs.Shapes.{Plain, Cursor};
ghost use Rattle.plain_model.specs.KeyWords.{page_options, no_scan_options};
ghost use Rattle.command_words.specs.Readings.{TellsAs, and_options};

use crate::ReadingFault;
use crate::key_options::no_scan_options;
use crate::kinds::WRONG_NUMBER;
use crate::options::{Options, own_count, own_word, read_options};
use crate::words::{cursor, is_word, plain};
use plain_model::{Refusal, ScanOptions, Word};
use resp_frames::Request;
use std::marker::Model;

/// The options of SCAN that a page of one key has too.
#[derive(Drop)]
pub struct PageOptions<'r>(pub ScanOptions<'r>);

impl<'r> Model for PageOptions<'r> {
    ghost use Rattle.plain_model.specs.declared.keys.ScanOptions.{ScanOptions};

    ghost Value = { ScanOptions };

    ghost view = { λ o. o.0 };
}

impl<'r> Options<'r> for PageOptions<'r> {
    ghost named = { page_options };

    fn with_option(
        self,
        request: &'r Request<'_>,
        index: usize,
    ) -> Result<(PageOptions<'r>, usize), ReadingFault> {
        let word = request.word(index);
        if is_word(word, b"match") {
            let pattern = Some(own_word(request, index)?);
            return Ok((PageOptions(ScanOptions { pattern, ..self.0 }), 1));
        }
        if is_word(word, b"count") {
            let count = own_count(request, index)?;
            return Ok((PageOptions(ScanOptions { count, ..self.0 }), 1));
        }
        Err(ReadingFault::Refused(Refusal::Syntax))
    }
}

/// A key, a cursor, and options behind them.
pub fn page<'r>(request: &'r Request<'_>) -> Result<(Word<'r>, u64, ScanOptions<'r>), ReadingFault>
    requires { 0 < length request.now }
    ensures { TellsAs (λ a. ((a.0, (a.1, tt)), a.2)) (and_options (Plain ∷ Cursor ∷ []) page_options no_scan_options request.now) result }
{
    if request.len() < 3 {
        return Err(WRONG_NUMBER);
    }
    let from = cursor(request, 2)?;
    let options = read_options(request, PageOptions(no_scan_options()), 3)?;
    Ok((plain(request, 1), from, options.0))
}
