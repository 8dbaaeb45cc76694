//! The options of EXPIRE and its like, of COPY, of SCAN, and of FLUSHDB and FLUSHALL.

ghost use Rattle.std.specs.Prelude.{◌≡◌};
ghost use Rattle.plain_model.specs.KeyWords.{expire_options, copy_options, scan_options, no_expire_options, no_copy_options, no_scan_options, clash};
ghost use Rattle.plain_model.specs.ConnectionWords.{flush_options};

use crate::ReadingFault;
use crate::options::{Options, own_count, own_database, own_word};
use crate::words::is_word;
use plain_model::{CopyOptions, ExpireOptions, Refusal, ScanOptions};
use resp_frames::Request;

impl<'r> Options<'r> for ExpireOptions {
    ghost named = { expire_options };

    fn with_option(
        self,
        request: &'r Request<'_>,
        index: usize,
    ) -> Result<(ExpireOptions, usize), ReadingFault> {
        let word = request.word(index);
        if is_word(word, b"nx") {
            return Ok((ExpireOptions { nx: true, ..self }, 0));
        }
        if is_word(word, b"xx") {
            return Ok((ExpireOptions { xx: true, ..self }, 0));
        }
        if is_word(word, b"gt") {
            return Ok((ExpireOptions { gt: true, ..self }, 0));
        }
        if is_word(word, b"lt") {
            return Ok((ExpireOptions { lt: true, ..self }, 0));
        }
        Err(ReadingFault::Refused(Refusal::Syntax))
    }
}

impl<'r> Options<'r> for CopyOptions {
    ghost named = { copy_options };

    fn with_option(
        self,
        request: &'r Request<'_>,
        index: usize,
    ) -> Result<(CopyOptions, usize), ReadingFault> {
        let word = request.word(index);
        if is_word(word, b"db") {
            let db = own_database(request, index)?;
            return Ok((
                CopyOptions {
                    db: Some(db),
                    ..self
                },
                1,
            ));
        }
        if is_word(word, b"replace") {
            return Ok((
                CopyOptions {
                    replace: true,
                    ..self
                },
                0,
            ));
        }
        Err(ReadingFault::Refused(Refusal::Syntax))
    }
}

impl<'r> Options<'r> for ScanOptions<'r> {
    ghost named = { scan_options };

    fn with_option(
        self,
        request: &'r Request<'_>,
        index: usize,
    ) -> Result<(ScanOptions<'r>, usize), ReadingFault> {
        let word = request.word(index);
        if is_word(word, b"match") {
            let pattern = Some(own_word(request, index)?);
            return Ok((ScanOptions { pattern, ..self }, 1));
        }
        if is_word(word, b"count") {
            let count = own_count(request, index)?;
            return Ok((ScanOptions { count, ..self }, 1));
        }
        if is_word(word, b"type") {
            let type_name = Some(own_word(request, index)?);
            return Ok((ScanOptions { type_name, ..self }, 1));
        }
        Err(ReadingFault::Refused(Refusal::Syntax))
    }
}

impl<'r> Options<'r> for () {
    ghost named = { flush_options };

    fn with_option(
        self,
        request: &'r Request<'_>,
        index: usize,
    ) -> Result<((), usize), ReadingFault> {
        let word = request.word(index);
        if is_word(word, b"async") || is_word(word, b"sync") {
            return Ok(((), 0));
        }
        Err(ReadingFault::Refused(Refusal::Syntax))
    }
}

/// None of the options of EXPIRE.
pub fn no_expire_options() -> ExpireOptions
    ensures { result ≡ no_expire_options }
{
    ExpireOptions {
        nx: false,
        xx: false,
        gt: false,
        lt: false,
    }
}

/// None of the options of COPY.
pub fn no_copy_options() -> CopyOptions
    ensures { result ≡ no_copy_options }
{
    CopyOptions {
        db: None,
        replace: false,
    }
}

/// None of the options of SCAN: ten keys are to be met.
pub fn no_scan_options<'r>() -> ScanOptions<'r>
    ensures { result ≡ no_scan_options }
{
    ScanOptions {
        pattern: None,
        count: 10,
        type_name: None,
    }
}

/// Whether options of EXPIRE forbid each other.
pub fn clash(options: ExpireOptions) -> bool
    ensures { result ≡ clash options }
{
    options.nx && (options.xx || options.gt || options.lt) || options.gt && options.lt
}
