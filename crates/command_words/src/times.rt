//! The options that give a deadline: those of SET and of GETEX.

ghost use Rattle.std.specs.Prelude.{◌≡◌, ◌<◌, ◌+◌, length, drop, if◌then◌else◌};
ghost use Rattle.plain_model.specs.Shapes.{Span};
ghost use Rattle.plain_model.specs.StringWords.{set_options, getex_options, no_set_options, no_getex_options, lasting, renewed};
ghost use Rattle.plain_model.specs.declared.command.Condition.{Condition};
ghost use Rattle.command_words.specs.Readings.{TellsAs, IsTimeOption, IsSetOption, IsGetExOption, own_time};

use crate::ReadingFault;
use crate::options::{Options, own_span};
use crate::words::is_word;
use plain_model::{
    Condition, GetExOptionsRead, Lifetime, Refusal, Renewal, SetOptionsRead, Time, TimeOrigin,
    TimeUnit,
};
use resp_frames::Request;

/// An option of SET.
#[derive(Clone, Copy)]
pub enum SetOption {
    Nx,
    Xx,
    Get,
    KeepTtl,
    Until(TimeUnit, TimeOrigin),
}

/// An option of GETEX.
#[derive(Clone, Copy)]
pub enum GetExOption {
    Persist,
    Until(TimeUnit, TimeOrigin),
}

// What the time of an option of this name is counted in, and from where on.
fn time_option(word: &[u8]) -> Option<(TimeUnit, TimeOrigin)>
    ensures { IsTimeOption word.now result }
{
    if is_word(word, b"ex") {
        return Some((TimeUnit::Seconds, TimeOrigin::Now));
    }
    if is_word(word, b"px") {
        return Some((TimeUnit::Milliseconds, TimeOrigin::Now));
    }
    if is_word(word, b"exat") {
        return Some((TimeUnit::Seconds, TimeOrigin::Epoch));
    }
    if is_word(word, b"pxat") {
        return Some((TimeUnit::Milliseconds, TimeOrigin::Epoch));
    }
    None
}

// The option of SET of this name.
fn set_option(word: &[u8]) -> Option<SetOption>
    ensures { IsSetOption word.now result }
{
    if is_word(word, b"nx") {
        return Some(SetOption::Nx);
    }
    if is_word(word, b"xx") {
        return Some(SetOption::Xx);
    }
    if is_word(word, b"get") {
        return Some(SetOption::Get);
    }
    if is_word(word, b"keepttl") {
        return Some(SetOption::KeepTtl);
    }
    match time_option(word) {
        Some((unit, from)) => Some(SetOption::Until(unit, from)),
        None => None,
    }
}

// The option of GETEX of this name.
fn getex_option(word: &[u8]) -> Option<GetExOption>
    ensures { IsGetExOption word.now result }
{
    if is_word(word, b"persist") {
        return Some(GetExOption::Persist);
    }
    match time_option(word) {
        Some((unit, from)) => Some(GetExOption::Until(unit, from)),
        None => None,
    }
}

// The time that is the own word of the option at a place.
fn time_behind(
    request: &Request<'_>,
    index: usize,
    unit: TimeUnit,
    from: TimeOrigin,
) -> Result<Time, ReadingFault>
    requires { index < length request.now }
    ensures { TellsAs (λ time. time) (own_time unit from (drop (index + 1) request.now)) result }
{
    let n = own_span(request, index)?;
    Ok(Time { unit, from, n })
}

// One more option gives a lifetime.
fn lasting(options: SetOptionsRead, lifetime: Lifetime) -> SetOptionsRead
    ensures { result ≡ lasting lifetime options }
{
    SetOptionsRead {
        lifetime,
        twice: options.twice || !matches!(options.lifetime, Lifetime::Forever),
        ..options
    }
}

// One more option of GETEX stands.
fn renewed(options: GetExOptionsRead, renewal: Renewal) -> GetExOptionsRead
    ensures { result ≡ renewed renewal options }
{
    GetExOptionsRead {
        renewal,
        twice: options.twice || !matches!(options.renewal, Renewal::Unchanged),
    }
}

impl<'r> Options<'r> for SetOptionsRead {
    ghost named = { set_options };

    fn with_option(
        self,
        request: &'r Request<'_>,
        index: usize,
    ) -> Result<(SetOptionsRead, usize), ReadingFault> {
        match set_option(request.word(index)) {
            Some(SetOption::Nx) => Ok((SetOptionsRead { nx: true, ..self }, 0)),
            Some(SetOption::Xx) => Ok((SetOptionsRead { xx: true, ..self }, 0)),
            Some(SetOption::Get) => Ok((SetOptionsRead { get: true, ..self }, 0)),
            Some(SetOption::KeepTtl) => Ok((lasting(self, Lifetime::Kept), 0)),
            Some(SetOption::Until(unit, from)) => {
                let time = time_behind(request, index, unit, from)?;
                Ok((lasting(self, Lifetime::Until(time)), 1))
            }
            None => Err(ReadingFault::Refused(Refusal::Syntax)),
        }
    }
}

impl<'r> Options<'r> for GetExOptionsRead {
    ghost named = { getex_options };

    fn with_option(
        self,
        request: &'r Request<'_>,
        index: usize,
    ) -> Result<(GetExOptionsRead, usize), ReadingFault> {
        match getex_option(request.word(index)) {
            Some(GetExOption::Persist) => Ok((renewed(self, Renewal::Persist), 0)),
            Some(GetExOption::Until(unit, from)) => {
                let time = time_behind(request, index, unit, from)?;
                Ok((renewed(self, Renewal::Until(time)), 1))
            }
            None => Err(ReadingFault::Refused(Refusal::Syntax)),
        }
    }
}

/// None of the options of SET.
pub fn no_set_options() -> SetOptionsRead
    ensures { result ≡ no_set_options }
{
    SetOptionsRead {
        nx: false,
        xx: false,
        get: false,
        lifetime: Lifetime::Forever,
        twice: false,
    }
}

/// None of the options of GETEX.
pub fn no_getex_options() -> GetExOptionsRead
    ensures { result ≡ no_getex_options }
{
    GetExOptionsRead {
        renewal: Renewal::Unchanged,
        twice: false,
    }
}

/// When SET writes.
pub fn condition(options: SetOptionsRead) -> Condition
    ensures { result ≡ (if options.nx then Condition.IfMissing else (if options.xx then Condition.IfThere else Condition.Always)) }
{
    if options.nx {
        return Condition::IfMissing;
    }
    if options.xx {
        return Condition::IfThere;
    }
    Condition::Always
}
