//! The words of commands on strings.

ghost use Rattle.std.specs.Prelude.{◌≡◌, ◌<◌, [], ◌∷◌, length, drop, ◌==◌, ◌||◌, ◌+◌, nat_le};
ghost use Rattle.plain_model.specs.Shapes.{Plain, Whole, Offset, fixed, with_options};
ghost use Rattle.plain_model.specs.StringWords.{set_options, no_set_options, set_of, getex_options, no_getex_options, getex_of, set_range_of, decrease_of, string_rows};
ghost use Rattle.plain_world.specs.Words.{longest};
ghost use Rattle.plain_model.specs.declared.command.Command.TheVariants as commands;
ghost use Rattle.command_words.specs.Readings.{Tells, ReadsAs};
ghost use Rattle.command_table.specs.Rows.{by_own, string_name};

use crate::making::{of_three, of_two};
use crate::table::StringName;
use command_words::ReadingFault;
use command_words::kinds::{
    WRONG_NUMBER, one, one_and_number, one_and_numbers, one_and_options, one_span_one, pairs, two,
    two_and_options, words,
};
use command_words::times::{condition, no_getex_options, no_set_options};
use command_words::words::{offset, plain};
use plain_model::{LONGEST, Refusal, SetOptions, StringCommand};
use resp_frames::Request;
use std::alloc::Global;

// SET: a key, a value and options.
fn set<'r>(request: &'r Request<'_>) -> Result<StringCommand<'r>, ReadingFault>
    requires { 0 < length request.now }
    ensures { Tells (with_options (Plain ∷ Plain ∷ []) set_options no_set_options (λ a c. set_of a.0 a.1.0 c) (drop 1 request.now)) result }
{
    let (key, value, options) = two_and_options(request, no_set_options())?;
    if options.nx && options.xx || options.twice {
        return Err(ReadingFault::Refused(Refusal::Syntax));
    }
    Ok(StringCommand::Set(
        key,
        value,
        SetOptions {
            condition: condition(options),
            get: options.get,
            lifetime: options.lifetime,
        },
    ))
}

// GETEX: a key and options.
fn get_ex<'r>(request: &'r Request<'_>) -> Result<StringCommand<'r>, ReadingFault>
    requires { 0 < length request.now }
    ensures { Tells (with_options (Plain ∷ []) getex_options no_getex_options (λ a c. getex_of a.0 c) (drop 1 request.now)) result }
{
    let (key, options) = one_and_options(request, no_getex_options())?;
    if options.twice {
        return Err(ReadingFault::Refused(Refusal::Syntax));
    }
    Ok(StringCommand::GetEx(key, options.renewal))
}

// Whether a piece that is put at this place ends within the greatest length. An empty one puts nothing.
fn ends_within(at: u64, piece: &[u8]) -> bool
    ensures { result ≡ ((length piece.now == 0) || nat_le (at + length piece.now) longest) }
{
    piece.len() as u64 <= (LONGEST as u64).saturating_sub(at)
}

// SETRANGE: a key, a place and a piece.
fn set_range<'r>(request: &'r Request<'_>) -> Result<StringCommand<'r>, ReadingFault>
    requires { 0 < length request.now }
    ensures { Tells (fixed (Plain ∷ Offset ∷ Plain ∷ []) (λ a. set_range_of a.0 a.1.0 a.1.1.0) (drop 1 request.now)) result }
{
    if request.len() != 4 {
        return Err(WRONG_NUMBER);
    }
    let at = offset(request, 2)?;
    if !ends_within(at, request.word(3)) {
        return Err(ReadingFault::Refused(Refusal::ValueOutOfRange));
    }
    Ok(StringCommand::SetRange(plain(request, 1), at, plain(request, 3)))
}

// DECRBY: a key and a number that has an opposite one.
fn decrease<'r>(request: &'r Request<'_>) -> Result<StringCommand<'r>, ReadingFault>
    requires { 0 < length request.now }
    ensures { Tells (fixed (Plain ∷ Whole ∷ []) (λ a. decrease_of a.0 a.1.0) (drop 1 request.now)) result }
{
    let (key, n) = one_and_number(request)?;
    if n == i64::MIN {
        return Err(ReadingFault::Refused(Refusal::Overflow));
    }
    Ok(StringCommand::DecrBy(key, n))
}

/// Turns the words behind the name of a string command into it.
#[tactic(auto, using(crate::proofs::Arms::fixed_made, crate::proofs::Arms::gathered, command_words::proofs::Lifted::lifted))]
pub fn read_string<'r>(
    alloc: Global,
    name: StringName,
    request: &'r Request<'_>,
) -> Result<StringCommand<'r>, ReadingFault>
    requires { 0 < length request.now }
    ensures { ReadsAs commands.Strings (by_own commands.Strings string_rows (string_name name) (drop 1 request.now)) result }
{
    match name {
        StringName::Get => one(request).map(StringCommand::Get),
        StringName::Set => set(request),
        StringName::SetNx => of_two(two(request), StringCommand::SetNx),
        StringName::SetEx => { of_three(one_span_one(request), StringCommand::SetEx) }
        StringName::PSetEx => { of_three(one_span_one(request), StringCommand::PSetEx) }
        StringName::GetSet => of_two(two(request), StringCommand::GetSet),
        StringName::GetDel => one(request).map(StringCommand::GetDel),
        StringName::GetEx => get_ex(request),
        StringName::MGet => words(alloc, request).map(StringCommand::MGet),
        StringName::MSet => pairs(alloc, request).map(StringCommand::MSet),
        StringName::MSetNx => pairs(alloc, request).map(StringCommand::MSetNx),
        StringName::Append => of_two(two(request), StringCommand::Append),
        StringName::StrLen => one(request).map(StringCommand::StrLen),
        StringName::GetRange => { of_three(one_and_numbers(request), StringCommand::GetRange) }
        StringName::SetRange => set_range(request),
        StringName::Incr => one(request).map(StringCommand::Incr),
        StringName::Decr => one(request).map(StringCommand::Decr),
        StringName::IncrBy => of_two(one_and_number(request), StringCommand::IncrBy),
        StringName::DecrBy => decrease(request),
    }
}
