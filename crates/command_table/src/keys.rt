//! The words of commands on keys.

ghost use Rattle.std.specs.Prelude.{◌≡◌, ◌<◌, [], ◌∷◌, length, drop, Ok};
ghost use Rattle.plain_model.specs.Shapes.{Cursor, by_second, with_options};
ghost use Rattle.plain_model.specs.KeyWords.{scan_options, no_scan_options, object_rows, key_rows};
ghost use Rattle.plain_model.specs.declared.command.Command.TheVariants as commands;
ghost use Rattle.plain_model.specs.declared.keys.KeyCommand.{KeyCommand};
ghost use Rattle.command_words.specs.Readings.{Tells, TellsAs, ReadsAs, expire_parts};
ghost use Rattle.command_table.specs.Rows.{by_own, key_name};

use crate::making::{of_three, of_two};
use crate::table::KeyName;
use command_words::ReadingFault;
use command_words::key_options::{clash, no_copy_options, no_expire_options, no_scan_options};
use command_words::kinds::{
    WRONG_NUMBER, alone, one, one_and_database, two, two_and_options, words,
};
use command_words::options::read_options;
use command_words::words::{cursor, is_word, number, plain};
use plain_model::{ExpireOptions, KeyCommand, Refusal, Word};
use resp_frames::Request;
use std::alloc::Global;

// EXPIRE and its like: a key, a number and options, of which none forbids another.
fn expire<'r>(request: &'r Request<'_>) -> Result<(Word<'r>, i64, ExpireOptions), ReadingFault>
    requires { 0 < length request.now }
    ensures { TellsAs (λ a. ((a.0, (a.1, tt)), a.2)) (expire_parts request.now) result }
{
    if request.len() < 3 {
        return Err(WRONG_NUMBER);
    }
    let n = number(request, 2)?;
    let options = read_options(request, no_expire_options(), 3)?;
    if clash(options) {
        return Err(ReadingFault::Refused(Refusal::Syntax));
    }
    Ok((plain(request, 1), n, options))
}

// OBJECT: its second word, and a key.
fn object<'r>(request: &'r Request<'_>) -> Result<KeyCommand<'r>, ReadingFault>
    requires { 0 < length request.now }
    ensures { Tells (by_second 2 object_rows (drop 1 request.now)) result }
{
    if request.len() < 3 {
        return Err(WRONG_NUMBER);
    }
    if !is_word(request.word(1), b"encoding") {
        return Err(ReadingFault::Refused(Refusal::Syntax));
    }
    if request.len() != 3 {
        return Err(WRONG_NUMBER);
    }
    Ok(KeyCommand::ObjectEncoding(plain(request, 2)))
}

// SCAN: a cursor and options.
fn scan<'r>(request: &'r Request<'_>) -> Result<KeyCommand<'r>, ReadingFault>
    requires { 0 < length request.now }
    ensures { Tells (with_options (Cursor ∷ []) scan_options no_scan_options (λ a options. Ok (KeyCommand.Scan a.0 options)) (drop 1 request.now)) result }
{
    if request.len() < 2 {
        return Err(WRONG_NUMBER);
    }
    let from = cursor(request, 1)?;
    let options = read_options(request, no_scan_options(), 2)?;
    Ok(KeyCommand::Scan(from, options))
}

/// Turns the words behind the name of a command on keys into it.
#[tactic(auto, using(crate::proofs::Arms::fixed_made, crate::proofs::Arms::options_made, crate::proofs::Arms::gathered, command_words::proofs::Lifted::lifted))]
pub fn read_key<'r>(
    alloc: Global,
    name: KeyName,
    request: &'r Request<'_>,
) -> Result<KeyCommand<'r>, ReadingFault>
    requires { 0 < length request.now }
    ensures { ReadsAs commands.Keys (by_own commands.Keys key_rows (key_name name) (drop 1 request.now)) result }
{
    match name {
        KeyName::Del => words(alloc, request).map(KeyCommand::Del),
        KeyName::Unlink => words(alloc, request).map(KeyCommand::Unlink),
        KeyName::Exists => words(alloc, request).map(KeyCommand::Exists),
        KeyName::Touch => words(alloc, request).map(KeyCommand::Touch),
        KeyName::TypeOf => one(request).map(KeyCommand::TypeOf),
        KeyName::Expire => { of_three(expire(request), KeyCommand::Expire) }
        KeyName::PExpire => { of_three(expire(request), KeyCommand::PExpire) }
        KeyName::ExpireAt => { of_three(expire(request), KeyCommand::ExpireAt) }
        KeyName::PExpireAt => { of_three(expire(request), KeyCommand::PExpireAt) }
        KeyName::Ttl => one(request).map(KeyCommand::Ttl),
        KeyName::PTtl => one(request).map(KeyCommand::PTtl),
        KeyName::ExpireTime => one(request).map(KeyCommand::ExpireTime),
        KeyName::PExpireTime => one(request).map(KeyCommand::PExpireTime),
        KeyName::Persist => one(request).map(KeyCommand::Persist),
        KeyName::Rename => of_two(two(request), KeyCommand::Rename),
        KeyName::RenameNx => of_two(two(request), KeyCommand::RenameNx),
        KeyName::CopyKey => of_three(
            two_and_options(request, no_copy_options()),
            KeyCommand::Copy,
        ),
        KeyName::MoveKey => of_two(one_and_database(request), KeyCommand::MoveKey),
        KeyName::RandomKey => alone(request, KeyCommand::RandomKey),
        KeyName::Object => object(request),
        KeyName::KeysLike => one(request).map(KeyCommand::KeysLike),
        KeyName::Scan => scan(request),
    }
}
