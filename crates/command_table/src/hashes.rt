//! The words of commands on hashes.

ghost use Rattle.std.specs.Prelude.{◌<◌, ◌∷◌, length, drop};
ghost use Rattle.plain_model.specs.KeyWords.{page_words};
ghost use Rattle.plain_model.specs.HashWords.{hash_rows};
ghost use Rattle.plain_model.specs.declared.command.Command.TheVariants as commands;
ghost use Rattle.plain_model.specs.declared.hash_command.HashCommand.TheVariants as hash_commands;
ghost use Rattle.command_words.specs.Readings.{ReadsAs, Tells};
ghost use Rattle.command_table.specs.Rows.{by_own, hash_name};

use crate::making::{of_three, of_two};
use crate::table::HashName;
use command_words::ReadingFault;
use command_words::kinds::{one, one_and_pairs, one_and_words, three, two, two_and_number};
use command_words::pages::page;
use command_words::picks::{WithValues, one_and_picked};
use plain_model::HashCommand;
use resp_frames::Request;
use std::alloc::Global;

// HSCAN: a key, a cursor and options.
fn scan<'r>(request: &'r Request<'_>) -> Result<HashCommand<'r>, ReadingFault>
    requires { 0 < length request.now }
    ensures { Tells (page_words hash_commands.HScan (drop 1 request.now)) result }
{
    let (key, from, options) = page(request)?;
    Ok(HashCommand::HScan(key, from, options))
}

/// Turns the words behind the name of a command on hashes into it.
#[tactic(auto, using(crate::proofs::Arms::fixed_made, crate::proofs::Arms::keyed_made))]
pub fn read_hash<'r>(
    alloc: Global,
    name: HashName,
    request: &'r Request<'_>,
) -> Result<HashCommand<'r>, ReadingFault>
    requires { 0 < length request.now }
    ensures { ReadsAs commands.Hashes (by_own commands.Hashes hash_rows (hash_name name) (drop 1 request.now)) result }
{
    match name {
        HashName::HSet => of_two(one_and_pairs(alloc, request), HashCommand::HSet),
        HashName::HMSet => of_two(one_and_pairs(alloc, request), HashCommand::HMSet),
        HashName::HSetNx => of_three(three(request), HashCommand::HSetNx),
        HashName::HGet => of_two(two(request), HashCommand::HGet),
        HashName::HMGet => of_two(one_and_words(alloc, request), HashCommand::HMGet),
        HashName::HDel => of_two(one_and_words(alloc, request), HashCommand::HDel),
        HashName::HExists => of_two(two(request), HashCommand::HExists),
        HashName::HLen => one(request).map(HashCommand::HLen),
        HashName::HStrLen => of_two(two(request), HashCommand::HStrLen),
        HashName::HKeys => one(request).map(HashCommand::HKeys),
        HashName::HVals => one(request).map(HashCommand::HVals),
        HashName::HGetAll => one(request).map(HashCommand::HGetAll),
        HashName::HIncrBy => of_three(two_and_number(request), HashCommand::HIncrBy),
        HashName::HRandField => one_and_picked(request, WithValues(false)).map(|(
            key,
            n,
            with_values,
        )| HashCommand::HRandField(key, n, with_values.0)),
        HashName::HScan => scan(request),
    }
}
