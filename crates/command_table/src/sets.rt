//! The words of commands on sets.

ghost use Rattle.std.specs.Prelude.{◌<◌, ◌∷◌, length, drop};
ghost use Rattle.plain_model.specs.KeyWords.{page_words};
ghost use Rattle.plain_model.specs.SetWords.{set_rows};
ghost use Rattle.plain_model.specs.declared.command.Command.TheVariants as commands;
ghost use Rattle.plain_model.specs.declared.set_command.SetCommand.TheVariants as set_commands;
ghost use Rattle.command_words.specs.Readings.{ReadsAs, Tells};
ghost use Rattle.command_table.specs.Rows.{by_own, set_name};

use crate::making::{of_three, of_two};
use crate::table::SetName;
use command_words::ReadingFault;
use command_words::joins::inter_card;
use command_words::kinds::{one, one_and_perhaps, one_and_words, three, two, words};
use command_words::pages::page;
use command_words::picks::one_and_picks;
use plain_model::{SetCommand, SetJoin};
use resp_frames::Request;
use std::alloc::Global;

// SSCAN: a key, a cursor and options.
fn scan<'r>(request: &'r Request<'_>) -> Result<SetCommand<'r>, ReadingFault>
    requires { 0 < length request.now }
    ensures { Tells (page_words set_commands.SScan (drop 1 request.now)) result }
{
    let (key, from, options) = page(request)?;
    Ok(SetCommand::SScan(key, from, options))
}

/// Turns the words behind the name of a command on sets into it.
#[tactic(auto, using(crate::proofs::Arms::fixed_made, crate::proofs::Arms::keyed_made))]
pub fn read_set<'r>(
    alloc: Global,
    name: SetName,
    request: &'r Request<'_>,
) -> Result<SetCommand<'r>, ReadingFault>
    requires { 0 < length request.now }
    ensures { ReadsAs commands.Sets (by_own commands.Sets set_rows (set_name name) (drop 1 request.now)) result }
{
    match name {
        SetName::SAdd => of_two(one_and_words(alloc, request), SetCommand::SAdd),
        SetName::SRem => of_two(one_and_words(alloc, request), SetCommand::SRem),
        SetName::SIsMember => of_two(two(request), SetCommand::SIsMember),
        SetName::SMIsMember => of_two(one_and_words(alloc, request), SetCommand::SMIsMember),
        SetName::SMembers => one(request).map(SetCommand::SMembers),
        SetName::SCard => one(request).map(SetCommand::SCard),
        SetName::SMove => of_three(three(request), SetCommand::SMove),
        SetName::SPop => of_two(one_and_perhaps(request), SetCommand::SPop),
        SetName::SRandMember => of_two(one_and_picks(request), SetCommand::SRandMember),
        SetName::SInter => words(alloc, request).map(|keys| SetCommand::SJoin(
            SetJoin::Inter,
            keys,
        )),
        SetName::SUnion => words(alloc, request).map(|keys| SetCommand::SJoin(
            SetJoin::Union,
            keys,
        )),
        SetName::SDiff => words(alloc, request).map(|keys| SetCommand::SJoin(SetJoin::Diff, keys)),
        SetName::SInterStore => one_and_words(alloc, request).map(|(
            to,
            keys,
        )| SetCommand::SJoinStore(SetJoin::Inter, to, keys)),
        SetName::SUnionStore => one_and_words(alloc, request).map(|(
            to,
            keys,
        )| SetCommand::SJoinStore(SetJoin::Union, to, keys)),
        SetName::SDiffStore => one_and_words(alloc, request).map(|(
            to,
            keys,
        )| SetCommand::SJoinStore(SetJoin::Diff, to, keys)),
        SetName::SInterCard => inter_card(alloc, request),
        SetName::SScan => scan(request),
    }
}
