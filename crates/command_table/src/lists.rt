//! The words of commands on lists.

ghost use Rattle.std.specs.Prelude.{◌<◌, ◌∷◌, length, drop};
ghost use Rattle.plain_model.specs.ListWords.{list_rows};
ghost use Rattle.plain_model.specs.declared.command.Command.TheVariants as commands;
ghost use Rattle.command_words.specs.Readings.{ReadsAs};
ghost use Rattle.command_table.specs.Rows.{by_own, list_name};

use crate::making::{of_four, of_three, of_two};
use crate::table::ListName;
use command_words::ReadingFault;
use command_words::kinds::{
    one, one_and_number, one_and_numbers, one_and_perhaps, one_and_words, one_number_one,
    one_side_two, two, two_and_ends, two_and_options,
};
use command_words::list_options::no_position_options;
use plain_model::ListCommand;
use resp_frames::Request;
use std::alloc::Global;

/// Turns the words behind the name of a command on lists into it.
#[tactic(auto, using(crate::proofs::Arms::fixed_made, crate::proofs::Arms::keyed_made, crate::proofs::Arms::popped_made))]
pub fn read_list<'r>(
    alloc: Global,
    name: ListName,
    request: &'r Request<'_>,
) -> Result<ListCommand<'r>, ReadingFault>
    requires { 0 < length request.now }
    ensures { ReadsAs commands.Lists (by_own commands.Lists list_rows (list_name name) (drop 1 request.now)) result }
{
    match name {
        ListName::LPush => of_two(one_and_words(alloc, request), ListCommand::LPush),
        ListName::RPush => of_two(one_and_words(alloc, request), ListCommand::RPush),
        ListName::LPushX => of_two(one_and_words(alloc, request), ListCommand::LPushX),
        ListName::RPushX => of_two(one_and_words(alloc, request), ListCommand::RPushX),
        ListName::LPop => of_two(one_and_perhaps(request), ListCommand::LPop),
        ListName::RPop => of_two(one_and_perhaps(request), ListCommand::RPop),
        ListName::LLen => one(request).map(ListCommand::LLen),
        ListName::LIndex => of_two(one_and_number(request), ListCommand::LIndex),
        ListName::LSet => of_three(one_number_one(request), ListCommand::LSet),
        ListName::LRange => of_three(one_and_numbers(request), ListCommand::LRange),
        ListName::LTrim => of_three(one_and_numbers(request), ListCommand::LTrim),
        ListName::LInsert => of_four(one_side_two(request), ListCommand::LInsert),
        ListName::LRem => of_three(one_number_one(request), ListCommand::LRem),
        ListName::LPos => of_three(
            two_and_options(request, no_position_options()),
            ListCommand::LPos,
        ),
        ListName::LMove => of_four(two_and_ends(request), ListCommand::LMove),
        ListName::RPopLPush => of_two(two(request), ListCommand::RPopLPush),
    }
}
