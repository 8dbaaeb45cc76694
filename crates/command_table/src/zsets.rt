//! The words of commands on sorted sets.

ghost use Rattle.std.specs.Prelude.{◌≡◌, ◌<◌, ◌∷◌, length, drop};
ghost use Rattle.plain_model.specs.ZsetWords.{asks_scores, no_rules, range_words, score_range_of, zset_rows};
ghost use Rattle.plain_model.specs.KeyWords.{page_words};
ghost use Rattle.plain_model.specs.declared.command.Command.TheVariants as commands;
ghost use Rattle.plain_model.specs.declared.zset_command.ZsetCommand.TheVariants as zset_commands;
ghost use Rattle.command_words.specs.Readings.{ReadsAs, Tells};
ghost use Rattle.command_table.specs.Rows.{by_own, zset_name};

use crate::making::{of_three, of_two};
use crate::table::ZsetName;
use command_words::ReadingFault;
use command_words::joins::join_store;
use command_words::kinds::{
    bounds_and_options, numbers_and_options, one, one_and_bounds, one_and_numbers, one_and_perhaps,
    one_and_words, one_score_one, two, two_and_options,
};
use command_words::pages::page;
use command_words::picks::{WithScores, one_and_picked};
use command_words::words::is_word;
use command_words::zset_options::{OfRanks, OfScores, no_range_options};
use command_words::zset_scores::add;
use plain_model::{
    Direction, RangeOptions, Refusal, ScoreBound, ScoreJoin, ScoreRules, Word, ZsetCommand,
};
use resp_frames::Request;
use std::alloc::Global;

// Every score is written.
fn no_rules() -> ScoreRules
    ensures { result ≡ no_rules }
{
    ScoreRules {
        nx: false,
        xx: false,
        gt: false,
        lt: false,
    }
}

// Whether BYSCORE stands among the words from a place on.
fn asks_scores(request: &Request<'_>, from: usize) -> bool
    ensures { result ≡ asks_scores (drop from request.now) }
{
    for index in from..request.len() {
        if is_word(request.word(index), b"byscore") {
            return true;
        }
    }
    false
}

// A range of scores. From the highest score on the greater bound stands first.
fn score_range<'r>(
    key: Word<'r>,
    a: ScoreBound,
    b: ScoreBound,
    rev: bool,
    options: RangeOptions,
) -> ZsetCommand<'r>
    ensures { result ≡ score_range_of key.entry a b rev options }
{
    if rev {
        return ZsetCommand::ZRangeByScore(
            key,
            b,
            a,
            Direction::Falling,
            options.limit,
            options.with_scores,
        );
    }
    ZsetCommand::ZRangeByScore(
        key,
        a,
        b,
        Direction::Rising,
        options.limit,
        options.with_scores,
    )
}

// ZRANGE: two ranks, or two bounds where BYSCORE stands behind them, and options.
fn range<'r>(request: &'r Request<'_>) -> Result<ZsetCommand<'r>, ReadingFault>
    requires { 0 < length request.now }
    ensures { Tells (range_words (drop 1 request.now)) result }
{
    if asks_scores(request, 4) {
        let (key, a, b, options) = bounds_and_options(request, no_range_options())?;
        return Ok(score_range(key, a, b, options.rev, options));
    }
    let (key, a, b, options) = numbers_and_options(request, no_range_options())?;
    if options.limit.is_some() {
        return Err(ReadingFault::Refused(Refusal::Syntax));
    }
    let from = if options.rev {
        Direction::Falling
    } else {
        Direction::Rising
    };
    Ok(ZsetCommand::ZRange(key, a, b, from, options.with_scores))
}

// ZSCAN: a key, a cursor and options.
fn scan<'r>(request: &'r Request<'_>) -> Result<ZsetCommand<'r>, ReadingFault>
    requires { 0 < length request.now }
    ensures { Tells (page_words zset_commands.ZScan (drop 1 request.now)) result }
{
    let (key, from, options) = page(request)?;
    Ok(ZsetCommand::ZScan(key, from, options))
}

/// Turns the words behind the name of a command on sorted sets into it.
#[tactic(auto, using(crate::proofs::Arms::fixed_made, crate::proofs::Arms::keyed_made, crate::proofs::Arms::popped_made, command_words::proofs::Lifted::lifted))]
pub fn read_zset<'r>(
    alloc: Global,
    name: ZsetName,
    request: &'r Request<'_>,
) -> Result<ZsetCommand<'r>, ReadingFault>
    requires { 0 < length request.now }
    ensures { ReadsAs commands.Zsets (by_own commands.Zsets zset_rows (zset_name name) (drop 1 request.now)) result }
{
    match name {
        ZsetName::ZAdd => add(alloc, request),
        ZsetName::ZIncrBy => one_score_one(request).map(|(key, n, member)| ZsetCommand::ZIncr(
            key,
            no_rules(),
            n,
            member,
        )),
        ZsetName::ZRem => of_two(one_and_words(alloc, request), ZsetCommand::ZRem),
        ZsetName::ZScore => of_two(two(request), ZsetCommand::ZScore),
        ZsetName::ZMScore => of_two(one_and_words(alloc, request), ZsetCommand::ZMScore),
        ZsetName::ZCard => one(request).map(ZsetCommand::ZCard),
        ZsetName::ZCount => of_three(one_and_bounds(request), ZsetCommand::ZCount),
        ZsetName::ZRank => two_and_options(request, false).map(|(
            key,
            member,
            with_score,
        )| ZsetCommand::ZRank(key, member, Direction::Rising, with_score)),
        ZsetName::ZRevRank => two_and_options(request, false).map(|(
            key,
            member,
            with_score,
        )| ZsetCommand::ZRank(key, member, Direction::Falling, with_score)),
        ZsetName::ZRange => range(request),
        ZsetName::ZRevRange => numbers_and_options(request, OfRanks(no_range_options())).map(|(
            key,
            a,
            b,
            options,
        )| ZsetCommand::ZRange(key, a, b, Direction::Falling, options.0.with_scores)),
        ZsetName::ZRangeByScore => bounds_and_options(request, OfScores(no_range_options())).map(|(
            key,
            a,
            b,
            options,
        )| score_range(key, a, b, false, options.0)),
        ZsetName::ZRevRangeByScore => bounds_and_options(request, OfScores(no_range_options())).map(
            |(key, a, b, options)| score_range(key, a, b, true, options.0),
        ),
        ZsetName::ZRemRangeByRank => of_three(
            one_and_numbers(request),
            ZsetCommand::ZRemRangeByRank,
        ),
        ZsetName::ZRemRangeByScore => of_three(
            one_and_bounds(request),
            ZsetCommand::ZRemRangeByScore,
        ),
        ZsetName::ZPopMin => one_and_perhaps(request).map(|(key, n)| ZsetCommand::ZPop(
            key,
            Direction::Rising,
            n,
        )),
        ZsetName::ZPopMax => one_and_perhaps(request).map(|(key, n)| ZsetCommand::ZPop(
            key,
            Direction::Falling,
            n,
        )),
        ZsetName::ZRandMember => one_and_picked(request, WithScores(false)).map(|(
            key,
            n,
            with_scores,
        )| ZsetCommand::ZRandMember(key, n, with_scores.0)),
        ZsetName::ZUnionStore => join_store(alloc, ScoreJoin::Union, request),
        ZsetName::ZInterStore => join_store(alloc, ScoreJoin::Inter, request),
        ZsetName::ZScan => scan(request),
    }
}
