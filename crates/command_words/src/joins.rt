//! The words of SINTERCARD, ZUNIONSTORE and ZINTERSTORE: how many keys there are, the keys, and options.

ghost use Rattle.std.specs.Prelude.{◌<◌, ◌≤◌, ◌+◌, length, take, drop, IfOk, Ok};
ghost use Rattle.plain_model.specs.SetWords.{limit_options, inter_card_words};
ghost use Rattle.plain_model.specs.ZsetWords.{join_words};
ghost use Rattle.command_words.specs.Readings.{Gathers, Passes, ReadsSet, ReadsZset, Tells};
ghost use Rattle.command_words.specs.Joins.{AreWeights, JoinSays, OptionSays, Within, all_join_options, join_option, key_count, own_weights, weighed_keys, weight_of};

use crate::ReadingFault;
use crate::kinds::WRONG_NUMBER;
use crate::options::{Options, own_amount, read_options};
use crate::words::{aggregate, is_word, keys, plain, score};
use plain_model::{Aggregate, Refusal, ScoreJoin, ScoreList, SetCommand, WordList, ZsetCommand};
use resp_frames::Request;
use std::alloc::Global;
use std::marker::Model;

const BROKEN: ReadingFault = ReadingFault::Refused(Refusal::Syntax);

/// How many members are counted at most, 0 for all.
#[derive(Drop)]
pub struct CardLimit(pub u64);

impl Model for CardLimit {
    ghost use Rattle.std.specs.Prelude.{ℕ};

    ghost Value = { ℕ };

    ghost view = { λ o. o.0 };
}

impl<'r> Options<'r> for CardLimit {
    ghost named = { limit_options };

    fn with_option(
        self,
        request: &'r Request<'_>,
        index: usize,
    ) -> Result<(CardLimit, usize), ReadingFault> {
        if is_word(request.word(index), b"limit") {
            let limit = own_amount(request, index)?;
            return Ok((CardLimit(limit), 1));
        }
        Err(ReadingFault::Refused(Refusal::Syntax))
    }
}

// How many keys stand behind the number at a place; that many words do.
fn key_count(request: &Request<'_>, index: usize) -> Result<usize, ReadingFault>
    requires { index < length request.now }
    ensures says { Tells (key_count request.now index) result }
    ensures within { IfOk result (λ count. index + 1 + count ≤ length request.now) }
{
    let count = keys(request, index)?;
    if count > request.len() - index - 1 {
        return Err(BROKEN);
    }
    Ok(count)
}

// So many words from a place on.
fn gather_words<'r>(
    alloc: Global,
    request: &'r Request<'_>,
    from: usize,
    count: usize,
) -> Result<WordList<'r>, ReadingFault>
    requires { from + count ≤ length request.now }
    ensures { Gathers (Ok (take count (drop from request.now))) result }
{
    prove!(request.len() > 0);
    let mut list = WordList::new(alloc);
    for index in 0..count {
        if list.push(plain(request, from + index)).is_err() {
            return Err(ReadingFault::Memory);
        }
    }
    Ok(list)
}

/// SINTERCARD: how many keys there are, the keys, and LIMIT.
pub fn inter_card<'r>(
    alloc: Global,
    request: &'r Request<'_>,
) -> Result<SetCommand<'r>, ReadingFault>
    requires { 0 < length request.now }
    ensures { ReadsSet (inter_card_words (drop 1 request.now)) result }
{
    if request.len() < 3 {
        return Err(WRONG_NUMBER);
    }
    let count = key_count(request, 1)?;
    let limit = read_options(request, CardLimit(0), 2 + count)?;
    let keys = gather_words(alloc, request, 2, count)?;
    Ok(SetCommand::SInterCard(keys, limit.0))
}

/// What the options of a join of sorted sets say.
#[derive(Clone, Copy)]
pub struct JoinOptions {
    /// The place of the first weight; without one each weight is 1.
    pub weights: Option<usize>,
    pub aggregate: Aggregate,
}

// Whether so many words from a place on are there and are scores.
fn check_weights(request: &Request<'_>, from: usize, count: usize) -> Result<(), ReadingFault>
    requires { from ≤ length request.now }
    ensures says { Passes (own_weights count (drop from request.now)) result }
    ensures within { IfOk result (λ done. from + count ≤ length request.now) }
{
    if request.len() - from < count {
        return Err(BROKEN);
    }
    for index in 0..count {
        score(request, from + index)?;
    }
    Ok(())
}

// Reads the option at a place: what they say with it, and how many words behind it are its own.
fn join_option(
    options: JoinOptions,
    request: &Request<'_>,
    index: usize,
    count: usize,
) -> Result<(JoinOptions, usize), ReadingFault>
    requires within { index < length request.now }
    requires weights { AreWeights request.now count options.weights }
    ensures says { OptionSays request.now count (join_option request.now count options index) result }
    ensures behind { IfOk result (λ read. index + 1 + read.1 ≤ length request.now) }
{
    prove!(request.len() > 0);
    let word = request.word(index);
    if is_word(word, b"weights") {
        check_weights(request, index + 1, count)?;
        let weights = Some(index + 1);
        return Ok((JoinOptions { weights, ..options }, count));
    }
    if is_word(word, b"aggregate") {
        if request.len() - index < 2 {
            return Err(BROKEN);
        }
        let aggregate = aggregate(request, index + 1)?;
        return Ok((
            JoinOptions {
                aggregate,
                ..options
            },
            1,
        ));
    }
    Err(BROKEN)
}

// The options from a place on, of a join of so many keys. Of weights only their place is kept.
fn join_options(
    request: &Request<'_>,
    from: usize,
    count: usize,
) -> Result<JoinOptions, ReadingFault>
    requires { from ≤ length request.now }
    ensures { JoinSays request.now count (all_join_options count (drop from request.now)) result }
{
    let mut options = JoinOptions {
        weights: None,
        aggregate: Aggregate::Sum,
    };
    let mut index = from;
    while index < request.len() {
        let (next, own) = join_option(options, request, index, count)?;
        options = next;
        index = index + 1 + own;
    }
    Ok(options)
}

// The weight of a key, by its place among the keys.
fn weight(request: &Request<'_>, weights: Option<usize>, index: usize) -> Result<i64, ReadingFault>
    requires { Within request.now weights index }
    ensures { Tells (weight_of request.now weights index) result }
{
    prove!(request.len() > 0);
    match weights {
        None => Ok(1),
        Some(place) => score(request, place + index),
    }
}

// The keys behind the third word with their weights.
fn gather_weighed<'r>(
    alloc: Global,
    request: &'r Request<'_>,
    count: usize,
    weights: Option<usize>,
) -> Result<ScoreList<'r>, ReadingFault>
    requires within { 3 + count ≤ length request.now }
    requires weights { AreWeights request.now count weights }
    ensures { Gathers (weighed_keys request.now count weights) result }
{
    prove!(request.len() > 0);
    let mut list = ScoreList::new(alloc);
    for index in 0..count {
        let own = weight(request, weights, index)?;
        if list.push(own, plain(request, 3 + index)).is_err() {
            return Err(ReadingFault::Memory);
        }
    }
    Ok(list)
}

/// ZUNIONSTORE and ZINTERSTORE: where the join is to stand, how many keys there are, the keys, and WEIGHTS and AGGREGATE.
pub fn join_store<'r>(
    alloc: Global,
    join: ScoreJoin,
    request: &'r Request<'_>,
) -> Result<ZsetCommand<'r>, ReadingFault>
    requires { 0 < length request.now }
    ensures { ReadsZset (join_words join (drop 1 request.now)) result }
{
    if request.len() < 4 {
        return Err(WRONG_NUMBER);
    }
    let count = key_count(request, 2)?;
    let options = join_options(request, 3 + count, count)?;
    let keys = gather_weighed(alloc, request, count, options.weights)?;
    Ok(ZsetCommand::ZJoinStore(join, plain(request, 1), keys, options.aggregate))
}
