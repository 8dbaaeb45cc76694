//! The options of ZADD, of ZRANGE and its like, and of ZRANK.

ghost use Rattle.std.specs.Prelude.{◌≡◌, ◌<◌, ◌+◌, [], ◌∷◌, length, drop};
ghost use Rattle.plain_model.specs.ZsetWords.{add_options, no_add_options, range_options, no_range_options, with_scores_option, limit_option, clash};
ghost use Rattle.command_words.specs.Readings.{Tells, own_limit, rank_options};

use crate::ReadingFault;
use crate::options::Options;
use crate::words::{is_word, number};
use plain_model::{AddOptions, Limit, RangeOptions, Refusal, ScoreRules};
use resp_frames::Request;
use std::marker::Model;

// The two numbers of LIMIT at a place.
fn own_limit(request: &Request<'_>, index: usize) -> Result<Limit, ReadingFault>
    requires { index < length request.now }
    ensures { Tells (own_limit (drop (index + 1) request.now)) result }
{
    if request.len() - index < 3 {
        return Err(ReadingFault::Refused(Refusal::Syntax));
    }
    let offset = number(request, index + 1)?;
    let count = number(request, index + 2)?;
    Ok(Limit { offset, count })
}

impl<'r> Options<'r> for AddOptions {
    ghost named = { add_options };

    fn with_option(
        self,
        request: &'r Request<'_>,
        index: usize,
    ) -> Result<(AddOptions, usize), ReadingFault> {
        let word = request.word(index);
        let rules = self.rules;
        if is_word(word, b"nx") {
            let rules = ScoreRules { nx: true, ..rules };
            return Ok((AddOptions { rules, ..self }, 0));
        }
        if is_word(word, b"xx") {
            let rules = ScoreRules { xx: true, ..rules };
            return Ok((AddOptions { rules, ..self }, 0));
        }
        if is_word(word, b"gt") {
            let rules = ScoreRules { gt: true, ..rules };
            return Ok((AddOptions { rules, ..self }, 0));
        }
        if is_word(word, b"lt") {
            let rules = ScoreRules { lt: true, ..rules };
            return Ok((AddOptions { rules, ..self }, 0));
        }
        if is_word(word, b"ch") {
            return Ok((AddOptions { ch: true, ..self }, 0));
        }
        if is_word(word, b"incr") {
            return Ok((AddOptions { incr: true, ..self }, 0));
        }
        Err(ReadingFault::Refused(Refusal::Syntax))
    }
}

impl<'r> Options<'r> for RangeOptions {
    ghost named = { range_options };

    fn with_option(
        self,
        request: &'r Request<'_>,
        index: usize,
    ) -> Result<(RangeOptions, usize), ReadingFault> {
        let word = request.word(index);
        if is_word(word, b"byscore") {
            return Ok((
                RangeOptions {
                    by_score: true,
                    ..self
                },
                0,
            ));
        }
        if is_word(word, b"rev") {
            return Ok((RangeOptions { rev: true, ..self }, 0));
        }
        if is_word(word, b"limit") {
            let limit = Some(own_limit(request, index)?);
            return Ok((RangeOptions { limit, ..self }, 2));
        }
        if is_word(word, b"withscores") {
            return Ok((
                RangeOptions {
                    with_scores: true,
                    ..self
                },
                0,
            ));
        }
        Err(ReadingFault::Refused(Refusal::Syntax))
    }
}

/// The options of a range of scores: those of ZRANGE that ZRANGEBYSCORE has too.
#[derive(Drop)]
pub struct OfScores(pub RangeOptions);

impl Model for OfScores {
    ghost use Rattle.plain_model.specs.declared.zset_command.RangeOptions.{RangeOptions};

    ghost Value = { RangeOptions };

    ghost view = { λ o. o.0 };
}

impl<'r> Options<'r> for OfScores {
    ghost named = { with_scores_option ∷ limit_option ∷ [] };

    fn with_option(
        self,
        request: &'r Request<'_>,
        index: usize,
    ) -> Result<(OfScores, usize), ReadingFault> {
        let word = request.word(index);
        if is_word(word, b"withscores") {
            return Ok((
                OfScores(RangeOptions {
                    with_scores: true,
                    ..self.0
                }),
                0,
            ));
        }
        if is_word(word, b"limit") {
            let limit = Some(own_limit(request, index)?);
            return Ok((OfScores(RangeOptions { limit, ..self.0 }), 2));
        }
        Err(ReadingFault::Refused(Refusal::Syntax))
    }
}

/// The options of a range of ranks: those of ZRANGE that ZREVRANGE has too.
#[derive(Drop)]
pub struct OfRanks(pub RangeOptions);

impl Model for OfRanks {
    ghost use Rattle.plain_model.specs.declared.zset_command.RangeOptions.{RangeOptions};

    ghost Value = { RangeOptions };

    ghost view = { λ o. o.0 };
}

impl<'r> Options<'r> for OfRanks {
    ghost named = { with_scores_option ∷ [] };

    fn with_option(
        self,
        request: &'r Request<'_>,
        index: usize,
    ) -> Result<(OfRanks, usize), ReadingFault> {
        if is_word(request.word(index), b"withscores") {
            return Ok((
                OfRanks(RangeOptions {
                    with_scores: true,
                    ..self.0
                }),
                0,
            ));
        }
        Err(ReadingFault::Refused(Refusal::Syntax))
    }
}

impl<'r> Options<'r> for bool {
    ghost named = { rank_options };

    fn with_option(
        self,
        request: &'r Request<'_>,
        index: usize,
    ) -> Result<(bool, usize), ReadingFault> {
        if is_word(request.word(index), b"withscore") {
            return Ok((true, 0));
        }
        Err(ReadingFault::Refused(Refusal::Syntax))
    }
}

/// None of the options of ZADD.
pub fn no_add_options() -> AddOptions
    ensures { result ≡ no_add_options }
{
    AddOptions {
        rules: ScoreRules {
            nx: false,
            xx: false,
            gt: false,
            lt: false,
        },
        ch: false,
        incr: false,
    }
}

/// None of the options of ZRANGE and its like.
pub fn no_range_options() -> RangeOptions
    ensures { result ≡ no_range_options }
{
    RangeOptions {
        by_score: false,
        rev: false,
        limit: None,
        with_scores: false,
    }
}

/// Whether rules of ZADD forbid each other.
pub fn clash(rules: ScoreRules) -> bool
    ensures { result ≡ clash rules }
{
    rules.nx && (rules.xx || rules.gt || rules.lt) || rules.gt && rules.lt
}
