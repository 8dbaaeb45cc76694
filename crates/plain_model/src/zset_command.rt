//! Commands on sorted sets.

use crate::{ScanOptions, ScoreList, Word, WordList};

/// The order in which members of a sorted set, or entries of a stream, are met.
#[derive(Clone, Copy, Debug)]
pub enum Direction {
    /// From the lowest score or id on.
    Rising,
    /// From the highest score or id on.
    Falling,
}

/// An end of a range of scores.
#[derive(Clone, Copy, Debug)]
pub enum ScoreBound {
    /// `-inf`: below all scores.
    Lowest,
    /// A score, which is in the range itself.
    Including(i64),
    /// `(` and a score, which isn't in the range.
    Excluding(i64),
    /// `inf` or `+inf`: above all scores.
    Highest,
}

/// Which scores ZADD writes.
#[derive(Clone, Copy, Debug)]
pub struct ScoreRules {
    /// `NX`: only those of members that aren't there.
    pub nx: bool,
    /// `XX`: only those of members that are there.
    pub xx: bool,
    /// `GT`: of a member that is there only a greater one.
    pub gt: bool,
    /// `LT`: of a member that is there only a lesser one.
    pub lt: bool,
}

/// What the options of ZADD say.
#[derive(Clone, Copy, Debug)]
pub struct AddOptions {
    pub rules: ScoreRules,
    /// `CH`: changed members are counted with the new ones.
    pub ch: bool,
    /// `INCR`: the score is added to that of its member.
    pub incr: bool,
}

/// Which part of the members that were found is told.
#[derive(Clone, Copy, Debug)]
pub struct Limit {
    /// How many are passed over; below 0 all.
    pub offset: i64,
    /// How many are told then; below 0 all.
    pub count: i64,
}

/// What the options of ZRANGE and its like say.
#[derive(Clone, Copy, Debug)]
pub struct RangeOptions {
    /// `BYSCORE`: the range is one of scores, not of ranks.
    pub by_score: bool,
    /// `REV`: members are met from the highest on.
    pub rev: bool,
    /// `LIMIT offset count`.
    pub limit: Option<Limit>,
    /// `WITHSCORES`: each member is followed by its score.
    pub with_scores: bool,
}

/// Whose members a join has.
#[derive(Clone, Copy, Debug)]
pub enum ScoreJoin {
    /// Those that all sources have.
    Inter,
    /// Those that any source has.
    Union,
}

/// What a join makes of the scores of a member.
#[derive(Clone, Copy, Debug)]
pub enum Aggregate {
    /// `SUM`
    Sum,
    /// `MIN`
    Min,
    /// `MAX`
    Max,
}

/// A command on sorted sets.
#[derive(Drop)]
pub enum ZsetCommand<'a> {
    /// `ZADD key [NX or XX] [GT or LT] [CH] score member..`
    ZAdd(Word<'a>, ScoreRules, bool, ScoreList<'a>),
    /// `ZADD key [NX or XX] [GT or LT] [CH] INCR score member`, and `ZINCRBY key score member`
    ZIncr(Word<'a>, ScoreRules, i64, Word<'a>),
    /// `ZREM key member..`
    ZRem(Word<'a>, WordList<'a>),
    /// `ZSCORE key member`
    ZScore(Word<'a>, Word<'a>),
    /// `ZMSCORE key member..`
    ZMScore(Word<'a>, WordList<'a>),
    /// `ZCARD key`
    ZCard(Word<'a>),
    /// `ZCOUNT key min max`
    ZCount(Word<'a>, ScoreBound, ScoreBound),
    /// `ZRANK key member [WITHSCORE]`, and ZREVRANK
    ZRank(Word<'a>, Word<'a>, Direction, bool),
    /// `ZRANGE key a b [REV] [WITHSCORES]`, and ZREVRANGE
    ZRange(Word<'a>, i64, i64, Direction, bool),
    /// `ZRANGEBYSCORE key min max [WITHSCORES] [LIMIT offset count]`, ZREVRANGEBYSCORE, and ZRANGE with BYSCORE
    ZRangeByScore(Word<'a>, ScoreBound, ScoreBound, Direction, Option<Limit>, bool),
    /// `ZREMRANGEBYRANK key a b`
    ZRemRangeByRank(Word<'a>, i64, i64),
    /// `ZREMRANGEBYSCORE key min max`
    ZRemRangeByScore(Word<'a>, ScoreBound, ScoreBound),
    /// `ZPOPMIN key [n]`, and ZPOPMAX
    ZPop(Word<'a>, Direction, Option<u64>),
    /// `ZRANDMEMBER key [n [WITHSCORES]]`
    ZRandMember(Word<'a>, Option<i64>, bool),
    /// `ZUNIONSTORE to n key.. [WEIGHTS score..] [AGGREGATE SUM, MIN or MAX]`, and ZINTERSTORE, with the weight of each key
    ZJoinStore(ScoreJoin, Word<'a>, ScoreList<'a>, Aggregate),
    /// `ZSCAN key cursor [MATCH pattern] [COUNT n]`
    ZScan(Word<'a>, u64, ScanOptions<'a>),
}
