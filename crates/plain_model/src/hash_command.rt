//! Commands on hashes.

use crate::{PairList, ScanOptions, Word, WordList};

/// A command on hashes.
#[derive(Drop)]
pub enum HashCommand<'a> {
    /// `HSET key field value..`
    HSet(Word<'a>, PairList<'a>),
    /// `HMSET key field value..`
    HMSet(Word<'a>, PairList<'a>),
    /// `HSETNX key field value`
    HSetNx(Word<'a>, Word<'a>, Word<'a>),
    /// `HGET key field`
    HGet(Word<'a>, Word<'a>),
    /// `HMGET key field..`
    HMGet(Word<'a>, WordList<'a>),
    /// `HDEL key field..`
    HDel(Word<'a>, WordList<'a>),
    /// `HEXISTS key field`
    HExists(Word<'a>, Word<'a>),
    /// `HLEN key`
    HLen(Word<'a>),
    /// `HSTRLEN key field`
    HStrLen(Word<'a>, Word<'a>),
    /// `HKEYS key`
    HKeys(Word<'a>),
    /// `HVALS key`
    HVals(Word<'a>),
    /// `HGETALL key`
    HGetAll(Word<'a>),
    /// `HINCRBY key field n`
    HIncrBy(Word<'a>, Word<'a>, i64),
    /// `HRANDFIELD key [n [WITHVALUES]]`
    HRandField(Word<'a>, Option<i64>, bool),
    /// `HSCAN key cursor [MATCH pattern] [COUNT n]`
    HScan(Word<'a>, u64, ScanOptions<'a>),
}
