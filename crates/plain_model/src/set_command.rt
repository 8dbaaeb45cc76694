//! Commands on sets.

use crate::{ScanOptions, Word, WordList};

/// How sets are joined to one.
#[derive(Clone, Copy, Debug)]
pub enum SetJoin {
    /// The members that all of them have.
    Inter,
    /// The members that any of them has.
    Union,
    /// The members of the first one that none of the others has.
    Diff,
}

/// A command on sets.
#[derive(Drop)]
pub enum SetCommand<'a> {
    /// `SADD key member..`
    SAdd(Word<'a>, WordList<'a>),
    /// `SREM key member..`
    SRem(Word<'a>, WordList<'a>),
    /// `SISMEMBER key member`
    SIsMember(Word<'a>, Word<'a>),
    /// `SMISMEMBER key member..`
    SMIsMember(Word<'a>, WordList<'a>),
    /// `SMEMBERS key`
    SMembers(Word<'a>),
    /// `SCARD key`
    SCard(Word<'a>),
    /// `SMOVE from to member`
    SMove(Word<'a>, Word<'a>, Word<'a>),
    /// `SPOP key [n]`
    SPop(Word<'a>, Option<u64>),
    /// `SRANDMEMBER key [n]`
    SRandMember(Word<'a>, Option<i64>),
    /// `SINTER key..`, SUNION and SDIFF
    SJoin(SetJoin, WordList<'a>),
    /// `SINTERSTORE to key..`, SUNIONSTORE and SDIFFSTORE
    SJoinStore(SetJoin, Word<'a>, WordList<'a>),
    /// `SINTERCARD n key.. [LIMIT m]`, with 0 for no limit
    SInterCard(WordList<'a>, u64),
    /// `SSCAN key cursor [MATCH pattern] [COUNT n]`
    SScan(Word<'a>, u64, ScanOptions<'a>),
}
