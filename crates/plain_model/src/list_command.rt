//! Commands on lists.

use crate::{Word, WordList};

/// An end of a list.
#[derive(Clone, Copy, Debug)]
pub enum ListEnd {
    /// `LEFT`: where its first element stands.
    Head,
    /// `RIGHT`: where its last element stands.
    Tail,
}

/// A side of an element.
#[derive(Clone, Copy, Debug)]
pub enum Side {
    /// `BEFORE`
    Before,
    /// `AFTER`
    After,
}

/// The options of LPOS.
#[derive(Clone, Copy, Debug)]
pub struct PositionOptions {
    /// `RANK r`: from the r-th match on, from the tail where it is below 0; neither 0 nor -2^63.
    pub rank: i64,
    /// `COUNT n`: how many indexes are told at most, all for 0; without it one is told alone.
    pub count: Option<u64>,
    /// `MAXLEN m`: how many elements are looked at, all for 0.
    pub most: u64,
}

/// A command on lists.
#[derive(Drop)]
pub enum ListCommand<'a> {
    /// `LPUSH key element..`
    LPush(Word<'a>, WordList<'a>),
    /// `RPUSH key element..`
    RPush(Word<'a>, WordList<'a>),
    /// `LPUSHX key element..`
    LPushX(Word<'a>, WordList<'a>),
    /// `RPUSHX key element..`
    RPushX(Word<'a>, WordList<'a>),
    /// `LPOP key [n]`
    LPop(Word<'a>, Option<u64>),
    /// `RPOP key [n]`
    RPop(Word<'a>, Option<u64>),
    /// `LLEN key`
    LLen(Word<'a>),
    /// `LINDEX key index`
    LIndex(Word<'a>, i64),
    /// `LSET key index element`
    LSet(Word<'a>, i64, Word<'a>),
    /// `LRANGE key a b`
    LRange(Word<'a>, i64, i64),
    /// `LTRIM key a b`
    LTrim(Word<'a>, i64, i64),
    /// `LINSERT key BEFORE or AFTER pivot element`
    LInsert(Word<'a>, Side, Word<'a>, Word<'a>),
    /// `LREM key n element`
    LRem(Word<'a>, i64, Word<'a>),
    /// `LPOS key element [RANK r] [COUNT n] [MAXLEN m]`
    LPos(Word<'a>, Word<'a>, PositionOptions),
    /// `LMOVE from to LEFT or RIGHT, LEFT or RIGHT`
    LMove(Word<'a>, Word<'a>, ListEnd, ListEnd),
    /// `RPOPLPUSH from to`
    RPopLPush(Word<'a>, Word<'a>),
}
