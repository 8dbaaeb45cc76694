//! Commands, with their words, which are lent by the request: a family for each type of value, one for keys of any type, and one for the connection.

use crate::{
    ConnectionCommand, HashCommand, KeyCommand, Lifetime, ListCommand, PairList, Renewal,
    SetCommand, StreamCommand, Word, WordList, ZsetCommand,
};

/// A command with its words.
#[derive(Drop)]
pub enum Command<'a> {
    Strings(StringCommand<'a>),
    Lists(ListCommand<'a>),
    Sets(SetCommand<'a>),
    Hashes(HashCommand<'a>),
    Zsets(ZsetCommand<'a>),
    Streams(StreamCommand<'a>),
    Keys(KeyCommand<'a>),
    Connection(ConnectionCommand<'a>),
}

/// When SET writes.
#[derive(Clone, Copy, Debug)]
pub enum Condition {
    Always,
    /// `NX`: only where nothing stands at the key.
    IfMissing,
    /// `XX`: only where something stands there.
    IfThere,
}

/// What the options of SET say one by one.
#[derive(Clone, Copy, Debug)]
pub struct SetOptionsRead {
    pub nx: bool,
    pub xx: bool,
    pub get: bool,
    /// The last lifetime that is given.
    pub lifetime: Lifetime,
    /// Two options give a lifetime.
    pub twice: bool,
}

/// What the options of GETEX say one by one.
#[derive(Clone, Copy, Debug)]
pub struct GetExOptionsRead {
    /// What the last one says.
    pub renewal: Renewal,
    /// Two of them stand.
    pub twice: bool,
}

/// The options of SET.
#[derive(Clone, Copy, Debug)]
pub struct SetOptions {
    /// `NX` or `XX`.
    pub condition: Condition,
    /// `GET`: the old value is asked for.
    pub get: bool,
    /// `EX`, `PX`, `EXAT`, `PXAT` or `KEEPTTL`.
    pub lifetime: Lifetime,
}

/// A command on strings.
#[derive(Drop)]
pub enum StringCommand<'a> {
    /// `GET key`
    Get(Word<'a>),
    /// `SET key value [NX or XX] [GET] [EX s, PX ms, EXAT s, PXAT ms or KEEPTTL]`
    Set(Word<'a>, Word<'a>, SetOptions),
    /// `SETNX key value`
    SetNx(Word<'a>, Word<'a>),
    /// `SETEX key s value`
    SetEx(Word<'a>, i64, Word<'a>),
    /// `PSETEX key ms value`
    PSetEx(Word<'a>, i64, Word<'a>),
    /// `GETSET key value`
    GetSet(Word<'a>, Word<'a>),
    /// `GETDEL key`
    GetDel(Word<'a>),
    /// `GETEX key [EX s, PX ms, EXAT s, PXAT ms or PERSIST]`
    GetEx(Word<'a>, Renewal),
    /// `MGET key..`
    MGet(WordList<'a>),
    /// `MSET key value..`
    MSet(PairList<'a>),
    /// `MSETNX key value..`
    MSetNx(PairList<'a>),
    /// `APPEND key tail`
    Append(Word<'a>, Word<'a>),
    /// `STRLEN key`
    StrLen(Word<'a>),
    /// `GETRANGE key a b`
    GetRange(Word<'a>, i64, i64),
    /// `SETRANGE key at piece`
    SetRange(Word<'a>, u64, Word<'a>),
    /// `INCR key`
    Incr(Word<'a>),
    /// `DECR key`
    Decr(Word<'a>),
    /// `INCRBY key n`
    IncrBy(Word<'a>, i64),
    /// `DECRBY key n`
    DecrBy(Word<'a>, i64),
}
