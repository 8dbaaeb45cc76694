//! The table of commands: a row for each name, under the name's length.

ghost use Rattle.std.specs.Prelude.{◌≡◌, bytes_eq, length};
ghost use Rattle.plain_world.specs.Words.{in_lower_case};
ghost use Rattle.command_table.specs.Rows.{found_in, Finds, IsTable};

use self::Name::{Connection, Hashes, Keys, Lists, Sets, Streams, Strings, Zsets};
use self::StringName::{
    Append, Decr, DecrBy, Get, GetDel, GetEx, GetRange, GetSet, Incr, IncrBy, MGet, MSet, MSetNx,
    PSetEx, Set, SetEx, SetNx, SetRange, StrLen,
};
use command_words::words::is_word;

/// Which command on strings.
#[derive(Clone, Copy)]
pub enum StringName {
    Get,
    Set,
    SetNx,
    SetEx,
    PSetEx,
    GetSet,
    GetDel,
    GetEx,
    MGet,
    MSet,
    MSetNx,
    Append,
    StrLen,
    GetRange,
    SetRange,
    Incr,
    Decr,
    IncrBy,
    DecrBy,
}

/// Which command on lists.
#[derive(Clone, Copy)]
pub enum ListName {
    LPush,
    RPush,
    LPushX,
    RPushX,
    LPop,
    RPop,
    LLen,
    LIndex,
    LSet,
    LRange,
    LTrim,
    LInsert,
    LRem,
    LPos,
    LMove,
    RPopLPush,
}

/// Which command on sets.
#[derive(Clone, Copy)]
pub enum SetName {
    SAdd,
    SRem,
    SIsMember,
    SMIsMember,
    SMembers,
    SCard,
    SMove,
    SPop,
    SRandMember,
    SInter,
    SUnion,
    SDiff,
    SInterStore,
    SUnionStore,
    SDiffStore,
    SInterCard,
    SScan,
}

/// Which command on hashes.
#[derive(Clone, Copy)]
pub enum HashName {
    HSet,
    HMSet,
    HSetNx,
    HGet,
    HMGet,
    HDel,
    HExists,
    HLen,
    HStrLen,
    HKeys,
    HVals,
    HGetAll,
    HIncrBy,
    HRandField,
    HScan,
}

/// Which command on sorted sets.
#[derive(Clone, Copy)]
pub enum ZsetName {
    ZAdd,
    ZIncrBy,
    ZRem,
    ZScore,
    ZMScore,
    ZCard,
    ZCount,
    ZRank,
    ZRevRank,
    ZRange,
    ZRevRange,
    ZRangeByScore,
    ZRevRangeByScore,
    ZRemRangeByRank,
    ZRemRangeByScore,
    ZPopMin,
    ZPopMax,
    ZRandMember,
    ZUnionStore,
    ZInterStore,
    ZScan,
}

/// Which command on streams.
#[derive(Clone, Copy)]
pub enum StreamName {
    XAdd,
    XLen,
    XRange,
    XRevRange,
    XDel,
    XTrim,
    XRead,
    XGroup,
    XReadGroup,
    XAck,
    XPending,
}

/// Which command on keys.
#[derive(Clone, Copy)]
pub enum KeyName {
    Del,
    Unlink,
    Exists,
    Touch,
    TypeOf,
    Expire,
    PExpire,
    ExpireAt,
    PExpireAt,
    Ttl,
    PTtl,
    ExpireTime,
    PExpireTime,
    Persist,
    Rename,
    RenameNx,
    CopyKey,
    MoveKey,
    RandomKey,
    Object,
    KeysLike,
    Scan,
}

/// Which command on the connection or the server.
#[derive(Clone, Copy)]
pub enum ConnectionName {
    Ping,
    Echo,
    Quit,
    Select,
    DbSize,
    FlushDb,
    FlushAll,
    Memory,
    Debug,
}

/// Which command, by its family.
#[derive(Clone, Copy)]
pub enum Name {
    Strings(StringName),
    Lists(ListName),
    Sets(SetName),
    Hashes(HashName),
    Zsets(ZsetName),
    Streams(StreamName),
    Keys(KeyName),
    Connection(ConnectionName),
}

/// A command's name in lower case, and which command that is.
pub struct Row(&'static [u8], Name);

const OF_3: [Row; 4] = [
    Row(b"get", Strings(Get)),
    Row(b"set", Strings(Set)),
    Row(b"del", Keys(KeyName::Del)),
    Row(b"ttl", Keys(KeyName::Ttl)),
];

const OF_4: [Row; 32] = [
    Row(b"mget", Strings(MGet)),
    Row(b"mset", Strings(MSet)),
    Row(b"incr", Strings(Incr)),
    Row(b"decr", Strings(Decr)),
    Row(b"type", Keys(KeyName::TypeOf)),
    Row(b"pttl", Keys(KeyName::PTtl)),
    Row(b"copy", Keys(KeyName::CopyKey)),
    Row(b"move", Keys(KeyName::MoveKey)),
    Row(b"keys", Keys(KeyName::KeysLike)),
    Row(b"scan", Keys(KeyName::Scan)),
    Row(b"ping", Connection(ConnectionName::Ping)),
    Row(b"echo", Connection(ConnectionName::Echo)),
    Row(b"quit", Connection(ConnectionName::Quit)),
    Row(b"lpop", Lists(ListName::LPop)),
    Row(b"rpop", Lists(ListName::RPop)),
    Row(b"llen", Lists(ListName::LLen)),
    Row(b"lset", Lists(ListName::LSet)),
    Row(b"lrem", Lists(ListName::LRem)),
    Row(b"lpos", Lists(ListName::LPos)),
    Row(b"sadd", Sets(SetName::SAdd)),
    Row(b"srem", Sets(SetName::SRem)),
    Row(b"hset", Hashes(HashName::HSet)),
    Row(b"hget", Hashes(HashName::HGet)),
    Row(b"hdel", Hashes(HashName::HDel)),
    Row(b"hlen", Hashes(HashName::HLen)),
    Row(b"zadd", Zsets(ZsetName::ZAdd)),
    Row(b"zrem", Zsets(ZsetName::ZRem)),
    Row(b"spop", Sets(SetName::SPop)),
    Row(b"xadd", Streams(StreamName::XAdd)),
    Row(b"xlen", Streams(StreamName::XLen)),
    Row(b"xdel", Streams(StreamName::XDel)),
    Row(b"xack", Streams(StreamName::XAck)),
];

const OF_5: [Row; 23] = [
    Row(b"setnx", Strings(SetNx)),
    Row(b"setex", Strings(SetEx)),
    Row(b"getex", Strings(GetEx)),
    Row(b"touch", Keys(KeyName::Touch)),
    Row(b"debug", Connection(ConnectionName::Debug)),
    Row(b"lpush", Lists(ListName::LPush)),
    Row(b"rpush", Lists(ListName::RPush)),
    Row(b"ltrim", Lists(ListName::LTrim)),
    Row(b"lmove", Lists(ListName::LMove)),
    Row(b"scard", Sets(SetName::SCard)),
    Row(b"smove", Sets(SetName::SMove)),
    Row(b"hmset", Hashes(HashName::HMSet)),
    Row(b"hmget", Hashes(HashName::HMGet)),
    Row(b"hkeys", Hashes(HashName::HKeys)),
    Row(b"hvals", Hashes(HashName::HVals)),
    Row(b"zcard", Zsets(ZsetName::ZCard)),
    Row(b"zrank", Zsets(ZsetName::ZRank)),
    Row(b"sdiff", Sets(SetName::SDiff)),
    Row(b"sscan", Sets(SetName::SScan)),
    Row(b"hscan", Hashes(HashName::HScan)),
    Row(b"zscan", Zsets(ZsetName::ZScan)),
    Row(b"xtrim", Streams(StreamName::XTrim)),
    Row(b"xread", Streams(StreamName::XRead)),
];

const OF_6: [Row; 28] = [
    Row(b"getset", Strings(GetSet)),
    Row(b"getdel", Strings(GetDel)),
    Row(b"psetex", Strings(PSetEx)),
    Row(b"msetnx", Strings(MSetNx)),
    Row(b"append", Strings(Append)),
    Row(b"strlen", Strings(StrLen)),
    Row(b"incrby", Strings(IncrBy)),
    Row(b"decrby", Strings(DecrBy)),
    Row(b"exists", Keys(KeyName::Exists)),
    Row(b"expire", Keys(KeyName::Expire)),
    Row(b"unlink", Keys(KeyName::Unlink)),
    Row(b"rename", Keys(KeyName::Rename)),
    Row(b"object", Keys(KeyName::Object)),
    Row(b"select", Connection(ConnectionName::Select)),
    Row(b"dbsize", Connection(ConnectionName::DbSize)),
    Row(b"memory", Connection(ConnectionName::Memory)),
    Row(b"lpushx", Lists(ListName::LPushX)),
    Row(b"rpushx", Lists(ListName::RPushX)),
    Row(b"lindex", Lists(ListName::LIndex)),
    Row(b"lrange", Lists(ListName::LRange)),
    Row(b"hsetnx", Hashes(HashName::HSetNx)),
    Row(b"zscore", Zsets(ZsetName::ZScore)),
    Row(b"zcount", Zsets(ZsetName::ZCount)),
    Row(b"zrange", Zsets(ZsetName::ZRange)),
    Row(b"sinter", Sets(SetName::SInter)),
    Row(b"sunion", Sets(SetName::SUnion)),
    Row(b"xrange", Streams(StreamName::XRange)),
    Row(b"xgroup", Streams(StreamName::XGroup)),
];

const OF_7: [Row; 12] = [
    Row(b"pexpire", Keys(KeyName::PExpire)),
    Row(b"persist", Keys(KeyName::Persist)),
    Row(b"flushdb", Connection(ConnectionName::FlushDb)),
    Row(b"linsert", Lists(ListName::LInsert)),
    Row(b"hexists", Hashes(HashName::HExists)),
    Row(b"hstrlen", Hashes(HashName::HStrLen)),
    Row(b"hincrby", Hashes(HashName::HIncrBy)),
    Row(b"hgetall", Hashes(HashName::HGetAll)),
    Row(b"zincrby", Zsets(ZsetName::ZIncrBy)),
    Row(b"zmscore", Zsets(ZsetName::ZMScore)),
    Row(b"zpopmin", Zsets(ZsetName::ZPopMin)),
    Row(b"zpopmax", Zsets(ZsetName::ZPopMax)),
];

const OF_8: [Row; 8] = [
    Row(b"getrange", Strings(GetRange)),
    Row(b"setrange", Strings(SetRange)),
    Row(b"expireat", Keys(KeyName::ExpireAt)),
    Row(b"renamenx", Keys(KeyName::RenameNx)),
    Row(b"flushall", Connection(ConnectionName::FlushAll)),
    Row(b"smembers", Sets(SetName::SMembers)),
    Row(b"zrevrank", Zsets(ZsetName::ZRevRank)),
    Row(b"xpending", Streams(StreamName::XPending)),
];

const OF_9: [Row; 6] = [
    Row(b"pexpireat", Keys(KeyName::PExpireAt)),
    Row(b"randomkey", Keys(KeyName::RandomKey)),
    Row(b"rpoplpush", Lists(ListName::RPopLPush)),
    Row(b"sismember", Sets(SetName::SIsMember)),
    Row(b"zrevrange", Zsets(ZsetName::ZRevRange)),
    Row(b"xrevrange", Streams(StreamName::XRevRange)),
];

const OF_10: [Row; 6] = [
    Row(b"expiretime", Keys(KeyName::ExpireTime)),
    Row(b"smismember", Sets(SetName::SMIsMember)),
    Row(b"sdiffstore", Sets(SetName::SDiffStore)),
    Row(b"sintercard", Sets(SetName::SInterCard)),
    Row(b"hrandfield", Hashes(HashName::HRandField)),
    Row(b"xreadgroup", Streams(StreamName::XReadGroup)),
];

const OF_11: [Row; 7] = [
    Row(b"pexpiretime", Keys(KeyName::PExpireTime)),
    Row(b"srandmember", Sets(SetName::SRandMember)),
    Row(b"sinterstore", Sets(SetName::SInterStore)),
    Row(b"sunionstore", Sets(SetName::SUnionStore)),
    Row(b"zrandmember", Zsets(ZsetName::ZRandMember)),
    Row(b"zunionstore", Zsets(ZsetName::ZUnionStore)),
    Row(b"zinterstore", Zsets(ZsetName::ZInterStore)),
];

const OF_13: [Row; 1] = [Row(b"zrangebyscore", Zsets(ZsetName::ZRangeByScore))];

const OF_15: [Row; 1] = [Row(b"zremrangebyrank", Zsets(ZsetName::ZRemRangeByRank))];

const OF_16: [Row; 2] = [
    Row(b"zrevrangebyscore", Zsets(ZsetName::ZRevRangeByScore)),
    Row(b"zremrangebyscore", Zsets(ZsetName::ZRemRangeByScore)),
];

// The first row with this name.
fn find_in(rows: &[Row], word: &[u8]) -> Option<Name>
    ensures { result ≡ found_in rows.now word.now }
{
    for Row(name, which) in rows {
        if is_word(word, name) {
            return Some(*which);
        }
    }
    None
}

// Looks a name up among the rows of its length.
fn look_up(rows: &[Row], word: &[u8]) -> Option<Name>
    requires { IsTable rows.now (length word.now) }
    ensures { Finds word.now result }
{
    find_in(rows, word)
}

/// Looks a command's name up, whatever its case.
pub fn find(word: &[u8]) -> Option<Name>
    ensures { Finds word.now result }
{
    match word.len() {
        3 => look_up(&OF_3, word),
        4 => look_up(&OF_4, word),
        5 => look_up(&OF_5, word),
        6 => look_up(&OF_6, word),
        7 => look_up(&OF_7, word),
        8 => look_up(&OF_8, word),
        9 => look_up(&OF_9, word),
        10 => look_up(&OF_10, word),
        11 => look_up(&OF_11, word),
        13 => look_up(&OF_13, word),
        15 => look_up(&OF_15, word),
        16 => look_up(&OF_16, word),
        _ => None,
    }
}
