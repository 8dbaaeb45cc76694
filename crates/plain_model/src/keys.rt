//! Commands on keys, whatever the type of their values.

use crate::{Word, WordList};

/// The options of EXPIRE and its like.
#[derive(Clone, Copy, Debug)]
pub struct ExpireOptions {
    /// `NX`: only where the key has no deadline.
    pub nx: bool,
    /// `XX`: only where it has one.
    pub xx: bool,
    /// `GT`: only where the new deadline is later.
    pub gt: bool,
    /// `LT`: only where the new deadline is earlier.
    pub lt: bool,
}

/// The options of COPY.
#[derive(Clone, Copy, Debug)]
pub struct CopyOptions {
    /// `DB db`: the database that is copied to, by its number below 16; without it the selected one.
    pub db: Option<usize>,
    /// `REPLACE`: what stands there is replaced.
    pub replace: bool,
}

/// The options of SCAN.
#[derive(Drop)]
pub struct ScanOptions<'a> {
    /// `MATCH pattern`: only keys that it matches.
    pub pattern: Option<Word<'a>>,
    /// `COUNT n`: how many keys are to be met at least, above 0.
    pub count: u64,
    /// `TYPE name`: only keys with a value of this type, whatever the case of its name.
    pub type_name: Option<Word<'a>>,
}

/// A command on keys.
#[derive(Drop)]
pub enum KeyCommand<'a> {
    /// `DEL key..`
    Del(WordList<'a>),
    /// `UNLINK key..`
    Unlink(WordList<'a>),
    /// `EXISTS key..`
    Exists(WordList<'a>),
    /// `TOUCH key..`
    Touch(WordList<'a>),
    /// `TYPE key`
    TypeOf(Word<'a>),
    /// `EXPIRE key n [NX, XX, GT, LT]`: seconds from now.
    Expire(Word<'a>, i64, ExpireOptions),
    /// `PEXPIRE key n [NX, XX, GT, LT]`: milliseconds from now.
    PExpire(Word<'a>, i64, ExpireOptions),
    /// `EXPIREAT key n [NX, XX, GT, LT]`: seconds from moment 0.
    ExpireAt(Word<'a>, i64, ExpireOptions),
    /// `PEXPIREAT key n [NX, XX, GT, LT]`: milliseconds from moment 0.
    PExpireAt(Word<'a>, i64, ExpireOptions),
    /// `TTL key`
    Ttl(Word<'a>),
    /// `PTTL key`
    PTtl(Word<'a>),
    /// `EXPIRETIME key`
    ExpireTime(Word<'a>),
    /// `PEXPIRETIME key`
    PExpireTime(Word<'a>),
    /// `PERSIST key`
    Persist(Word<'a>),
    /// `RENAME from to`
    Rename(Word<'a>, Word<'a>),
    /// `RENAMENX from to`
    RenameNx(Word<'a>, Word<'a>),
    /// `COPY from to [DB db] [REPLACE]`
    Copy(Word<'a>, Word<'a>, CopyOptions),
    /// `MOVE key db`, with the database by its number below 16.
    MoveKey(Word<'a>, usize),
    /// `RANDOMKEY`
    RandomKey,
    /// `OBJECT ENCODING key`
    ObjectEncoding(Word<'a>),
    /// `KEYS pattern`
    KeysLike(Word<'a>),
    /// `SCAN cursor [MATCH pattern] [COUNT n] [TYPE name]`
    Scan(u64, ScanOptions<'a>),
}
