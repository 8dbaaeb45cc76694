//! The places that a command writes, a function for each family.

ghost use Rattle.std.specs.Prelude.{◌≡◌, ◌++◌, ◌∷◌, [], map, IfOk, OnOk};
ghost use Rattle.written_keys.specs.Written.{at, each_at, firsts_at, asked_at, number_or, string_places, list_places, set_places, hash_places, zset_places, stream_places, key_places, places};

use plain_model::{
    Command, HashCommand, KeyCommand, ListCommand, Memory, PairList, ReadList, SetCommand,
    StreamCommand, StringCommand, Word, WordList, ZsetCommand,
};
use std::alloc::Global;

/// Keys, each behind the number of its database.
pub type Places<'a> = Vec<(usize, Word<'a>)>;

// No place.
fn none<'a>(alloc: Global) -> Result<Places<'a>, Memory>
    ensures { IfOk result (λ list. list.items ≡ []) }
{
    Ok(Vec::new(alloc))
}

// A key of a database.
fn one<'a>(alloc: Global, db: usize, key: &Word<'a>) -> Result<Places<'a>, Memory>
    ensures { IfOk result (λ list. list.items ≡ at db key.now ∷ []) }
{
    let mut list = Vec::new(alloc);
    list.push((db, Word::new(key.as_slice())))?;
    Ok(list)
}

// A key of a database, and one of another or the same.
fn two<'a>(
    alloc: Global,
    db: usize,
    key: &Word<'a>,
    number: usize,
    other: &Word<'a>,
) -> Result<Places<'a>, Memory>
    ensures { IfOk result (λ list. list.items ≡ at db key.now ∷ at number other.now ∷ []) }
{
    let mut list = one(alloc, db, key)?;
    list.push((number, Word::new(other.as_slice())))?;
    Ok(list)
}

// Words as keys of a database.
fn each<'a>(alloc: Global, db: usize, words: &WordList<'a>) -> Result<Places<'a>, Memory>
    ensures { IfOk result (λ list. list.items ≡ each_at db words.now) }
{
    let mut list = Vec::new(alloc);
    for word in words.as_slice() {
        list.push((db, Word::new(word.as_slice())))?;
    }
    Ok(list)
}

// The first words of pairs.
fn firsts<'a>(alloc: Global, db: usize, pairs: &PairList<'a>) -> Result<Places<'a>, Memory>
    ensures { IfOk result (λ list. list.items ≡ firsts_at db pairs.now) }
{
    let mut list = Vec::new(alloc);
    for pair in pairs.as_slice() {
        list.push((db, Word::new(pair.0.as_slice())))?;
    }
    Ok(list)
}

// The keys that are asked for.
fn asked<'a>(alloc: Global, db: usize, read: &ReadList<'a>) -> Result<Places<'a>, Memory>
    ensures { IfOk result (λ list. list.items ≡ asked_at db read.now) }
{
    let mut list = Vec::new(alloc);
    for one in read.as_slice() {
        list.push((db, Word::new(one.0.as_slice())))?;
    }
    Ok(list)
}

fn places_of_strings<'a>(
    alloc: Global,
    command: &StringCommand<'a>,
    db: usize,
) -> Result<Places<'a>, Memory>
    ensures { IfOk result (λ list. list.items ≡ string_places db command.now) }
{
    match command {
        StringCommand::Get(_) | StringCommand::MGet(_) => none(alloc),
        StringCommand::StrLen(_) | StringCommand::GetRange(_, _, _) => none(alloc),
        StringCommand::Set(key, _, _) => one(alloc, db, key),
        StringCommand::SetNx(key, _) => one(alloc, db, key),
        StringCommand::SetEx(key, _, _) => one(alloc, db, key),
        StringCommand::PSetEx(key, _, _) => one(alloc, db, key),
        StringCommand::GetEx(key, _) => one(alloc, db, key),
        StringCommand::GetSet(key, _) => one(alloc, db, key),
        StringCommand::GetDel(key) => one(alloc, db, key),
        StringCommand::MSet(pairs) => firsts(alloc, db, pairs),
        StringCommand::MSetNx(pairs) => firsts(alloc, db, pairs),
        StringCommand::Append(key, _) => one(alloc, db, key),
        StringCommand::SetRange(key, _, _) => one(alloc, db, key),
        StringCommand::Incr(key) => one(alloc, db, key),
        StringCommand::Decr(key) => one(alloc, db, key),
        StringCommand::IncrBy(key, _) => one(alloc, db, key),
        StringCommand::DecrBy(key, _) => one(alloc, db, key),
    }
}

fn places_of_lists<'a>(
    alloc: Global,
    command: &ListCommand<'a>,
    db: usize,
) -> Result<Places<'a>, Memory>
    ensures { IfOk result (λ list. list.items ≡ list_places db command.now) }
{
    match command {
        ListCommand::LLen(_) | ListCommand::LIndex(_, _) => none(alloc),
        ListCommand::LRange(_, _, _) | ListCommand::LPos(_, _, _) => none(alloc),
        ListCommand::LPush(key, _) => one(alloc, db, key),
        ListCommand::RPush(key, _) => one(alloc, db, key),
        ListCommand::LPushX(key, _) => one(alloc, db, key),
        ListCommand::RPushX(key, _) => one(alloc, db, key),
        ListCommand::LPop(key, _) => one(alloc, db, key),
        ListCommand::RPop(key, _) => one(alloc, db, key),
        ListCommand::LSet(key, _, _) => one(alloc, db, key),
        ListCommand::LTrim(key, _, _) => one(alloc, db, key),
        ListCommand::LInsert(key, _, _, _) => one(alloc, db, key),
        ListCommand::LRem(key, _, _) => one(alloc, db, key),
        ListCommand::LMove(from, to, _, _) => two(alloc, db, from, db, to),
        ListCommand::RPopLPush(from, to) => two(alloc, db, from, db, to),
    }
}

fn places_of_sets<'a>(
    alloc: Global,
    command: &SetCommand<'a>,
    db: usize,
) -> Result<Places<'a>, Memory>
    ensures { IfOk result (λ list. list.items ≡ set_places db command.now) }
{
    match command {
        SetCommand::SIsMember(_, _) | SetCommand::SMIsMember(_, _) => none(alloc),
        SetCommand::SMembers(_) | SetCommand::SCard(_) => none(alloc),
        SetCommand::SRandMember(_, _) | SetCommand::SJoin(_, _) => none(alloc),
        SetCommand::SInterCard(_, _) | SetCommand::SScan(_, _, _) => none(alloc),
        SetCommand::SAdd(key, _) => one(alloc, db, key),
        SetCommand::SRem(key, _) => one(alloc, db, key),
        SetCommand::SMove(from, to, _) => two(alloc, db, from, db, to),
        SetCommand::SPop(key, _) => one(alloc, db, key),
        SetCommand::SJoinStore(_, to, _) => one(alloc, db, to),
    }
}

fn places_of_hashes<'a>(
    alloc: Global,
    command: &HashCommand<'a>,
    db: usize,
) -> Result<Places<'a>, Memory>
    ensures { IfOk result (λ list. list.items ≡ hash_places db command.now) }
{
    match command {
        HashCommand::HGet(_, _) | HashCommand::HMGet(_, _) => none(alloc),
        HashCommand::HExists(_, _) | HashCommand::HLen(_) => none(alloc),
        HashCommand::HStrLen(_, _) | HashCommand::HKeys(_) => none(alloc),
        HashCommand::HVals(_) | HashCommand::HGetAll(_) => none(alloc),
        HashCommand::HRandField(_, _, _) | HashCommand::HScan(_, _, _) => none(alloc),
        HashCommand::HSet(key, _) => one(alloc, db, key),
        HashCommand::HMSet(key, _) => one(alloc, db, key),
        HashCommand::HSetNx(key, _, _) => one(alloc, db, key),
        HashCommand::HDel(key, _) => one(alloc, db, key),
        HashCommand::HIncrBy(key, _, _) => one(alloc, db, key),
    }
}

fn places_of_zsets<'a>(
    alloc: Global,
    command: &ZsetCommand<'a>,
    db: usize,
) -> Result<Places<'a>, Memory>
    ensures { IfOk result (λ list. list.items ≡ zset_places db command.now) }
{
    match command {
        ZsetCommand::ZScore(_, _) | ZsetCommand::ZMScore(_, _) => none(alloc),
        ZsetCommand::ZCard(_) | ZsetCommand::ZCount(_, _, _) => none(alloc),
        ZsetCommand::ZRank(_, _, _, _) | ZsetCommand::ZRange(_, _, _, _, _) => none(alloc),
        ZsetCommand::ZRangeByScore(_, _, _, _, _, _) => none(alloc),
        ZsetCommand::ZRandMember(_, _, _) | ZsetCommand::ZScan(_, _, _) => none(alloc),
        ZsetCommand::ZAdd(key, _, _, _) => one(alloc, db, key),
        ZsetCommand::ZIncr(key, _, _, _) => one(alloc, db, key),
        ZsetCommand::ZRem(key, _) => one(alloc, db, key),
        ZsetCommand::ZRemRangeByRank(key, _, _) => one(alloc, db, key),
        ZsetCommand::ZRemRangeByScore(key, _, _) => one(alloc, db, key),
        ZsetCommand::ZPop(key, _, _) => one(alloc, db, key),
        ZsetCommand::ZJoinStore(_, to, _, _) => one(alloc, db, to),
    }
}

fn places_of_streams<'a>(
    alloc: Global,
    command: &StreamCommand<'a>,
    db: usize,
) -> Result<Places<'a>, Memory>
    ensures { IfOk result (λ list. list.items ≡ stream_places db command.now) }
{
    match command {
        StreamCommand::XLen(_) | StreamCommand::XRange(_, _, _, _, _) => none(alloc),
        StreamCommand::XRead(_, _) | StreamCommand::XPending(_, _) => none(alloc),
        StreamCommand::XAdd(key, _, _, _) => one(alloc, db, key),
        StreamCommand::XDel(key, _) => one(alloc, db, key),
        StreamCommand::XTrim(key, _) => one(alloc, db, key),
        StreamCommand::XGroupCreate(key, _, _, _) => one(alloc, db, key),
        StreamCommand::XGroupDestroy(key, _) => one(alloc, db, key),
        StreamCommand::XReadGroup(_, _, _, read) => asked(alloc, db, read),
        StreamCommand::XAck(key, _, _) => one(alloc, db, key),
    }
}

// The database of this number, or else the selected one.
fn number_of(db: usize, number: Option<usize>) -> usize
    ensures { result ≡ number_or db number }
{
    match number {
        None => db,
        Some(number) => number,
    }
}

fn places_of_keys<'a>(
    alloc: Global,
    command: &KeyCommand<'a>,
    db: usize,
) -> Result<Places<'a>, Memory>
    ensures { IfOk result (λ list. list.items ≡ key_places db command.now) }
{
    match command {
        KeyCommand::Exists(_) | KeyCommand::Touch(_) => none(alloc),
        KeyCommand::TypeOf(_) | KeyCommand::Ttl(_) => none(alloc),
        KeyCommand::PTtl(_) | KeyCommand::ExpireTime(_) => none(alloc),
        KeyCommand::PExpireTime(_) | KeyCommand::RandomKey => none(alloc),
        KeyCommand::ObjectEncoding(_) | KeyCommand::KeysLike(_) => none(alloc),
        KeyCommand::Scan(_, _) => none(alloc),
        KeyCommand::Del(words) => each(alloc, db, words),
        KeyCommand::Unlink(words) => each(alloc, db, words),
        KeyCommand::Expire(key, _, _) => one(alloc, db, key),
        KeyCommand::PExpire(key, _, _) => one(alloc, db, key),
        KeyCommand::ExpireAt(key, _, _) => one(alloc, db, key),
        KeyCommand::PExpireAt(key, _, _) => one(alloc, db, key),
        KeyCommand::Persist(key) => one(alloc, db, key),
        KeyCommand::Rename(from, to) => two(alloc, db, from, db, to),
        KeyCommand::RenameNx(from, to) => two(alloc, db, from, db, to),
        KeyCommand::Copy(_, to, options) => one(alloc, number_of(db, options.db), to),
        KeyCommand::MoveKey(key, number) => two(alloc, db, key, *number, key),
    }
}

/// The places that a command writes by their keys, where a database is selected: what it writes there and else isn't said, and
/// it may leave them. `Memory` where memory was refused.
pub fn places_of<'a>(alloc: Global, command: &Command<'a>, db: usize) -> Result<Places<'a>, Memory>
    ensures { IfOk result (λ list. list.items ≡ places db command.now) }
{
    match command {
        Command::Strings(own) => places_of_strings(alloc, own, db),
        Command::Lists(own) => places_of_lists(alloc, own, db),
        Command::Sets(own) => places_of_sets(alloc, own, db),
        Command::Hashes(own) => places_of_hashes(alloc, own, db),
        Command::Zsets(own) => places_of_zsets(alloc, own, db),
        Command::Streams(own) => places_of_streams(alloc, own, db),
        Command::Keys(own) => places_of_keys(alloc, own, db),
        Command::Connection(_) => none(alloc),
    }
}
