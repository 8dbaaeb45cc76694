//! What follows a command: tables that it may have left with few keys are made smaller.

ghost use Rattle.std.specs.Prelude.{◌≡◌, ◌<◌, ℕ, OnOk, IfSome, IfNone};
ghost use Rattle.keyspace.specs.Databases.{means};
ghost use Rattle.keyspace.specs.Sound.{Sound};
ghost use Rattle.keyspace.specs.Scopes.{no_key, number_or, AreSettled, string_reach, list_reach, set_reach, hash_reach, zset_reach, stream_reach, key_reach, connection_reach};
ghost use Rattle.keyspace.specs.Commands.{KeepsTo};
ghost use Rattle.redis_core.specs.Touched.{covers, databases, shrinking, touched_here, touched_of, AreDatabases};

use blocks::BlockStore;
use keyspace::Keyspace;
use plain_model::{
    Command, ConnectionCommand, HashCommand, KeyCommand, ListCommand, Memory, SetCommand,
    StreamCommand, StringCommand, ZsetCommand,
};

// How many databases there are.
const DATABASES: usize = 16;

/// The databases that a command may change, by their numbers.
#[derive(Clone, Copy, Debug)]
pub enum Touched {
    Nothing,
    One(usize),
    Two(usize, usize),
    All,
}

fn touched_by_strings(command: &StringCommand<'_>, db: usize) -> Touched
    ensures { result ≡ touched_here db (string_reach command.now) }
{
    match command {
        StringCommand::Get(_) => Touched::Nothing,
        StringCommand::Set(_, _, _) => Touched::One(db),
        StringCommand::SetNx(_, _) => Touched::One(db),
        StringCommand::SetEx(_, _, _) => Touched::One(db),
        StringCommand::PSetEx(_, _, _) => Touched::One(db),
        StringCommand::GetEx(_, _) => Touched::One(db),
        StringCommand::GetSet(_, _) => Touched::One(db),
        StringCommand::GetDel(_) => Touched::One(db),
        StringCommand::MGet(_) => Touched::Nothing,
        StringCommand::MSet(_) => Touched::One(db),
        StringCommand::MSetNx(_) => Touched::One(db),
        StringCommand::Append(_, _) => Touched::One(db),
        StringCommand::StrLen(_) => Touched::Nothing,
        StringCommand::GetRange(_, _, _) => Touched::Nothing,
        StringCommand::SetRange(_, _, _) => Touched::One(db),
        StringCommand::Incr(_) => Touched::One(db),
        StringCommand::Decr(_) => Touched::One(db),
        StringCommand::IncrBy(_, _) => Touched::One(db),
        StringCommand::DecrBy(_, _) => Touched::One(db),
    }
}

fn touched_by_lists(command: &ListCommand<'_>, db: usize) -> Touched
    ensures { result ≡ touched_here db (list_reach command.now) }
{
    match command {
        ListCommand::LPush(_, _) => Touched::One(db),
        ListCommand::RPush(_, _) => Touched::One(db),
        ListCommand::LPushX(_, _) => Touched::One(db),
        ListCommand::RPushX(_, _) => Touched::One(db),
        ListCommand::LPop(_, _) => Touched::One(db),
        ListCommand::RPop(_, _) => Touched::One(db),
        ListCommand::LLen(_) => Touched::Nothing,
        ListCommand::LIndex(_, _) => Touched::Nothing,
        ListCommand::LSet(_, _, _) => Touched::One(db),
        ListCommand::LRange(_, _, _) => Touched::Nothing,
        ListCommand::LTrim(_, _, _) => Touched::One(db),
        ListCommand::LInsert(_, _, _, _) => Touched::One(db),
        ListCommand::LRem(_, _, _) => Touched::One(db),
        ListCommand::LPos(_, _, _) => Touched::Nothing,
        ListCommand::LMove(_, _, _, _) => Touched::One(db),
        ListCommand::RPopLPush(_, _) => Touched::One(db),
    }
}

fn touched_by_sets(command: &SetCommand<'_>, db: usize) -> Touched
    ensures { result ≡ touched_here db (set_reach command.now) }
{
    match command {
        SetCommand::SAdd(_, _) => Touched::One(db),
        SetCommand::SRem(_, _) => Touched::One(db),
        SetCommand::SIsMember(_, _) => Touched::Nothing,
        SetCommand::SMIsMember(_, _) => Touched::Nothing,
        SetCommand::SMembers(_) => Touched::Nothing,
        SetCommand::SCard(_) => Touched::Nothing,
        SetCommand::SMove(_, _, _) => Touched::One(db),
        SetCommand::SPop(_, _) => Touched::One(db),
        SetCommand::SRandMember(_, _) => Touched::Nothing,
        SetCommand::SJoin(_, _) => Touched::Nothing,
        SetCommand::SJoinStore(_, _, _) => Touched::One(db),
        SetCommand::SInterCard(_, _) => Touched::Nothing,
        SetCommand::SScan(_, _, _) => Touched::Nothing,
    }
}

fn touched_by_hashes(command: &HashCommand<'_>, db: usize) -> Touched
    ensures { result ≡ touched_here db (hash_reach command.now) }
{
    match command {
        HashCommand::HSet(_, _) => Touched::One(db),
        HashCommand::HMSet(_, _) => Touched::One(db),
        HashCommand::HSetNx(_, _, _) => Touched::One(db),
        HashCommand::HGet(_, _) => Touched::Nothing,
        HashCommand::HMGet(_, _) => Touched::Nothing,
        HashCommand::HDel(_, _) => Touched::One(db),
        HashCommand::HExists(_, _) => Touched::Nothing,
        HashCommand::HLen(_) => Touched::Nothing,
        HashCommand::HStrLen(_, _) => Touched::Nothing,
        HashCommand::HKeys(_) => Touched::Nothing,
        HashCommand::HVals(_) => Touched::Nothing,
        HashCommand::HGetAll(_) => Touched::Nothing,
        HashCommand::HIncrBy(_, _, _) => Touched::One(db),
        HashCommand::HRandField(_, _, _) => Touched::Nothing,
        HashCommand::HScan(_, _, _) => Touched::Nothing,
    }
}

fn touched_by_zsets(command: &ZsetCommand<'_>, db: usize) -> Touched
    ensures { result ≡ touched_here db (zset_reach command.now) }
{
    match command {
        ZsetCommand::ZAdd(_, _, _, _) => Touched::One(db),
        ZsetCommand::ZIncr(_, _, _, _) => Touched::One(db),
        ZsetCommand::ZRem(_, _) => Touched::One(db),
        ZsetCommand::ZScore(_, _) => Touched::Nothing,
        ZsetCommand::ZMScore(_, _) => Touched::Nothing,
        ZsetCommand::ZCard(_) => Touched::Nothing,
        ZsetCommand::ZCount(_, _, _) => Touched::Nothing,
        ZsetCommand::ZRank(_, _, _, _) => Touched::Nothing,
        ZsetCommand::ZRange(_, _, _, _, _) => Touched::Nothing,
        ZsetCommand::ZRangeByScore(_, _, _, _, _, _) => Touched::Nothing,
        ZsetCommand::ZRemRangeByRank(_, _, _) => Touched::One(db),
        ZsetCommand::ZRemRangeByScore(_, _, _) => Touched::One(db),
        ZsetCommand::ZPop(_, _, _) => Touched::One(db),
        ZsetCommand::ZRandMember(_, _, _) => Touched::Nothing,
        ZsetCommand::ZJoinStore(_, _, _, _) => Touched::One(db),
        ZsetCommand::ZScan(_, _, _) => Touched::Nothing,
    }
}

// The database of this number, or else the selected one.
fn number_of(db: usize, number: Option<usize>) -> usize
    ensures { result ≡ number_or db number }
{
    match number {
        None => db,
        Some(number) => number,
    }
}

fn touched_by_streams(command: &StreamCommand<'_>, db: usize) -> Touched
    ensures { result ≡ touched_here db (stream_reach command.now) }
{
    match command {
        StreamCommand::XAdd(_, _, _, _) => Touched::One(db),
        StreamCommand::XLen(_) => Touched::Nothing,
        StreamCommand::XRange(_, _, _, _, _) => Touched::Nothing,
        StreamCommand::XDel(_, _) => Touched::One(db),
        StreamCommand::XTrim(_, _) => Touched::One(db),
        StreamCommand::XRead(_, _) => Touched::Nothing,
        StreamCommand::XGroupCreate(_, _, _, _) => Touched::One(db),
        StreamCommand::XGroupDestroy(_, _) => Touched::One(db),
        StreamCommand::XReadGroup(_, _, _, _) => Touched::One(db),
        StreamCommand::XAck(_, _, _) => Touched::One(db),
        StreamCommand::XPending(_, _) => Touched::Nothing,
    }
}

fn touched_by_keys(command: &KeyCommand<'_>, db: usize) -> Touched
    ensures { result ≡ databases db (key_reach command.now) }
{
    match command {
        KeyCommand::Del(_) => Touched::One(db),
        KeyCommand::Unlink(_) => Touched::One(db),
        KeyCommand::Exists(_) => Touched::Nothing,
        KeyCommand::Touch(_) => Touched::Nothing,
        KeyCommand::TypeOf(_) => Touched::Nothing,
        KeyCommand::Expire(_, _, _) => Touched::One(db),
        KeyCommand::PExpire(_, _, _) => Touched::One(db),
        KeyCommand::ExpireAt(_, _, _) => Touched::One(db),
        KeyCommand::PExpireAt(_, _, _) => Touched::One(db),
        KeyCommand::Ttl(_) => Touched::Nothing,
        KeyCommand::PTtl(_) => Touched::Nothing,
        KeyCommand::ExpireTime(_) => Touched::Nothing,
        KeyCommand::PExpireTime(_) => Touched::Nothing,
        KeyCommand::Persist(_) => Touched::One(db),
        KeyCommand::Rename(_, _) => Touched::One(db),
        KeyCommand::RenameNx(_, _) => Touched::One(db),
        KeyCommand::Copy(_, _, options) => Touched::Two(db, number_of(db, options.db)),
        KeyCommand::MoveKey(_, number) => Touched::Two(db, *number),
        KeyCommand::RandomKey => Touched::Nothing,
        KeyCommand::ObjectEncoding(_) => Touched::Nothing,
        KeyCommand::KeysLike(_) => Touched::Nothing,
        KeyCommand::Scan(_, _) => Touched::Nothing,
    }
}

fn touched_by_connection(command: &ConnectionCommand<'_>, db: usize) -> Touched
    ensures { result ≡ databases db (connection_reach command.now) }
{
    match command {
        ConnectionCommand::Ping(_) => Touched::Nothing,
        ConnectionCommand::Echo(_) => Touched::Nothing,
        ConnectionCommand::Quit => Touched::Nothing,
        ConnectionCommand::Select(_) => Touched::Nothing,
        ConnectionCommand::DbSize => Touched::One(db),
        ConnectionCommand::FlushDb => Touched::One(db),
        ConnectionCommand::FlushAll => Touched::All,
        ConnectionCommand::MemorySlabs => Touched::Nothing,
        ConnectionCommand::DebugRehash(_) => Touched::Nothing,
        ConnectionCommand::DebugDefrag(_) => Touched::Nothing,
    }
}

/// The databases that a command may change, where this one is selected.
pub fn touched_by(command: &Command<'_>, db: usize) -> Touched
    ensures { result ≡ touched_of db command.now }
{
    match command {
        Command::Strings(own) => touched_by_strings(own, db),
        Command::Lists(own) => touched_by_lists(own, db),
        Command::Sets(own) => touched_by_sets(own, db),
        Command::Hashes(own) => touched_by_hashes(own, db),
        Command::Zsets(own) => touched_by_zsets(own, db),
        Command::Streams(own) => touched_by_streams(own, db),
        Command::Keys(own) => touched_by_keys(own, db),
        Command::Connection(own) => touched_by_connection(own, db),
    }
}

// Begins a rehash to smaller tables in one database, where its keys or its deadlines are few.
fn shrink_one<B: BlockStore>(keyspace: &mut Keyspace<B>, db: usize) -> Result<(), Memory>
    requires sound { Sound keyspace.old.bases (B.blocks keyspace.old.store) }
    requires db { db < 16 }
    ensures world { (number : ℕ) → means number keyspace.new.bases (B.blocks keyspace.new.store) ≡ means number keyspace.old.bases (B.blocks keyspace.old.store) }
    ensures held { KeepsTo B.blocks B.step (no_key db) keyspace.old keyspace.new }
    ensures settled { OnOk result (AreSettled keyspace.new.bases db) }
{
    keyspace.shrink(db)
}

// The same in all databases.
fn shrink_all<B: BlockStore>(keyspace: &mut Keyspace<B>) -> Result<(), Memory>
    requires sound { Sound keyspace.old.bases (B.blocks keyspace.old.store) }
    ensures world { (number : ℕ) → means number keyspace.new.bases (B.blocks keyspace.new.store) ≡ means number keyspace.old.bases (B.blocks keyspace.old.store) }
    ensures held { KeepsTo B.blocks B.step (shrinking Touched.All) keyspace.old keyspace.new }
    ensures settled { OnOk result ((number : ℕ) → AreSettled keyspace.new.bases number) }
{
    for db in 0..DATABASES {
        shrink_one(keyspace, db)?;
    }
    Ok(())
}

/// Begins a rehash to smaller tables in each of these databases, where its keys or its deadlines are few in their tables.
///
/// `Memory` leaves the keys, their values and their deadlines.
pub fn settle<B: BlockStore>(keyspace: &mut Keyspace<B>, touched: Touched) -> Result<(), Memory>
    requires sound { Sound keyspace.old.bases (B.blocks keyspace.old.store) }
    requires databases { AreDatabases touched }
    ensures world { (number : ℕ) → means number keyspace.new.bases (B.blocks keyspace.new.store) ≡ means number keyspace.old.bases (B.blocks keyspace.old.store) }
    ensures held { KeepsTo B.blocks B.step (shrinking touched) keyspace.old keyspace.new }
    ensures settled { OnOk result ((number : ℕ) → covers touched number → AreSettled keyspace.new.bases number) }
{
    match touched {
        Touched::Nothing => Ok(()),
        Touched::One(db) => shrink_one(keyspace, db),
        Touched::Two(db, other) => match shrink_one(keyspace, db) {
            Ok(()) => shrink_one(keyspace, other),
            Err(error) => Err(error),
        },
        Touched::All => shrink_all(keyspace),
    }
}
