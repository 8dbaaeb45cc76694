//! Commands on the connection and on the server as a whole.

use crate::Word;

/// A command on the connection or the server.
#[derive(Drop)]
pub enum ConnectionCommand<'a> {
    /// `PING [text]`
    Ping(Option<Word<'a>>),
    /// `ECHO text`
    Echo(Word<'a>),
    /// `QUIT` and any words.
    Quit,
    /// `SELECT db`, with the database by its number below 16.
    Select(usize),
    /// `DBSIZE`
    DbSize,
    /// `FLUSHDB [ASYNC or SYNC]`
    FlushDb,
    /// `FLUSHALL [ASYNC or SYNC]`
    FlushAll,
    /// `MEMORY SLABS`
    MemorySlabs,
    /// `DEBUG REHASH n`, with a number of steps of at most 1,000,000.
    DebugRehash(u32),
    /// `DEBUG DEFRAG n`, with a number of steps of at most 1,000,000.
    DebugDefrag(u32),
}
