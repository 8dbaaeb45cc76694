//! Commands on streams and their consumer groups.

use crate::{Direction, IdList, PairList, ReadList, Word};

/// The id of an entry: milliseconds, and a number among the entries of one millisecond.
pub type EntryId = (u64, u64);

/// What goes from the front of a stream.
#[derive(Clone, Copy, Debug)]
pub enum Trim {
    /// `MAXLEN n`: all entries but the last `n`.
    MaxLen(u64),
    /// `MINID id`: the entries below an id.
    MinId(EntryId),
}

/// What the options of XADD say.
#[derive(Clone, Copy, Debug)]
pub struct AppendOptions {
    /// `NOMKSTREAM`: no stream is made.
    pub only_there: bool,
    /// `MAXLEN` or `MINID`: what goes when the entry is added.
    pub trim: Option<Trim>,
}

/// Which id a new entry gets.
#[derive(Clone, Copy, Debug)]
pub enum NewId {
    /// `*`: one of the moment, or else the one that follows the last id.
    Auto,
    /// `ms-*`: the first one of these milliseconds that is above the last id.
    Within(u64),
    /// An id.
    Given(EntryId),
}

/// A command on streams.
#[derive(Drop)]
pub enum StreamCommand<'a> {
    /// `XADD key [NOMKSTREAM] [MAXLEN or MINID [= or ~] bound] id field value..`
    XAdd(Word<'a>, AppendOptions, NewId, PairList<'a>),
    /// `XLEN key`
    XLen(Word<'a>),
    /// `XRANGE key from to [COUNT n]`, and XREVRANGE: the first id and the last one, both counted in, and how many entries at most
    XRange(Word<'a>, EntryId, EntryId, Direction, Option<u64>),
    /// `XDEL key id..`
    XDel(Word<'a>, IdList),
    /// `XTRIM key MAXLEN or MINID [= or ~] bound`
    XTrim(Word<'a>, Trim),
    /// `XREAD [COUNT n] STREAMS key.. id..`: how many entries of each key at most, and above which id, without one the last id
    XRead(Option<u64>, ReadList<'a>),
    /// `XGROUP CREATE key group id [MKSTREAM]`: without an id from the last id on
    XGroupCreate(Word<'a>, Word<'a>, Option<EntryId>, bool),
    /// `XGROUP DESTROY key group`
    XGroupDestroy(Word<'a>, Word<'a>),
    /// `XREADGROUP GROUP group consumer [COUNT n] STREAMS key.. id..`: without an id what the group hasn't handed out
    XReadGroup(Word<'a>, Word<'a>, Option<u64>, ReadList<'a>),
    /// `XACK key group id..`
    XAck(Word<'a>, Word<'a>, IdList),
    /// `XPENDING key group`
    XPending(Word<'a>, Word<'a>),
}
