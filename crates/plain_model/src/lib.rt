//! What commands mean: the definitions in `specs/`, and the types that they speak of.
#![tactic(auto)]

mod command;
mod connection;
mod ctx;
mod hash_command;
mod keys;
mod laws;
mod list_command;
mod lists;
mod set_command;
mod stream_command;
mod stream_lists;
mod times;
mod word;
mod zset_command;

pub use command::{
    Command, Condition, GetExOptionsRead, SetOptions, SetOptionsRead, StringCommand,
};
pub use connection::ConnectionCommand;
pub use ctx::Ctx;
pub use hash_command::HashCommand;
pub use keys::{CopyOptions, ExpireOptions, KeyCommand, ScanOptions};
pub use laws::{replies_fix_the_run, runs_are_covered};
pub use list_command::{ListCommand, ListEnd, PositionOptions, Side};
pub use lists::{PairList, ScoreList, WordList};
pub use plain_world::{Bytes, LONGEST, Line, Memory, Part, Parts, Refusal, Reply};
pub use set_command::{SetCommand, SetJoin};
pub use stream_command::{AppendOptions, EntryId, NewId, StreamCommand, Trim};
pub use stream_lists::{IdList, ReadList};
pub use times::{Lifetime, Renewal, Time, TimeOrigin, TimeUnit};
pub use word::Word;
pub use zset_command::{
    AddOptions, Aggregate, Direction, Limit, RangeOptions, ScoreBound, ScoreJoin, ScoreRules,
    ZsetCommand,
};
