//! Why a command is refused.

/// Why a command is refused. Each variant is one error reply.
#[derive(Clone, Copy, Debug, PartialEq, Eq)]
pub enum Refusal {
    UnknownCommand,
    WrongNumberOfArguments,
    Syntax,
    WrongType,
    NotAnInteger,
    Overflow,
    NotAScore,
    NotAWholeScore,
    NoSuchKey,
    IndexOutOfRange,
    InvalidExpireTime,
    InvalidCursor,
    InvalidStreamId,
    StreamIdNotGreater,
    NoGreaterStreamId,
    DatabaseOutOfRange,
    ValueOutOfRange,
    SameSourceAndDestination,
    GroupExists,
    NoSuchGroup,
    NestedMulti,
    ExecAbort,
    ExecWithoutMulti,
    DiscardWithoutMulti,
    WatchInsideMulti,
}
