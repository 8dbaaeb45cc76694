//! Laws of the definitions, as contracts of functions that do nothing.

ghost use Rattle.plain_sessions.specs.Laws.{PiecesAreThere, PiecesAreOne, ArrivalsAreThere, ArrivalsAreOne, ArrivalsOnlyGrow, EachSessionIsAStream, OneStreamIsASession, UnitsAreApart, MomentsNeverFall, HistoriesAreRuns, HistoriesAreCovered, NullWhereChanged, OneSessionIsARun};

/// Any bytes are pieces and a rest, however many sessions there are.
pub fn pieces_are_there()
    ensures { PiecesAreThere }
{}

/// Bytes are pieces and a rest in one way.
pub fn pieces_are_one()
    ensures { PiecesAreOne }
{}

/// Any bytes have arrivals.
pub fn arrivals_are_there()
    ensures { ArrivalsAreThere }
{}

/// Bytes have one list of arrivals.
pub fn arrivals_are_one()
    ensures { ArrivalsAreOne }
{}

/// Whatever bytes follow, the arrivals go on.
pub fn arrivals_only_grow()
    ensures { ArrivalsOnlyGrow }
{}

/// Each session is a stream of its own: what arrives of it is what its own bytes say (RESP2, "Sending commands to a Redis
/// server").
pub fn each_session_is_a_stream()
    ensures { EachSessionIsAStream }
{}

/// Where one session alone sends, what arrives are the frames of its bytes.
pub fn one_stream_is_a_session()
    ensures { OneStreamIsASession }
{}

/// A unit tells its session and what is told, whatever stands behind it.
pub fn units_are_apart()
    ensures { UnitsAreApart }
{}

/// The moments of a history never fall.
pub fn moments_never_fall()
    ensures { MomentsNeverFall }
{}

/// The commands that all sessions ran are one run, in which those of one EXEC are neighbours (Redis documentation,
/// "Transactions").
pub fn histories_are_runs()
    ensures { HistoriesAreRuns }
{}

/// Each complete scan of a history reports what stayed throughout it (Redis command reference, "Scan guarantees").
pub fn histories_are_covered()
    ensures { HistoriesAreCovered }
{}

/// EXEC is answered by the null array exactly where a watched key has changed (Redis documentation, "Transactions",
/// "Optimistic locking using check-and-set").
pub fn null_where_changed()
    ensures { NullWhereChanged }
{}

/// Where one session alone asks, for plain commands, what it is answered is what a stream of its own is answered.
pub fn one_session_is_a_run()
    ensures { OneSessionIsARun }
{}
