//! Laws of the definitions, as contracts of functions that do nothing.

ghost use Rattle.plain_model.specs.Laws.{RepliesFixTheRun, RunsAreCovered};

/// The bytes of a run's replies fix the replies, and the world that the run leaves.
pub fn replies_fix_the_run()
    ensures { RepliesFixTheRun }
{}

/// Each complete scan of a run reports every element that stayed from its first call to its last, and none that was never
/// there (Redis command reference, "Scan guarantees").
pub fn runs_are_covered()
    ensures { RunsAreCovered }
{}
