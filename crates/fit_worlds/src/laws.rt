//! Laws of the definitions, as contracts of functions that do nothing.

ghost use Rattle.fit_worlds.specs.Laws.{BegunIsFit, LiveIsFit, StepsKeepFit, RunsKeepFit};

/// A server that was just begun holds a world that an RDB file can hold.
pub fn begun_is_fit()
    ensures { BegunIsFit }
{}

/// Such a world stays one as time passes and keys are gone.
pub fn live_is_fit()
    ensures { LiveIsFit }
{}

/// A request leaves such a world where it was run in one, if each of its words has at most 512 MiB.
pub fn steps_keep_fit()
    ensures { StepsKeepFit }
{}

/// So does a whole run of such requests.
pub fn runs_keep_fit()
    ensures { RunsKeepFit }
{}
