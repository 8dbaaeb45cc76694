//! Laws of the definitions, as contracts of functions that do nothing.

ghost use Rattle.generator.specs.Laws.{RunsAreOne};

/// Each command that is drawn has one answer: two runs of the first n commands of a seed from one world have the same replies,
/// and leave the same world.
pub fn generated_runs_are_one()
    ensures { RunsAreOne }
{}
