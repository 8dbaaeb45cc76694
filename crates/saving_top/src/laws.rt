//! Laws of the definitions, as contracts of functions that do nothing.

ghost use Rattle.saving_top.specs.Laws.{EnginesAreFit, FramesAreShort};

/// No word of a request that stands in a stream has more than 512 MiB.
pub fn frames_are_short()
    ensures { FramesAreShort }
{}

/// What an engine of the program holds can be written as an RDB file, from its begin or the file that it loaded on, whatever
/// such requests it answered and whatever it did between them.
pub fn engines_are_fit()
    ensures { EnginesAreFit }
{}
