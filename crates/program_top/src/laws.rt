//! A law of the definitions, as the contract of a function that does nothing.

ghost use Rattle.program_top.specs.Generating.{LinesAreOne};

/// The lines of generated commands are a function of their number and the seed: no two texts are such lines.
pub fn generated_lines_are_one()
    ensures { LinesAreOne }
{}
