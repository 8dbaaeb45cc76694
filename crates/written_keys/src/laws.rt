//! A law of the definitions, as the contract of a function that does nothing.

ghost use Rattle.written_keys.specs.Laws.{OthersStay};

/// Where a command doesn't write, there stands what stood there.
pub fn others_stay()
    ensures { OthersStay }
{}
