//! What time it is.

ghost use Rattle.std.specs.Prelude.{Option};
ghost use Rattle.outside.specs.Clocks.{Answers, Tells};

/// What time it is, in milliseconds.
pub trait Clock: Drop {
    // The answers that follow, where they are told.
    ghost answers: { Self → Option Answers };

    /// The time now, in milliseconds. It can't fail, and may go back.
    fn now(&mut self) -> u64
        ensures { Tells (answers self.old) result (answers self.new) };
}
