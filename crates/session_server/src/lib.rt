//! What answers the requests of several sessions.
#![tactic(auto)]

ghost use Rattle.std.specs.Prelude.{◌≡◌, ℕ};
ghost use Rattle.plain_world.specs.Words.{Words};
ghost use Rattle.plain_model.specs.Meant.{asks_to_quit};

use serving::Server;

/// What answers the requests of several sessions, one after the other: each is one of the session that it was turned to last.
/// What its `executes` says of a request, it says for that session, which its states keep.
pub trait Sessions: Server {
    // It is turned to the session of this number, on the way from one state to another.
    ghost turns: { ℕ → Self → Self → Type 0 };

    /// Turns to a session, whose requests follow. QUIT alone ends one.
    fn turn_to(&mut self, session: u16)
        ensures turns { turns session self.old self.new }
        ensures quits { (words : Words) → Self.quits words ≡ asks_to_quit words };
}
