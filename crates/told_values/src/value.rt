//! Values as contracts see them.

ghost use Rattle.std.specs.Prelude.{◌≡◌, ◌↔◌, IsTrue};
ghost use Rattle.told_values.specs.Told.{told, IsOrdered};

use crate::kind::Kind;
use std::marker::Model;

/// A value that was read out, of one of the six types: a string, a list, a set, a hash, a sorted set or a stream with its groups.
/// Contracts see the plain value: sets, hashes and sorted sets are finite maps, in no order.
#[derive(Drop)]
pub struct Held {
    kind: Kind,
}

impl Model for Held {
    ghost use Rattle.plain_world.specs.Worlds.{Value as Value_};
    ghost use Rattle.told_values.specs.Codes.{value_code};

    ghost Value = { Value_ };

    ghost coded = { value_code };

    ghost use Rattle.told_values.specs.Told.{told as seen, IsOrdered as Orderly};

    ghost view = { λ h. seen h.kind };

    ghost invariant = { λ h. Orderly h.kind };
}

impl Held {
    // What was read out, as a value.
    pub(crate) fn new(kind: Kind) -> Held
        requires { IsOrdered kind }
        ensures { result ≡ told kind }
    {
        Held { kind }
    }

    /// Whether both are the same value.
    pub fn same(&self, other: &Held) -> bool
        ensures { IsTrue result ↔ (self.now ≡ other.now) }
    {
        self.kind.same(&other.kind)
    }
}
