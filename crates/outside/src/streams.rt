//! Where bytes come from, and where they go.

ghost use Rattle.std.specs.Prelude.{◌≤◌, ◌<◌, length, IfOk};
ghost use Rattle.outside.specs.Streams.{SourceSeen, SinkSeen, Takes, PutsSome};

use crate::{ReadFault, WriteFault};

/// Bytes that come in order.
pub trait Source {
    // What is told of it.
    ghost seen: { Self → SourceSeen };

    /// Takes the next bytes, and says how many they are. 0 for a slice that isn't empty is the end.
    ///
    /// `ReadFault` comes only where the count of faults rose, and then nothing is taken; a take that succeeds leaves the
    /// count.
    fn take(&mut self, into: &mut [u8]) -> Result<usize, ReadFault>
        ensures bound { IfOk result (λ n. n ≤ length into.new) }
        ensures takes { Takes (seen self.old) (seen self.new) result into.new };
}

/// Where bytes go, in order.
pub trait Sink {
    // What is told of it.
    ghost seen: { Self → SinkSeen };

    /// Puts a front of the piece, and says how long it is. It isn't empty unless the piece is.
    ///
    /// `WriteFault` comes only where the count of faults rose, and then nothing is put; a put that succeeds leaves the count.
    fn put(&mut self, piece: &[u8]) -> Result<usize, WriteFault>
        ensures bound { IfOk result (λ n. n ≤ length piece.now) }
        ensures some { IfOk result (λ n. 0 < length piece.now → 0 < n) }
        ensures puts { PutsSome (seen self.old) (seen self.new) result piece.now };
}
