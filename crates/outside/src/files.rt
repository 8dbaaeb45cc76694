//! Files that are read or written by name.

ghost use Rattle.std.specs.Prelude.{◌≤◌, ◌<◌, length, IfOk};
ghost use Rattle.outside.specs.Files.{HostSeen, ShelfSeen, Begins, TakesOf, Makes, PutsOn, Keeps};

use crate::HostFault;

/// Files that are read by name, one at a time.
pub trait Host {
    // What is told of it.
    ghost seen: { Self → HostSeen };

    /// Begins the file of this name at its first byte, in place of the one that was begun.
    ///
    /// `HostFault` comes only where the count of faults rose, and then no file is begun; a call that succeeds leaves the
    /// count.
    fn begin(&mut self, name: &str) -> Result<(), HostFault>
        ensures { Begins (seen self.old) (seen self.new) name.now result };

    /// Takes the next bytes of the file that is begun, and says how many they are.
    /// 0 for a slice that isn't empty is its end, or says that no file is begun.
    ///
    /// `HostFault` comes only where the count of faults rose, and then nothing is taken; a call that succeeds leaves the
    /// count.
    fn take(&mut self, into: &mut [u8]) -> Result<usize, HostFault>
        ensures bound { IfOk result (λ n. n ≤ length into.new) }
        ensures takes { TakesOf (seen self.old) (seen self.new) result into.new };
}

/// Files that are written by name, one at a time.
pub trait Shelf {
    // What is told of it.
    ghost seen: { Self → ShelfSeen };

    /// Begins the bytes of this name anew: they are none.
    ///
    /// `HostFault` comes only where the count of faults rose, and then no name is made; a call that succeeds leaves the count.
    fn make(&mut self, name: &str) -> Result<(), HostFault>
        ensures { Makes (seen self.old) (seen self.new) name.now result };

    /// Puts a front of the piece behind the bytes of the name that is made, and says how long it is. It isn't empty unless
    /// the piece is.
    ///
    /// `HostFault` comes only where the count of faults rose, and where no name is made; a call that succeeds leaves the
    /// count.
    fn put(&mut self, piece: &[u8]) -> Result<usize, HostFault>
        ensures bound { IfOk result (λ n. n ≤ length piece.now) }
        ensures some { IfOk result (λ n. 0 < length piece.now → 0 < n) }
        ensures puts { PutsOn (seen self.old) (seen self.new) result piece.now };

    /// Ends the bytes of the name that is made: the name has them from now on, in place of those that it had before it was
    /// made, also where the process ends.
    ///
    /// `HostFault` comes only where the count of faults rose, and where no name is made; a call that succeeds leaves the
    /// count.
    fn keep(&mut self) -> Result<(), HostFault>
        ensures { Keeps (seen self.old) (seen self.new) result };
}
