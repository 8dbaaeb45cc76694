//! The real clock.

ghost use Rattle.std.specs.Prelude.{◌≡◌, ◌<◌, ◌/◌, ◌^◌, None, OnErr, IfOk, if◌then◌else◌, nat_lt};
ghost use Rattle.std.specs.Duration.{as_nanos};
ghost use Rattle.outside.specs.Clocks.{Tells};

use crate::Clock;
use std::time::Duration;
use std::{io, time};

/// The clock of a runtime. Where it can't be read the last answer is given again, 0 at first.
#[derive(Drop)]
pub struct SystemClock<R> {
    runtime: R,
    last: u64,
}

impl<R: time::Clock> SystemClock<R> {
    /// The clock of this runtime.
    pub fn new(runtime: R) -> SystemClock<R>
        ensures { result.last ≡ 0 }
    {
        SystemClock { runtime, last: 0 }
    }
}

impl<R: time::Clock + Drop> Clock for SystemClock<R> {
    ghost answers = { λ _. None };

    fn now(&mut self) -> u64
        ensures tells { Tells None result None }
        ensures last { self.new.last ≡ result }
    {
        self.last = moment_of(self.runtime.since_1970(), self.last);
        self.last
    }
}

// The milliseconds that were read, or the last answer where none were, or more than the greatest u64.
fn moment_of(read: io::Result<Duration>, last: u64) -> u64
    ensures unread { OnErr read (result ≡ last) }
    ensures read { IfOk read (λ time. result ≡ (if nat_lt (as_nanos time / 1_000_000) (2 ^ 64) then as_nanos time / 1_000_000 else last)) }
{
    match read {
        Ok(time) => u64::try_from(time.as_millis()).unwrap_or(last),
        Err(_) => last,
    }
}
