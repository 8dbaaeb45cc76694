//! Times in the words of commands, and what they make of deadlines.

ghost use Rattle.std.specs.Prelude.{◌≡◌, ◌<◌, ◌^◌, ◌*ℤ◌, pos, unsigned_abs, IfSome, IfNone, FitsSigned};
ghost use Rattle.std.specs.Int.{w64};
ghost use Rattle.plain_model.specs.Deadlines.{due, milliseconds, begins};

/// What a time is counted in.
#[derive(Clone, Copy, Debug)]
pub enum TimeUnit {
    Seconds,
    Milliseconds,
}

/// What a time is counted from.
#[derive(Clone, Copy, Debug)]
pub enum TimeOrigin {
    /// The moment at which the command runs.
    Now,
    /// Moment 0.
    Epoch,
}

/// A deadline as words give it: so many units from an origin on.
#[derive(Clone, Copy, Debug)]
pub struct Time {
    pub unit: TimeUnit,
    pub from: TimeOrigin,
    pub n: i64,
}

impl TimeOrigin {
    // Its moment, where the command runs at this one.
    fn begins(self, moment: u64) -> u64
        ensures { result ≡ begins moment self }
    {
        match self {
            TimeOrigin::Now => moment,
            TimeOrigin::Epoch => 0,
        }
    }
}

impl Time {
    // Its milliseconds from the origin on.
    fn milliseconds(self) -> i128
        ensures is { result ≡ self.n *ℤ pos (milliseconds self.unit) }
        ensures few { unsigned_abs result < 2 ^ 74 }
    {
        match self.unit {
            TimeUnit::Seconds => i128::from(self.n) * 1000,
            TimeUnit::Milliseconds => i128::from(self.n),
        }
    }

    /// The deadline in milliseconds, where the command runs at this moment. `None` where 64 bits with a sign don't hold it.
    pub fn due(self, moment: u64) -> Option<i64>
        ensures some { IfSome result (λ n. n ≡ due moment self) }
        ensures none { IfNone result (¬ (FitsSigned w64 (due moment self))) }
    {
        let sum = self.milliseconds() + i128::from(self.from.begins(moment));
        match i64::try_from(sum) {
            Ok(n) => Some(n),
            Err(_) => None,
        }
    }
}

/// The deadline of what SET writes.
#[derive(Clone, Copy, Debug)]
pub enum Lifetime {
    /// None.
    Forever,
    /// `KEEPTTL`: that of what stood at the key.
    Kept,
    /// `EX`, `PX`, `EXAT` or `PXAT`.
    Until(Time),
}

/// What becomes of a key's deadline when GETEX reads it.
#[derive(Clone, Copy, Debug)]
pub enum Renewal {
    /// It stays.
    Unchanged,
    /// `PERSIST`: it goes.
    Persist,
    /// `EX`, `PX`, `EXAT` or `PXAT`.
    Until(Time),
}
