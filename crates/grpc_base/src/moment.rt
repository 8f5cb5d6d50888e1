// Moments and durations in nanoseconds, each within its limit.
ghost use Rattle.std.specs.Prelude.{◌≡◌, ◌<◌, ◌≤◌, IfSome, IfNone};
ghost use Rattle.grpc_base.specs.Limits.{moment_limit, duration_limit};

use std::marker::Model;

/// A moment in nanoseconds, at most 4,000,000,000,000,000,000.
#[derive(Clone, Copy, Debug, PartialEq, Eq, PartialOrd, Ord)]
pub struct Moment {
    nanos: u64,
}

impl Model for Moment {
    ghost use Rattle.std.specs.Prelude.{ℕ, ◌≤◌};
    ghost use Rattle.grpc_base.specs.Limits.{moment_limit};

    ghost Value = { ℕ };

    ghost view = { λ m. m.nanos };

    ghost invariant = { λ m. m.nanos ≤ moment_limit };

    ghost inverse = { λ n. record { nanos = n } };
}

impl Moment {
    /// The latest moment.
    pub const LIMIT: u64 = 4_000_000_000_000_000_000;

    /// The moment of so many nanoseconds; None exactly above the limit.
    pub fn new(nanos: u64) -> Option<Moment>
        ensures some { IfSome result (λ m. m ≡ nanos) }
        ensures none { IfNone result (moment_limit < nanos) }
        ensures within { IfSome result (λ m. m ≤ moment_limit) }
    {
        if nanos <= Moment::LIMIT {
            Some(Moment { nanos })
        } else {
            None
        }
    }

    /// Nanoseconds.
    pub fn nanos(self) -> u64
        ensures value { result ≡ self }
        ensures within { result ≤ moment_limit }
    {
        self.nanos
    }
}

/// A duration in nanoseconds, at most 1,000,000,000,000,000,000.
#[derive(Clone, Copy, Debug, PartialEq, Eq, PartialOrd, Ord)]
pub struct Duration {
    nanos: u64,
}

impl Model for Duration {
    ghost use Rattle.std.specs.Prelude.{ℕ, ◌≤◌};
    ghost use Rattle.grpc_base.specs.Limits.{duration_limit};

    ghost Value = { ℕ };

    ghost view = { λ d. d.nanos };

    ghost invariant = { λ d. d.nanos ≤ duration_limit };

    ghost inverse = { λ n. record { nanos = n } };
}

impl Duration {
    /// The longest duration.
    pub const LIMIT: u64 = 1_000_000_000_000_000_000;

    /// The duration of so many nanoseconds; None exactly above the limit.
    pub fn new(nanos: u64) -> Option<Duration>
        ensures some { IfSome result (λ d. d ≡ nanos) }
        ensures none { IfNone result (duration_limit < nanos) }
        ensures within { IfSome result (λ d. d ≤ duration_limit) }
    {
        if nanos <= Duration::LIMIT {
            Some(Duration { nanos })
        } else {
            None
        }
    }

    /// Nanoseconds.
    pub fn nanos(self) -> u64
        ensures value { result ≡ self }
        ensures within { result ≤ duration_limit }
    {
        self.nanos
    }
}
