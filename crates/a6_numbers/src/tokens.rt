// The token bucket that throttles retries and hedges.
ghost use Rattle.std.specs.Prelude.{◌≡◌, ◌≤◌};
ghost use Rattle.a6_numbers.specs.Throttling.{after_failure, after_success, full, is_above};

use grpc_base::Throttle;
use std::marker::Model;

/// The tokens of all calls that one config throttles, in thousandths, so that a ratio of three decimals is exact
/// (gRFC A6, "Throttling Retry Attempts and Hedged RPCs").
#[derive(Debug, Drop)]
pub struct Tokens {
    throttle: Throttle,
    count: u32,
}

impl Model for Tokens {
    ghost use Rattle.std.specs.Prelude.{◌≤◌};
    ghost use Rattle.a6_numbers.specs.Throttling.{Bucket};

    ghost Value = { Bucket };

    ghost view = { λ t. record { start = t.throttle.start; ratio = t.throttle.ratio; count = t.count } };

    ghost invariant = { λ t. t.count ≤ t.throttle.start };
}

impl Tokens {
    /// One failure takes a whole token.
    const FAILURE: u32 = 1_000;

    /// A full bucket.
    pub fn new(throttle: Throttle) -> Tokens
        ensures { result ≡ full throttle }
    {
        Tokens {
            throttle,
            count: throttle.start,
        }
    }

    /// An attempt failed: one token less, not below 0.
    pub fn failure(&mut self)
        ensures { self.new ≡ after_failure self.old }
    {
        self.count = self.count.saturating_sub(Tokens::FAILURE);
    }

    /// An attempt succeeded: the ratio more, not above the start.
    pub fn success(&mut self)
        ensures { self.new ≡ after_success self.old }
    {
        self.count = self
            .count
            .saturating_add(self.throttle.ratio)
            .min(self.throttle.start);
    }

    /// Whether more than half of the tokens are there, so that a further attempt may be made.
    pub fn above(&self) -> bool
        ensures { result ≡ is_above self.now }
    {
        u64::from(self.throttle.start) < 2 * u64::from(self.count)
    }

    /// The tokens that are there, in thousandths.
    pub fn count(&self) -> u32
        ensures value { result ≡ self.now.count }
        ensures within { result ≤ self.now.start }
    {
        self.count
    }
}
