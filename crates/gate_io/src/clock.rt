// Clocks.
ghost use Rattle.std.specs.Prelude.{◌≡◌, ◌<◌, ◌≤◌, ℕ, All, length};
ghost use Rattle.grpc_base.specs.Limits.{moment_limit};

use crate::Pause;
use std::marker::Model;
use std::sync::atomic::{AtomicUsize, Ordering};
use std::thread::yield_now;

/// Whom of those that wait for links there is news for.
#[derive(Clone, Copy, Debug, PartialEq, Eq)]
pub enum Woken {
    Nobody,
    /// Those that have links; all, where none has one.
    Linked,
    All,
}

/// What has the time, in nanoseconds since the beginning of 1970, at most 4,000,000,000,000,000,000, and lets time
/// pass. A clock may go back.
pub trait Clock: Send + Sync + Drop {
    /// The moments that the clock may give.
    ghost may_give: { Self → ℕ → Type 0 };

    /// The moment that it is.
    fn now(&self) -> u64
        ensures given { may_give self.now result }
        ensures within { result ≤ moment_limit };

    /// Lets the time of a pause pass; a clock that is not the system's only lets other threads run.
    fn pause(&self, pause: Pause);

    /// Says that there is news for some of those that wait for links of the same world (`Dialer::wait`). It ends a wait that is under way,
    /// or else the next one.
    fn wake(&self, _whom: Woken) {}
}

/// A clock that gives the moments of a list one after another, and then the last one again and again.
#[derive(Debug, Drop)]
pub struct ListClock {
    moments: Vec<u64>,
    at: AtomicUsize,
}

impl Model for ListClock {
    ghost use Rattle.std.specs.Prelude.{ℕ, List, ◌<◌, ◌≤◌, All, length};
    ghost use Rattle.grpc_base.specs.Limits.{moment_limit};

    ghost Value = { List ℕ };

    ghost view = { λ c. c.moments.items };

    ghost invariant = { λ c. (0 < length c.moments.items) × All (λ m. m ≤ moment_limit) c.moments.items };
}

impl ListClock {
    /// A clock that gives these moments, at least one.
    pub fn new(moments: Vec<u64>) -> ListClock
        requires some { 0 < length moments.items }
        requires within { All (λ m. m ≤ moment_limit) moments.items }
        ensures { result ≡ moments.items }
    {
        ListClock {
            moments,
            at: AtomicUsize::new(0),
        }
    }
}

impl Clock for ListClock {
    ghost use Rattle.std.specs.Prelude.{Contains};

    ghost may_give = { λ c m. Contains c m };

    fn now(&self) -> u64 {
        let last = self.moments.len() - 1;
        let mut at = self.at.load(Ordering::SeqCst);
        if at < last {
            at = self.at.fetch_add(1, Ordering::SeqCst);
        }
        self.moments[at.min(last)]
    }

    fn pause(&self, _: Pause) {
        yield_now();
    }
}
