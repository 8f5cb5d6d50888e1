// How long one waits who tries again and again.
ghost use Rattle.std.specs.Prelude.{◌≡◌, ℕ};
ghost use Rattle.grpc_base.specs.Counts.{one_more};
ghost use Rattle.gate_io.specs.Waits.{pause_after};

use std::marker::Model;
use std::time::Duration;

/// How long a pause is.
#[derive(Clone, Copy, Debug, PartialEq, Eq)]
pub enum Pause {
    /// No time at all.
    None,
    /// 20 microseconds, for which a system's timers mostly take 50 more.
    Brief,
    /// 1 ms.
    Short,
    /// 5 ms.
    Long,
}

impl Pause {
    /// The time that it takes; None for no time at all.
    pub(crate) fn time(self) -> Option<Duration> {
        match self {
            Pause::None => None,
            Pause::Brief => Some(Duration::from_micros(20)),
            Pause::Short => Some(Duration::from_millis(1)),
            Pause::Long => Some(Duration::from_millis(5)),
        }
    }
}

/// So many tries that found nothing are each after a brief pause: some hundred microseconds in all.
const BRIEF_TRIES: u64 = 8;

/// So many more are each after a short pause.
const SHORT_TRIES: u64 = 20;

/// Counts tries that found nothing, and says how long to pause before the next: right after one that found something not
/// at all, and the longer the more of them found nothing.
#[derive(Debug, Drop)]
pub struct PollDelay {
    misses: u64,
    /// Whether a try found something since this was last asked.
    has_found: bool,
}

impl Model for PollDelay {
    ghost use Rattle.std.specs.Prelude.{ℕ};

    ghost Value = { ℕ };

    ghost view = { λ p. p.misses };
}

impl PollDelay {
    /// As right after a try that found something.
    pub fn new() -> PollDelay
        ensures { result ≡ 0 }
    {
        PollDelay {
            misses: 0,
            has_found: false,
        }
    }

    /// A try found something.
    pub fn hit(&mut self)
        ensures { self.new ≡ 0 }
    {
        self.misses = 0;
        self.has_found = true;
    }

    /// Whether a try found something since this was last asked, or the first one was made.
    pub fn takes_find(&mut self) -> bool
        ensures { self.new ≡ self.old }
    {
        let found = self.has_found;
        self.has_found = false;
        found
    }

    /// A try found nothing.
    pub fn miss(&mut self)
        ensures { self.new ≡ one_more self.old }
    {
        self.misses = self.misses.saturating_add(1);
    }

    /// How long to pause before the next try.
    pub fn pause(&self) -> Pause
        ensures { result ≡ pause_after self.now }
    {
        if self.misses == 0 {
            Pause::None
        } else if self.misses <= BRIEF_TRIES {
            Pause::Brief
        } else if self.misses <= BRIEF_TRIES + SHORT_TRIES {
            Pause::Short
        } else {
            Pause::Long
        }
    }
}
