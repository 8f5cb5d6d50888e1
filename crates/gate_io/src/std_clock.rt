// The system's clock.
ghost use Rattle.std.specs.Prelude.{◌≤◌};
ghost use Rattle.std.specs.Bool.{⊤};
ghost use Rattle.grpc_base.specs.Limits.{moment_limit};

use crate::sleepers::Sleeper;
use crate::{Clock, Pause, Woken};
use grpc_base::Moment;
use std::sync::Arc;
use std::thread::sleep;
use std::time;
use std::time::UNIX_EPOCH;

/// The clock of the system. It gives 0 where the system's clock cannot be read.
#[derive(Drop)]
pub struct StdClock<R> {
    rt: R,
    /// Those that wait for links of the same world.
    sleepers: Option<Vec<Arc<Sleeper>>>,
}

impl<R: time::Clock> StdClock<R> {
    /// The clock of this runtime.
    pub fn new(rt: R) -> StdClock<R> {
        StdClock { rt, sleepers: None }
    }

    /// The clock of a world in which these wait for links.
    pub(crate) fn beside(rt: R, sleepers: Vec<Arc<Sleeper>>) -> StdClock<R> {
        StdClock {
            rt,
            sleepers: Some(sleepers),
        }
    }
}

/// Nanoseconds since the beginning of 1970, at most the latest moment; 0 where the clock cannot be read.
pub(crate) fn nanos_now<R: time::Clock>(rt: &R) -> u64
    ensures { result ≤ moment_limit }
{
    let Ok(time) = time::SystemTime::now(rt) else {
        return 0;
    };
    let Ok(since) = time.duration_since(UNIX_EPOCH) else {
        return 0;
    };
    u64::try_from(since.as_nanos())
        .unwrap_or(Moment::LIMIT)
        .min(Moment::LIMIT)
}

impl<R: time::Clock + Send + Sync + Drop> Clock for StdClock<R> {
    ghost may_give = { λ _ _. ⊤ };

    fn now(&self) -> u64 {
        nanos_now(&self.rt)
    }

    fn pause(&self, pause: Pause) {
        if let Some(time) = pause.time() {
            sleep(&self.rt, time);
        }
    }

    fn wake(&self, whom: Woken) {
        let Some(sleepers) = &self.sleepers else {
            return;
        };
        match whom {
            Woken::Nobody => {}
            Woken::Linked => wake_some(sleepers, !any_has_links(sleepers)),
            Woken::All => wake_some(sleepers, true),
        }
    }
}

/// Whether one of these has links.
fn any_has_links(sleepers: &[Arc<Sleeper>]) -> bool {
    for sleeper in sleepers.iter() {
        if sleeper.has_links() {
            return true;
        }
    }
    false
}

/// Says that there is news for all of these, or for those that have links.
fn wake_some(sleepers: &[Arc<Sleeper>], everyone: bool) {
    for sleeper in sleepers.iter() {
        if everyone || sleeper.has_links() {
            sleeper.receive();
        }
    }
}
