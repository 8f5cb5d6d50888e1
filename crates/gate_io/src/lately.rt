// The last dial to each address, of which the dialers of a world know together.
use grpc_base::{Address, NoMemory};
use std::alloc::Global;
use std::sync::Arc;
use std::sync::atomic::{AtomicBool, Ordering};

/// gRPC's first wait between two connections, in nanoseconds. So long after its end a dial that nobody answered is not made again.
const FIRST_WAIT: u64 = 1_000_000_000;

/// A connection to an address that is dialled anew so many nanoseconds after it, and on which no answer came, was of no use.
const BRIEF: u64 = 250_000_000;

/// After so many connections of no use, one after another, the next dial to their address is not made.
const MOST_BRIEF: u32 = 3;

/// The last dial to an address.
#[derive(Drop)]
struct LastDial {
    to: Address,
    at: u64,
    /// When it is given up.
    until: u64,
    /// Whether an answer came on its connection.
    answered: Arc<AtomicBool>,
    /// How many connections were of no use before it, one after another.
    brief: u32,
    /// Whether the dial after it was not made.
    is_passed: bool,
}

impl LastDial {
    fn new(alloc: Global, to: Address, at: u64, until: u64) -> Result<LastDial, NoMemory> {
        Ok(LastDial {
            to,
            at,
            until,
            answered: Arc::new(alloc, AtomicBool::new(false))?,
            brief: 0,
            is_passed: false,
        })
    }

    /// Whether a dial at a moment is not to be made: nobody answered this one, or its connection was of no use, as those before it. The
    /// second dial after it is made.
    fn is_too_soon(&mut self, now: u64) -> bool {
        if self.is_passed {
            return false;
        }
        let ran_out = self.until <= now && now < self.until.saturating_add(FIRST_WAIT);
        let is_brief = now < self.at.saturating_add(BRIEF) && !self.answered.load(Ordering::SeqCst);
        self.brief = if is_brief {
            self.brief.saturating_add(1)
        } else {
            0
        };
        self.is_passed = ran_out || self.brief >= MOST_BRIEF;
        self.is_passed
    }
}

/// The last dial to each address.
#[derive(Drop)]
pub(crate) struct Lately {
    alloc: Global,
    dials: Vec<LastDial>,
}

/// What becomes of a dial.
#[derive(Drop)]
pub(crate) enum Turn {
    /// It is made, and it is noted whether an answer comes, where there was memory for a note of it.
    Made(Option<Arc<AtomicBool>>),
    /// It is not made.
    TooSoon,
}

impl Lately {
    pub(crate) fn new(alloc: Global) -> Lately {
        Lately {
            alloc,
            dials: Vec::new(alloc),
        }
    }

    /// Whether a dial to an address is made at a moment, which is given up at the moment `until`. It is not where the last one has just run to
    /// its end, or where the last three connections to it were of no use. So an address that answers nothing, or that ends each connection
    /// right after its SETTINGS, is seen to fail. Only one dial after such an end is not made.
    pub(crate) fn dial(&mut self, to: Address, until: u64, now: u64) -> Turn {
        for last in self.dials.iter_mut() {
            if last.to == to {
                if last.is_too_soon(now) {
                    return Turn::TooSoon;
                }
                return again(self.alloc, last, until, now);
            }
        }
        let Ok(dial) = LastDial::new(self.alloc, to, now, until) else {
            return Turn::Made(None);
        };
        let reported = reported_by(&dial);
        // Where there is no memory for the note, the next dial is made.
        let _ = self.dials.push(dial);
        Turn::Made(reported)
    }
}

/// Notes that an address is dialled again.
fn again(alloc: Global, last: &mut LastDial, until: u64, now: u64) -> Turn {
    let Ok(mut dial) = LastDial::new(alloc, last.to, now, until) else {
        return Turn::Made(None);
    };
    dial.brief = last.brief;
    let reported = reported_by(&dial);
    *last = dial;
    Turn::Made(reported)
}

/// Where the connection of a dial notes that an answer came; None where there is no memory.
fn reported_by(dial: &LastDial) -> Option<Arc<AtomicBool>> {
    dial.answered.clone().ok()
}
