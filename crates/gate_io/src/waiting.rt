// Waiting for all links of a dialer at once.
use crate::sleepers::Sleeper;
use mio::net::TcpStream;
use mio::{Events, Interest, Poll, Token, Waker};
use std::alloc::Global;
use std::io::ErrorKind;
use std::net::Net;
use std::sync::{Arc, Mutex};
use std::thread::sleep;
use std::time::Duration;
use std::{io, time};

/// How many events one wait reports, at most.
const EVENTS: usize = 16;

/// The least time of the system's wait for links, in nanoseconds, by whose multiples it waits.
const TICK: u64 = 1_000_000;

/// A wait that is shorter than the system's is for no links; it takes at most so many nanoseconds.
const NAP: u64 = 250_000;

/// What is waited for: that bytes came on a link of these, that it takes some again, or that another thread ends the wait. A link that is
/// closed leaves the set by itself.
#[derive(Drop)]
struct LinkSet {
    poll: Poll,
    events: Events<Global>,
}

/// The links of a dialer, for which the one who uses it waits.
#[derive(Drop)]
pub(crate) struct Waiting {
    alloc: Global,
    /// From the first link or the first wait on.
    set: Mutex<Option<LinkSet>>,
    /// Where others say that there is news.
    sleeper: Option<Arc<Sleeper>>,
}

impl Waiting {
    /// No links so far. Where there is a sleeper, its news ends a wait.
    pub(crate) fn new(alloc: Global, sleeper: Option<Arc<Sleeper>>) -> Waiting {
        Waiting {
            alloc,
            set: Mutex::new(None),
            sleeper,
        }
    }

    /// Adds a link.
    pub(crate) fn add<R: Net>(&self, rt: &R, stream: &mut TcpStream) -> io::Result<()> {
        let Some(mut place) = self.set.try_lock() else {
            return Err(io::Error::from(ErrorKind::WouldBlock));
        };
        let set = self.filled(rt, &mut place)?;
        let both = Interest::READABLE | Interest::WRITABLE;
        set.poll.registry().register(stream, Token(0), both)
    }

    /// Notes that a link was opened, and gives who is to be notified when it is closed.
    pub(crate) fn opened(&self) -> Option<Arc<Sleeper>> {
        let sleeper = self.sleeper.as_ref()?.clone().ok()?;
        sleeper.opened();
        Some(sleeper)
    }

    /// The set, which is made where there is none.
    fn filled<'s, R: Net>(
        &self,
        rt: &R,
        place: &'s mut Option<LinkSet>,
    ) -> io::Result<&'s mut LinkSet> {
        if place.is_none() {
            *place = Some(self.new_set(rt)?);
        }
        match place {
            Some(set) => Ok(set),
            None => Err(io::Error::from(ErrorKind::NotFound)),
        }
    }

    /// A set of no links, whose waits the sleeper's news ends.
    fn new_set<R: Net>(&self, rt: &R) -> io::Result<LinkSet> {
        let poll = Poll::new(rt)?;
        let events = Events::with_capacity(self.alloc, EVENTS)?;
        if let Some(sleeper) = &self.sleeper {
            sleeper.wake_by(Waker::new(poll.registry(), Token(1))?);
        }
        Ok(LinkSet { poll, events })
    }

    /// Waits until something changed at a link, there is news, or so many nanoseconds, and says whether it waited, or had no need to. It
    /// waits for nothing where there was news since the last wait.
    pub(crate) fn wait<R: Net + time::Clock>(&self, rt: &R, nanos: u64) -> bool {
        let Some(mut place) = self.set.try_lock() else {
            return false;
        };
        let Ok(set) = self.filled(rt, &mut place) else {
            return false;
        };
        let waited = !self.falls_asleep(nanos) || wait_at(rt, set, nanos);
        if let Some(sleeper) = &self.sleeper {
            sleeper.wakes_up();
        }
        waited
    }

    /// Whether it is to wait for so long now.
    fn falls_asleep(&self, nanos: u64) -> bool {
        if nanos == 0 {
            return false;
        }
        match &self.sleeper {
            Some(sleeper) => sleeper.falls_asleep(),
            None => true,
        }
    }
}

/// Waits for links, or sleeps where the time is less than the system can wait for them, and says whether it did.
fn wait_at<R: time::Clock>(rt: &R, set: &mut LinkSet, nanos: u64) -> bool {
    if nanos < TICK {
        sleep(rt, Duration::from_nanos(nanos.min(NAP)));
        return true;
    }
    let time = Duration::from_millis(nanos / TICK);
    set.poll.poll(&mut set.events, Some(time)).is_ok()
}
