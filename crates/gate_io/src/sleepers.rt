// Those that wait for the links of a world's dialers, and how others wake them.
use mio::Waker;
use std::sync::Mutex;
use std::sync::atomic::{AtomicBool, AtomicU64, Ordering};

/// One that waits for the links of its dialer. Nothing rests on a wake: each wait has an end.
#[derive(Drop)]
pub(crate) struct Sleeper {
    /// How often there was news for it. At its type's end it begins anew.
    news: AtomicU64,
    /// How much of that there was when its last wait ended: what came since may not have been seen by its user's looks.
    known: AtomicU64,
    is_asleep: AtomicBool,
    /// How many links its dialer opened that are not closed so far.
    links: AtomicU64,
    /// What ends its wait, from its first one on.
    waker: Mutex<Option<Waker>>,
}

impl Sleeper {
    /// One that is awake, and has no links.
    pub(crate) fn new() -> Sleeper {
        Sleeper {
            news: AtomicU64::new(0),
            known: AtomicU64::new(0),
            is_asleep: AtomicBool::new(false),
            links: AtomicU64::new(0),
            waker: Mutex::new(None),
        }
    }

    /// From now on this ends its waits.
    pub(crate) fn wake_by(&self, waker: Waker) {
        if let Some(mut place) = self.waker.try_lock() {
            *place = Some(waker);
        }
    }

    /// Its dialer opened a link.
    pub(crate) fn opened(&self) {
        self.links.fetch_add(1, Ordering::SeqCst);
    }

    /// A link that its dialer had opened is closed.
    pub(crate) fn closed(&self) {
        self.links.fetch_sub(1, Ordering::SeqCst);
    }

    /// Whether it has links.
    pub(crate) fn has_links(&self) -> bool {
        self.links.load(Ordering::SeqCst) > 0
    }

    /// There is news for it: if it waits, the wait ends, and else its next one is none.
    pub(crate) fn receive(&self) {
        self.news.fetch_add(1, Ordering::SeqCst);
        if self.is_asleep.swap(false, Ordering::SeqCst) {
            self.end_wait();
        }
    }

    fn end_wait(&self) {
        // Whoever has the waker at this moment ends the same wait.
        if let Some(place) = self.waker.try_lock() {
            if let Some(waker) = &*place {
                let _ = waker.wake();
            }
        }
    }

    /// Whether it is to wait now: there was no news since its last wait ended. From then on news ends its wait.
    pub(crate) fn falls_asleep(&self) -> bool {
        self.is_asleep.store(true, Ordering::SeqCst);
        self.news.load(Ordering::SeqCst) == self.known.load(Ordering::SeqCst)
    }

    /// Its wait ended: what its user looks at from now on has all news so far.
    pub(crate) fn wakes_up(&self) {
        self.is_asleep.store(false, Ordering::SeqCst);
        self.known
            .store(self.news.load(Ordering::SeqCst), Ordering::SeqCst);
    }
}
