// Where threads wait for something to come for a call, and what wakes them.
use channel_core::ChannelCore;
use gate_io::Pause;
use grpc_base::{Event, NoMemory};
use lb_policy::Balancer;
use std::alloc::Global;
use std::sync::Wait;
use std::sync::atomic::{AtomicBool, AtomicU64, Ordering};
use std::time::Duration;

/// How many milliseconds a sleep takes that no ring ends: whoever waits looks again as often as that.
const SLEEP: u64 = 50;

/// How many threads wait at once with a place of their own. Further ones look again and again.
const PLACES: usize = 32;

/// In a place's word, a thread that waits for room, and not for what comes.
const FOR_ROOM: u64 = 1 << 33;

/// One place to wait at.
#[derive(Drop)]
struct Place {
    /// For which call a thread waits here, and 1 more; 0 where none does.
    call: AtomicU64,
    /// How often it was rung for. At its type's end it begins anew.
    rings: AtomicU64,
    is_asleep: AtomicBool,
    /// Whether it was rung for, and the thread is still to be woken.
    is_rung: AtomicBool,
}

impl Place {
    fn new() -> Place {
        Place {
            call: AtomicU64::new(0),
            rings: AtomicU64::new(0),
            is_asleep: AtomicBool::new(false),
            is_rung: AtomicBool::new(false),
        }
    }

    /// Whether it was free, and now has this word.
    fn is_taken_by(&self, word: u64) -> bool {
        self.call.load(Ordering::SeqCst) == 0
            && self
                .call
                .compare_exchange(0, word, Ordering::SeqCst, Ordering::SeqCst)
                .is_ok()
    }

    /// Notes that the thread here is to look again.
    fn ring(&self) {
        self.rings.fetch_add(1, Ordering::SeqCst);
        self.is_rung.store(true, Ordering::SeqCst);
    }

    /// Wakes the thread that sleeps here, where it was rung for.
    fn wake(&self) {
        if self.is_rung.load(Ordering::SeqCst)
            && self.is_rung.swap(false, Ordering::SeqCst)
            && self.is_asleep.load(Ordering::SeqCst)
        {
            self.rings.wake_all();
        }
    }
}

/// Where threads wait. A thread has a place as long as it waits, and whose step brings something for its call rings for it. Nothing rests on
/// a ring: each sleep has an end.
#[derive(Drop)]
pub(crate) struct Bell {
    places: Vec<Place>,
    /// Whether a worker beside the calls ended for want of memory, so that what they wait for may never come.
    lacks: AtomicBool,
}

impl Bell {
    /// A bell at which nobody waits.
    pub(crate) fn new(alloc: Global) -> Result<Bell, NoMemory> {
        let mut places = Vec::new(alloc);
        while places.len() < PLACES {
            places.push(Place::new())?;
        }
        Ok(Bell {
            places,
            lacks: AtomicBool::new(false),
        })
    }

    /// A place for a thread that waits for what comes for a call. It has it before it looks, so that no ring after the look is missed.
    pub(crate) fn wait_for(&self, call: u32) -> Waiter<'_> {
        self.waiter(u64::from(call) + 1)
    }

    /// A place for a thread that waits for room in a call.
    pub(crate) fn wait_for_room(&self, call: u32) -> Waiter<'_> {
        self.waiter(FOR_ROOM + u64::from(call))
    }

    fn waiter(&self, word: u64) -> Waiter<'_> {
        Waiter {
            place: self.free_place(word),
        }
    }

    fn free_place(&self, word: u64) -> Option<&Place> {
        for place in self.places.iter() {
            if place.is_taken_by(word) {
                return Some(place);
            }
        }
        None
    }

    /// In a turn, after a step: rings for those for whose calls something has come. Those that wait for room all look again.
    pub(crate) fn ring<P: Balancer>(&self, core: &ChannelCore<P>) {
        for place in self.places.iter() {
            let word = place.call.load(Ordering::SeqCst);
            if word != 0 && (word >= FOR_ROOM || has_come(core, word)) {
                place.ring();
            }
        }
    }

    /// Notes that a worker beside the calls ended for want of memory, and wakes all that wait.
    pub(crate) fn note_lack(&self) {
        self.lacks.store(true, Ordering::SeqCst);
        for place in self.places.iter() {
            place.ring();
            place.wake();
        }
    }

    /// Whether a worker beside the calls ended for want of memory.
    pub(crate) fn lacks(&self) -> bool {
        self.lacks.load(Ordering::SeqCst)
    }

    /// After a turn: wakes those that were rung for.
    pub(crate) fn wake(&self) {
        for place in self.places.iter() {
            place.wake();
        }
    }
}

/// Whether something has come for the call of a place, of which its word is 1 more.
fn has_come<P: Balancer>(core: &ChannelCore<P>, word: u64) -> bool {
    match u32::try_from(word.saturating_sub(1)) {
        Ok(call) => core.can_take(call),
        Err(_) => true,
    }
}

/// A thread that waits, at a place of its own where one was free.
#[derive(Clone, Copy)]
pub(crate) struct Waiter<'b> {
    place: Option<&'b Place>,
}

impl Waiter<'_> {
    /// How often it was rung for, by the lower 32 bits. It is asked before looking.
    pub(crate) fn rings(&self) -> u32 {
        match self.place {
            Some(place) => (place.rings.load(Ordering::SeqCst) & u64::from(u32::MAX)) as u32,
            None => 0,
        }
    }

    /// Sleeps until it is rung for, unless it was since it had so many rings, and gives the pause that is left to be made: a short one where
    /// it has no place.
    pub(crate) fn sleep<W: Wait>(&self, rt: &W, rings: u32) -> Pause {
        match self.place {
            Some(place) => {
                place.is_asleep.store(true, Ordering::SeqCst);
                place
                    .rings
                    .park_timeout(rt, rings, Duration::from_millis(SLEEP));
                place.is_asleep.store(false, Ordering::SeqCst);
                Pause::None
            }
            None => Pause::Short,
        }
    }

    /// Waits no more.
    pub(crate) fn leave(&self) {
        if let Some(place) = self.place {
            place.call.store(0, Ordering::SeqCst);
        }
    }
}

/// Whether an event may bring something to a call that another thread waits for: none does that the call's own thread posts.
pub(crate) fn is_news(event: &Event) -> bool {
    !matches!(
        event,
        Event::Begin { .. } | Event::Send { .. } | Event::Finish { .. } | Event::Take { .. }
    )
}
