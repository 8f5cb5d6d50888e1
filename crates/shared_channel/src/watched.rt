// The channel under the lock, whether it was shut down, whether it was found nearly full, and whether it is over.
ghost use Rattle.std.specs.Prelude.{◌≡◌, ◌≤◌, ◌⊎◌, ◌||◌, true, length, IfSome, OnOk, if◌then◌else◌};
ghost use Rattle.grpc_base.specs.declared.event.Conn.TheVariants as conn;
ghost use Rattle.grpc_base.specs.Posts.{HasNoRoom};
ghost use Rattle.turn_lock.specs.History.{StartsWith};
ghost use Rattle.channel_core.specs.Sizes.{counted, journal_bytes};
ghost use Rattle.shared_channel.specs.Errors.{FindsNearlyFull, error_of};
ghost use Rattle.shared_channel.specs.Histories.{IsNearlyFull, has_shutdown, is_shutdown, state_in};
ghost use Rattle.shared_channel.specs.Running.{HasRun, IsRunning};
ghost use Rattle.grpc_base.specs.declared.event.Event.{Event};
ghost use Rattle.shared_channel.specs.Turns.{CannotGoOn, Fails, ShowsView, StepGives};

use crate::bell::Bell;
use crate::origin::Origin;
use channel_core::{ChannelCore, CoreError};
use grpc_base::limits::MESSAGE_BYTES;
use grpc_base::{Conn, Entry, Event, Moment, PostError, Reply, Stamped, View};
use journal_room::keeps_its_types;
use lb_policy::Balancer;
use std::marker::Model;

/// The most entries of a journal.
const ENTRIES: u64 = 1_048_576;

/// The most bytes of a journal.
const BYTES: u64 = 268_435_456;

/// The bytes of the largest event of a live run: an entry's own, and the longest message.
const LARGEST: u64 = 64 + MESSAGE_BYTES as u64;

/// A channel, and whether a Shutdown stands in its journal, which has at most 1,048,576 entries, and whether a step found it nearly
/// full.
#[derive(Drop)]
pub struct Watched<P: Balancer> {
    core: ChannelCore<P>,
    shut: bool,
    nearly_full: bool,
    /// Whether a step found no room for what came of a link or for a Shutdown, or ran out of memory half way.
    stopped: bool,
    /// With what the channel was new, which the core does not show.
    origin: Origin,
}

impl<P: Balancer> Model for Watched<P> {
    ghost use Rattle.std.specs.Prelude.{◌≡◌, ◌≤◌, true, length};
    ghost use Rattle.shared_channel.specs.Histories.{IsNearlyFull, has_shutdown};
    ghost use Rattle.shared_channel.specs.Running.{IsRunning, WatchedSeen};

    ghost Value = { WatchedSeen };

    ghost view = { λ w. record { core = w.core; origin = w.origin } };

    ghost invariant = { λ w. (w.shut ≡ has_shutdown w.core.journal.entries) × (length w.core.journal.entries ≤ 1048576) × IsRunning w.origin w.core × (w.nearly_full ≡ true → IsNearlyFull w.core.journal.entries) };
}

fn is_shutdown(event: &Event) -> bool
    ensures { result ≡ is_shutdown event.now }
{
    matches!(event, Event::Shutdown)
}

/// Whether one of both is so.
fn either(one: bool, other: bool) -> bool
    ensures { result ≡ (one || other) }
{
    one || other
}

/// Whether a Shutdown stands among the entries.
fn has_shutdown(entries: &[Entry]) -> bool
    ensures { result ≡ has_shutdown entries.now }
{
    let mut rest = entries;
    while let [first, tail @ ..] = rest {
        if is_shutdown(&first.event) {
            return true;
        }
        rest = tail;
    }
    false
}

/// Whether nothing more comes to a channel in which this event finds no room: one of a dial, of a link or of the clock, which a worker
/// posts that keeps links open, or a Shutdown.
fn is_needed(event: &Event) -> bool {
    matches!(
        event,
        Event::TakeDial
            | Event::LinkUp { .. }
            | Event::DialFailed { .. }
            | Event::Arrived { .. }
            | Event::LinkLost { .. }
            | Event::Drain { .. }
            | Event::Ping { .. }
            | Event::Tick
            | Event::Shutdown
    )
}

/// Whether a channel goes on no more after this error of a step of an event that is needed so.
fn stops(error: &CoreError, needed: bool) -> bool {
    match error {
        CoreError::NoMemory { spent } => *spent,
        CoreError::SessionFull { .. } => needed,
    }
}

/// One of both that is so.
fn one_of(one: bool, other: bool) -> bool {
    one || other
}

/// What a look shows of a channel that can go on, or can't.
fn shown(view: View, over: bool) -> View
    ensures { result ≡ (if over then record view { state = conn.Shutdown } else view) }
{
    if !over {
        return view;
    }
    View {
        state: Conn::Shutdown,
        ..view
    }
}

/// The error of a post whose step failed so.
fn post_error(error: CoreError) -> PostError
    ensures { result ≡ error_of error }
{
    match error {
        CoreError::NoMemory { spent } => PostError::NoMemory { spent },
        CoreError::SessionFull { entries, octets } => PostError::SessionFull { entries, octets },
    }
}

/// Whether the step found the journal nearly full.
fn finds_nearly_full(error: &CoreError) -> bool
    ensures { result ≡ true → FindsNearlyFull error.now }
{
    match error {
        CoreError::NoMemory { spent: _ } => false,
        CoreError::SessionFull { entries, octets } => {
            *entries >= ENTRIES || octets.saturating_add(LARGEST) > BYTES
        }
    }
}

impl<P: Balancer> Watched<P> {
    /// This channel, which was new with this origin and was given events.
    pub fn new(core: ChannelCore<P>, origin: Origin) -> Watched<P>
        requires limit { length core.journal.entries ≤ 1048576 }
        requires run { HasRun origin core }
        ensures { result ≡ record { core = core; origin = origin } }
    {
        let shut = has_shutdown(core.journal().entries.as_slice());
        Watched {
            core,
            shut,
            nearly_full: false,
            stopped: false,
            origin,
        }
    }

    pub fn core(&self) -> &ChannelCore<P>
        ensures core { result.now ≡ self.now.core }
        ensures running { IsRunning self.now.origin self.now.core }
    {
        &self.core
    }

    /// Whether a step found the journal nearly full.
    pub fn nearly_full(&self) -> bool
        ensures { result ≡ true → IsNearlyFull self.now.core.journal.entries }
    {
        self.nearly_full
    }

    /// Whether the channel can't go on: the session has no room for what its links bring, or a step ran out of memory half way.
    pub fn is_over(&self) -> bool
        ensures { result ≡ true → CannotGoOn self.now.core }
    {
        if !self.stopped {
            return false;
        }
        if self.nearly_full {
            return true;
        }
        self.core.view().spent
    }

    /// Whether nobody is to wait any longer: the channel can't go on, or lacks a worker that ended for want of memory.
    fn ends_waits(&self, lacks: bool) -> bool
        ensures { result ≡ true → (lacks ≡ true) ⊎ CannotGoOn self.now.core }
    {
        if lacks {
            return true;
        }
        self.is_over()
    }

    /// The error of a call that waits: none as long as the channel can go on, and lacks no worker.
    pub fn end(&self, lacks: bool) -> Option<PostError>
        ensures when { IfSome result (λ _. (lacks ≡ true) ⊎ CannotGoOn self.now.core) }
        ensures fails { IfSome result (λ error. (e : Event) → Fails e self.now.core error self.now.core) }
    {
        if !self.ends_waits(lacks) {
            return None;
        }
        let spent = self.core.view().spent;
        Some(PostError::NoMemory { spent })
    }

    /// What a look shows: SHUTDOWN too where the channel can't go on.
    pub fn view(&self) -> View
        ensures { ShowsView self.now.core result }
    {
        shown(self.core.view(), self.is_over())
    }

    /// Whether a step at a moment may bring something to calls of which its event does not speak: something is due by then.
    pub(crate) fn is_due(&self, moment: Moment) -> bool {
        match self.core.view().next {
            Some(due) => due <= moment.nanos(),
            None => false,
        }
    }

    /// Rings for those for whose calls something has come, where that may be.
    pub(crate) fn ring_if(&self, bell: &Bell, is_due: bool, is_news: bool) {
        if is_due || is_news {
            bell.ring(&self.core);
        }
    }

    /// How many entries there are.
    pub fn count(&self) -> u64
        ensures count { result ≡ length self.now.core.journal.entries }
        ensures limit { result ≤ 1048576 }
    {
        self.core.journal().entries.len() as u64
    }

    /// SHUTDOWN where a Shutdown stands in the journal, and else the state after the last entry.
    pub fn state(&self) -> Conn
        ensures { result ≡ state_in self.now.core.journal.entries }
    {
        if self.shut {
            return Conn::Shutdown;
        }
        self.core.view().state
    }

    /// One step of the channel.
    pub fn step(&mut self, stamped: Stamped) -> Result<Reply, PostError>
        ensures gives { StepGives stamped self.old.core result self.new.core }
        ensures appends { StartsWith self.new.core.journal.entries self.old.core.journal.entries }
        ensures kept { self.new.origin ≡ self.old.origin }
        ensures room { OnOk result (HasNoRoom (length self.old.core.journal.entries) (counted (journal_bytes self.old.core.journal.entries)) stamped.event → ⊥) }
    {
        let shuts = is_shutdown(&stamped.event);
        let needed = is_needed(&stamped.event);
        keeps_its_types(&stamped.event);
        match self.core.step(stamped) {
            Ok(reply) => {
                self.shut = either(self.shut, shuts);
                Ok(reply)
            }
            Err(error) => {
                self.nearly_full = either(self.nearly_full, finds_nearly_full(&error));
                self.stopped = one_of(self.stopped, stops(&error, needed));
                Err(post_error(error))
            }
        }
    }
}
