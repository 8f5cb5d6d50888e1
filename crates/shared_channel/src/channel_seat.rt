// A thread's handle of a shared channel, with its clock and its random words.
ghost use Rattle.std.specs.Prelude.{◌≡◌, ◌+◌, ℕ, Some, IfOk, false};
ghost use Rattle.grpc_base.specs.Counts.{one_more};
ghost use Rattle.grpc_base.specs.Posts.{CountsErrors, Posts, is_full, is_not_yet};
ghost use Rattle.grpc_base.specs.declared.event.Event.TheVariants as event;
ghost use Rattle.grpc_base.specs.declared.post.Look.TheVariants as look;
ghost use Rattle.channel_core.specs.Applying.{can_drain_in};
ghost use Rattle.shared_channel.specs.Turns.{CanSend, CanTake, Looks, ShowsView, TakesPlace, entries_of, share_of, words_of};
ghost use Rattle.turn_lock.specs.History.{Ascends, Stands, merged};
ghost use Rattle.turn_lock.specs.Turn.{Sees};

use crate::bell::{Bell, is_news};
use crate::jobs::{AtDrain, AtSend, AtTake, AtView, SendStep, Step, TakeStep, moment_of};
use crate::owed::Owed;
use crate::shared::{Seat, Shared};
use crate::tally::Tally;
use gate_io::{Clock, Draws, GivenUp, NotesLack};
use grpc_base::{Caller, Event, Glance, Look, Octets, Post, PostError, Reply, Stamped, View};
use lb_policy::Balancer;
use std::sync::Wait;
use turn_lock::{Chronicle, TurnLock};

/// A thread's handle of a shared channel, with the clock and the random words of its entries. Each of its calls but `into_seat`
/// and `take_in` may wait for other threads.
#[derive(Drop)]
pub struct ChannelSeat<'a, P: Balancer, W, C: Clock, D: Draws>
where
    Shared<P>: Chronicle,
{
    pub(crate) rt: &'a W,
    pub(crate) lock: &'a TurnLock<Shared<P>>,
    pub(crate) bell: &'a Bell,
    pub(crate) seat: Seat<P>,
    pub(crate) clock: &'a C,
    pub(crate) draws: D,
    /// The word of its next entry.
    pub(crate) next: u64,
    pub(crate) tally: Tally,
    /// Where its looks note that a link is given up.
    pub(crate) given_up: Option<GivenUp>,
    /// What those that keep links open are to be notified of, of its posts.
    pub(crate) owed: Owed,
    ghost own: { seat.lock ≡ lock.now },
}

impl<'a, P: Balancer, W, C: Clock, D: Draws> ChannelSeat<'a, P, W, C, D> {
    /// Gives the handle of the lock back.
    pub fn into_seat(self) -> Seat<P>
        ensures { result ≡ self.entry.seat }
    {
        self.seat
    }

    /// From now on it notes here each link of which `can_drain` finds that it is given up.
    pub fn note_given_up(&mut self, note: GivenUp)
        ensures kept { (self.new.seat ≡ self.old.seat) × (self.new.clock.now ≡ self.old.clock.now) × (self.new.next ≡ self.old.next) × (self.new.draws ≡ self.old.draws) × (self.new.tally ≡ self.old.tally) }
    {
        self.given_up = Some(note);
    }

    /// Takes in another handle of the channel: its parts and its own entries, which stand in order in what is then seen. Waits for nobody.
    pub fn take_in(&mut self, mut other: Seat<P>)
        requires lock { other.lock ≡ self.old.seat.lock }
        ensures joined { self.new.seat ≡ record self.old.seat { seen = self.new.seat.seen; own = merged self.old.seat.own other.own; parts = self.old.seat.parts + other.parts } }
        ensures sees { Sees self.old.seat self.new.seat }
        ensures other { Stands self.new.seat.seen other.own × Ascends 0 other.own }
        ensures kept { (self.new.clock.now ≡ self.old.clock.now) × (self.new.next ≡ self.old.next) × (self.new.draws ≡ self.old.draws) × (self.new.tally ≡ self.old.tally) }
    {
        // The look shows the order of the other's entries, which the joined lists don't.
        self.lock.front(&mut other);
        self.lock.join_seat(&mut self.seat, other);
    }
}

/// Notes a link that is given up, where that is wanted.
fn note_link(note: &Option<GivenUp>, link: u32, is_given_up: bool) {
    if let Some(note) = note {
        if is_given_up {
            note.note(link);
        }
    }
}

impl<P: Balancer, W: Wait, C: Clock, D: Draws> Post for ChannelSeat<'_, P, W, C, D> {
    ghost made = { λ s. entries_of s.seat.own };

    ghost errors = { λ s. s.tally.errors };

    ghost last_error = { λ s. s.tally.last_error };

    ghost looks = { λ s. s.tally.looks };

    ghost last_look = { λ s. s.tally.last_look };

    ghost share = { λ s. share_of s.seat };

    /// One step of the channel, at the clock's moment and with the next random word. The step is the last of a history that begins
    /// with all that the handle had seen.
    fn post(&mut self, event: Event) -> Result<Reply, PostError>
        ensures made { Posts (entries_of self.old.seat.own) (entries_of self.new.seat.own) event result }
        ensures errors { CountsErrors self.old.tally.errors self.new.tally.errors self.old.tally.last_error self.new.tally.last_error result }
        ensures looks { (self.new.tally.looks ≡ self.old.tally.looks) × (self.new.tally.last_look ≡ self.old.tally.last_look) }
        ensures share { share_of self.new.seat ≡ share_of self.old.seat }
        ensures place { TakesPlace (C.may_give self.old.clock.now) (words_of self.old.next (D.words self.old.draws) 0) event result self.old.seat self.new.seat }
        ensures words { (k : ℕ) → words_of self.new.next (D.words self.new.draws) k ≡ words_of self.old.next (D.words self.old.draws) (k + 1) }
    {
        let is_news = is_news(&event);
        let owed = self.owed.afterwards(&event);
        let mut step = Step {
            stamped: Stamped {
                moment: moment_of(self.clock.now()),
                word: self.next,
                event,
            },
            bell: self.bell,
            is_news,
        };
        self.next = self.draws.word();
        let result = self.lock.turn(self.rt, &mut self.seat, &mut step);
        self.bell.wake();
        self.clock.wake(owed.now());
        self.owed = owed.left();
        self.tally.posted(&result);
        result
    }
}

impl<P: Balancer, W: Wait, C: Clock, D: Draws> Glance for ChannelSeat<'_, P, W, C, D> {
    /// The channel's state, and what it waits for. Its state is SHUTDOWN too where nothing more happens in it: a step found no room for
    /// what came of a link, or for a Shutdown, or ran out of memory half way.
    fn glance(&mut self) -> View
        ensures made { entries_of self.new.seat.own ≡ entries_of self.old.seat.own }
        ensures errors { (self.new.tally.errors ≡ self.old.tally.errors) × (self.new.tally.last_error ≡ self.old.tally.last_error) }
        ensures looks { (self.new.tally.looks ≡ one_more self.old.tally.looks) × (self.new.tally.last_look ≡ Some (look.Glance result)) }
        ensures share { share_of self.new.seat ≡ share_of self.old.seat }
        ensures reported { Looks (λ core. ShowsView core result) self.old.seat self.new.seat }
    {
        let view = self.lock.turn(self.rt, &mut self.seat, &mut AtView);
        self.tally.looked(Look::Glance { view });
        view
    }

    fn can_drain(&mut self, link: u32) -> bool
        ensures made { entries_of self.new.seat.own ≡ entries_of self.old.seat.own }
        ensures errors { (self.new.tally.errors ≡ self.old.tally.errors) × (self.new.tally.last_error ≡ self.old.tally.last_error) }
        ensures looks { (self.new.tally.looks ≡ one_more self.old.tally.looks) × (self.new.tally.last_look ≡ Some (look.CanDrain link result)) }
        ensures share { share_of self.new.seat ≡ share_of self.old.seat }
        ensures reported { Looks (λ core. result ≡ can_drain_in link core.state) self.old.seat self.new.seat }
    {
        let mut look = AtDrain {
            link,
            is_given_up: false,
        };
        let answer = self.lock.turn(self.rt, &mut self.seat, &mut look);
        note_link(&self.given_up, link, look.is_given_up);
        self.tally.looked(Look::CanDrain { link, answer });
        answer
    }

    fn can_take(&mut self, call: u32) -> bool
        ensures made { entries_of self.new.seat.own ≡ entries_of self.old.seat.own }
        ensures errors { (self.new.tally.errors ≡ self.old.tally.errors) × (self.new.tally.last_error ≡ self.old.tally.last_error) }
        ensures looks { (self.new.tally.looks ≡ one_more self.old.tally.looks) × (self.new.tally.last_look ≡ Some (look.CanTake call result)) }
        ensures share { share_of self.new.seat ≡ share_of self.old.seat }
        ensures reported { Looks (CanTake call result) self.old.seat self.new.seat }
    {
        self.clock.wake(self.owed.at_wait());
        self.owed = Owed::Nothing;
        let answer = self
            .lock
            .turn(self.rt, &mut self.seat, &mut AtTake { call });
        self.tally.looked(Look::CanTake { call, answer });
        answer
    }

    fn can_send(&mut self, call: u32, len: u32) -> bool
        ensures made { entries_of self.new.seat.own ≡ entries_of self.old.seat.own }
        ensures errors { (self.new.tally.errors ≡ self.old.tally.errors) × (self.new.tally.last_error ≡ self.old.tally.last_error) }
        ensures looks { (self.new.tally.looks ≡ one_more self.old.tally.looks) × (self.new.tally.last_look ≡ Some (look.CanSend call len result)) }
        ensures share { share_of self.new.seat ≡ share_of self.old.seat }
        ensures reported { Looks (CanSend call len result) self.old.seat self.new.seat }
    {
        self.clock.wake(self.owed.at_wait());
        self.owed = Owed::Nothing;
        let answer = self
            .lock
            .turn(self.rt, &mut self.seat, &mut AtSend { call, len });
        self.tally.looked(Look::CanSend { call, len, answer });
        answer
    }
}

impl<P: Balancer, W: Wait, C: Clock, D: Draws> Caller for ChannelSeat<'_, P, W, C, D> {
    /// One Take, as soon as something has come for the call: it looks, and again when another thread's event has brought something for it,
    /// and every 50 ms. Where nothing has come, and a look finds that nothing more happens in the channel, or that a worker beside the calls
    /// ended for want of memory, the answer is NoMemory, and all is as before.
    /// The clock is read at each look, and the entry has the last of these moments and the next random word.
    fn await_take(&mut self, call: u32) -> Result<Reply, PostError>
        ensures made { Posts (entries_of self.old.seat.own) (entries_of self.new.seat.own) (event.Take call) result }
        ensures come { IfOk result (λ r. is_not_yet r ≡ false) }
        ensures errors { CountsErrors self.old.tally.errors self.new.tally.errors self.old.tally.last_error self.new.tally.last_error result }
        ensures looks { (self.new.tally.looks ≡ self.old.tally.looks) × (self.new.tally.last_look ≡ self.old.tally.last_look) }
        ensures share { share_of self.new.seat ≡ share_of self.old.seat }
        ensures place { TakesPlace (C.may_give self.old.clock.now) (words_of self.old.next (D.words self.old.draws) 0) (event.Take call) result self.old.seat self.new.seat }
        ensures words { (k : ℕ) → words_of self.new.next (D.words self.new.draws) k ≡ words_of self.old.next (D.words self.old.draws) (k + 1) }
    {
        let bell = self.bell;
        let waiter = bell.wait_for(call);
        for _ in self.rt.forever() {
            let rings = waiter.rings();
            let mut take = TakeStep {
                moment: moment_of(self.clock.now()),
                word: self.next,
                call,
                bell,
            };
            if let Some(result) = self.lock.turn(self.rt, &mut self.seat, &mut take) {
                waiter.leave();
                bell.wake();
                self.next = self.draws.word();
                self.tally.posted(&result);
                return result;
            }
            self.clock.wake(self.owed.at_wait());
            self.owed = Owed::Nothing;
            let left = waiter.sleep(self.rt, rings);
            self.clock.pause(left);
        }
        unreachable!()
    }

    /// One Send, as soon as the call has room for the message: it looks, and again as for a Take, and ends without as that. The clock is read
    /// at each look, and the entry has the last of these moments and the next random word.
    fn await_send(&mut self, call: u32, message: Octets) -> Result<Reply, PostError>
        ensures made { Posts (entries_of self.old.seat.own) (entries_of self.new.seat.own) (event.Send call message) result }
        ensures taken { IfOk result (λ r. is_full r ≡ false) }
        ensures errors { CountsErrors self.old.tally.errors self.new.tally.errors self.old.tally.last_error self.new.tally.last_error result }
        ensures looks { (self.new.tally.looks ≡ self.old.tally.looks) × (self.new.tally.last_look ≡ self.old.tally.last_look) }
        ensures share { share_of self.new.seat ≡ share_of self.old.seat }
        ensures place { TakesPlace (C.may_give self.old.clock.now) (words_of self.old.next (D.words self.old.draws) 0) (event.Send call message) result self.old.seat self.new.seat }
        ensures words { (k : ℕ) → words_of self.new.next (D.words self.new.draws) k ≡ words_of self.old.next (D.words self.old.draws) (k + 1) }
    {
        let mut send = SendStep {
            moment: moment_of(0),
            word: self.next,
            call,
            message,
            bell: self.bell,
        };
        let bell = self.bell;
        let waiter = bell.wait_for_room(call);
        for _ in self.rt.forever() {
            let rings = waiter.rings();
            send.moment = moment_of(self.clock.now());
            if let Some(result) = self.lock.turn(self.rt, &mut self.seat, &mut send) {
                waiter.leave();
                bell.wake();
                self.next = self.draws.word();
                self.tally.posted(&result);
                let owed = self.owed.after_send();
                self.clock.wake(owed.now());
                self.owed = owed.left();
                return result;
            }
            self.clock.wake(self.owed.at_wait());
            self.owed = Owed::Nothing;
            let left = waiter.sleep(self.rt, rings);
            self.clock.pause(left);
        }
        unreachable!()
    }
}

impl<P: Balancer, W: Wait, C: Clock, D: Draws> NotesLack for ChannelSeat<'_, P, W, C, D> {
    /// From now on an awaited Take or Send of any handle for which nothing has come is answered NoMemory, and those that wait are woken.
    fn note_lack(&mut self)
        ensures made { entries_of self.new.seat.own ≡ entries_of self.old.seat.own }
        ensures errors { (self.new.tally.errors ≡ self.old.tally.errors) × (self.new.tally.last_error ≡ self.old.tally.last_error) }
        ensures looks { (self.new.tally.looks ≡ self.old.tally.looks) × (self.new.tally.last_look ≡ self.old.tally.last_look) }
        ensures share { share_of self.new.seat ≡ share_of self.old.seat }
        ensures same { self.new.seat ≡ self.old.seat }
    {
        self.bell.note_lack();
    }
}
