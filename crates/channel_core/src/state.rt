// The channel but for its journal: what each of the sixteen events does, and how the channel settles after it.
ghost use Rattle.std.specs.Prelude.{◌≡◌, IfOk, OnOk, map, true};
ghost use Rattle.grpc_base.specs.Authorities.{IsAuthority};
ghost use Rattle.policy_rack.specs.Kinds.{are_ready};
ghost use Rattle.channel_core.specs.Applying as applying;
ghost use Rattle.channel_core.specs.Books.{can_take_at, slot_at};
ghost use Rattle.channel_core.specs.Steps as steps;

mod acts;
mod applications;
mod arriving;
mod authority;
mod book;
mod buckets;
mod call_event;
mod connecting;
mod draining;
mod links;
mod settling;
mod slots;
mod timers;

use crate::bytes_of::DRAINED;
use applications::within_limit;
use attempt_ledger::Ledger;
use authority::Authority;
use book::Book;
use call_event::CallEvent;
use channel_net::Net;
use grpc_base::{Conn, Event, Items, KindSet, Moment, NoMemory, Refusal, Reply, Text, View};
use lb_policy::Balancer;
use links::LinkTable;
use picker_gate::{Gate, Timers};
use resolver_core::Resolver;
use service_config::Config;
use std::alloc::Global;
use std::marker::Model;
use timers::{earlier, take_due};

/// A channel without its journal.
#[derive(Drop)]
pub struct State<P: Balancer> {
    alloc: Global,
    /// The random word of the step, and how many draws the step made.
    word: u64,
    drawn: u64,
    shut: bool,
    resolver: Resolver,
    /// The last valid config.
    held: Option<Config>,
    /// Whether the resolver failed, or gave an invalid config, before any valid one was held.
    unconfigured: bool,
    book: Book,
    net: Net<P>,
    links: LinkTable,
    /// The outstanding attempts, each as its link and its row.
    outstanding: Gate,
    /// The attempts that wait for a pick: those of calls that do not wait for ready, and those of calls that do.
    queue: Gate,
    ready_waiters: Gate,
    /// The due moments and the deadlines of calls.
    dues: Timers,
    deadlines: Timers,
    /// The calls without a configuration; and of these, those whose application does not wait for ready.
    awaiting_config: Timers,
    fail_fast: Timers,
    /// The links with resets that are still to be sealed.
    resets: Items<u32>,
}

impl<P: Balancer> Model for State<P> {
    ghost use Rattle.channel_core.specs.States.{StateSeen};

    ghost Value = { StateSeen };

    ghost view = { λ s. record {
      word = s.word;
      drawn = s.drawn;
      shut = s.shut;
      resolver = s.resolver;
      held = s.held;
      unconfigured = s.unconfigured;
      book = s.book;
      net = s.net;
      links = s.links;
      outstanding = s.outstanding;
      queue = s.queue;
      ready_waiters = s.ready_waiters;
      dues = s.dues;
      deadlines = s.deadlines;
      awaiting_config = s.awaiting_config;
      fail_fast = s.fail_fast;
      resets = s.resets;
    } };
}

impl<P: Balancer> State<P> {
    /// A channel whose requests have this authority, and which balances by these policies.
    pub fn new(alloc: Global, authority: Text, policies: Vec<P>) -> Result<State<P>, NoMemory>
        requires authority { IsAuthority authority }
        requires policies { are_ready (map P.seen policies.items) ≡ true }
        ensures { IfOk result (λ s. s ≡ applying.new_state alloc authority (map P.seen policies.items)) }
    {
        let book = Book::new(alloc, Authority::new(authority), Moment::new(0).unwrap())?;
        Ok(State {
            alloc,
            word: 0,
            drawn: 0,
            shut: false,
            resolver: Resolver::new(),
            held: None,
            unconfigured: false,
            book,
            net: Net::new(alloc, policies),
            links: LinkTable::new(alloc),
            outstanding: Gate::new(alloc),
            queue: Gate::new(alloc),
            ready_waiters: Gate::new(alloc),
            dues: Timers::new(alloc),
            deadlines: Timers::new(alloc),
            awaiting_config: Timers::new(alloc),
            fail_fast: Timers::new(alloc),
            resets: Items::new(alloc),
        })
    }

    /// One step but for its entry in the journal: what is due by its moment, the event, and what it settles.
    pub fn step(
        &mut self,
        entry: u64,
        moment: Moment,
        word: u64,
        event: &Event,
    ) -> Result<Reply, NoMemory>
        ensures { IfOk result (applying.Stepped entry moment word event.now self.old self.new) }
    {
        self.begin_step(entry, moment, word);
        self.end_overdue()?;
        let reply = self.apply(event)?;
        self.settle()?;
        Ok(reply)
    }

    fn begin_step(&mut self, entry: u64, moment: Moment, word: u64)
        ensures { self.new ≡ applying.begun_at entry moment word self.old }
    {
        self.book.ledger.entry = entry;
        self.book.moment = moment;
        self.word = word;
        self.drawn = 0;
    }

    /// Ends the calls whose deadline has come, the earliest first. Mostly there is none.
    #[tactic(auto, using(crate::proofs::Idling::none_overdue))]
    fn end_overdue(&mut self) -> Result<(), NoMemory>
        ensures { OnOk result (self.new ≡ steps.overdue_ended self.old) }
    {
        let moment = self.book.moment.nanos();
        let Some(_) = self.deadlines.first_due(moment) else {
            return Ok(());
        };
        self.end_each(moment)
    }

    #[tactic(auto, using(crate::proofs::Asking::all_timed_out_by), unfolding(crate::specs::Steps::overdue_ended))]
    fn end_each(&mut self, moment: u64) -> Result<(), NoMemory>
        requires { moment ≡ self.old.book.moment }
        ensures { OnOk result (self.new ≡ steps.overdue_ended self.old) }
    {
        let calls = take_due(self.alloc, &mut self.deadlines, moment)?;
        self.act_on_all(calls, &CallEvent::Deadline)?;
        Ok(())
    }

    /// Answers an event: refuses it, or applies it.
    fn apply(&mut self, event: &Event) -> Result<Reply, NoMemory>
        ensures { IfOk result (applying.Answers event.now self.old self.new) }
    {
        match self.refused(event) {
            Some(refusal) => Ok(Reply::Refused { refusal }),
            None => self.applied(event),
        }
    }

    /// The first refusal that stands, of those that the channel itself gives.
    fn refused(&self, event: &Event) -> Option<Refusal>
        ensures { result ≡ applying.refusal_of event.now self.now }
    {
        match event {
            Event::Tick | Event::Shutdown => None,
            Event::Take { call } => self.book.lacks_call(*call),
            _ if self.shut => Some(Refusal::Shut),
            Event::Send { call, message: _ } | Event::Finish { call } | Event::Cancel { call } => {
                self.book.lacks_call(*call)
            }
            Event::Arrived { link, piece: _ }
            | Event::LinkLost { link }
            | Event::Ping { link, word: _ } => self.lacks_link(*link),
            Event::Drain { link, room } => match self.lacks_link(*link) {
                Some(refusal) => Some(refusal),
                None if *room < LEAST_ROOM => Some(Refusal::RoomTooSmall),
                None => None,
            },
            _ => None,
        }
    }

    /// Applies an event that is not refused.
    fn applied(&mut self, event: &Event) -> Result<Reply, NoMemory>
        ensures { IfOk result (applying.Applies event.now self.old self.new) }
    {
        match event {
            Event::Begin { request } => self.begin(request),
            Event::Send { call, message } => self.act_on(*call, &CallEvent::Send(message.share()?)),
            Event::Finish { call } => Ok(self.book.finish(*call)),
            Event::Take { call } => Ok(within_limit(self.alloc, self.book.take(*call)?)),
            Event::Cancel { call } => self.act_on(*call, &CallEvent::Cancel),
            Event::Resolved { addresses, config } => {
                self.resolved(addresses.as_list(), config.as_ref())
            }
            Event::ResolveFailed => Ok(self.resolve_failed()),
            Event::TakeDial => Ok(self.take_dial()),
            Event::LinkUp { sub } => self.link_up(*sub),
            Event::DialFailed { sub } => Ok(self.dial_failed(*sub)),
            Event::Arrived { link, piece } => self.arrived(*link, piece.as_slice()),
            Event::LinkLost { link } => {
                self.lose(*link, true)?;
                Ok(Reply::Done)
            }
            Event::Drain { link, room } => self.drain(*link, (*room).min(DRAINED)),
            Event::Ping { link, word } => {
                self.links.ping(*link, *word)?;
                Ok(Reply::Done)
            }
            Event::Tick => Ok(Reply::Done),
            Event::Shutdown => self.shut_down(),
        }
    }

    /// The channel's connectivity state.
    pub fn conn(&self) -> Conn
        ensures { result ≡ applying.conn_of self.now }
    {
        if self.shut {
            return Conn::Shutdown;
        }
        match self.net.state() {
            Some(state) => state,
            None if self.unconfigured => Conn::Failure,
            None => Conn::Idle,
        }
    }

    /// What the channel did so far.
    pub fn ledger(&self) -> &Ledger
        ensures { result.now ≡ self.now.book.ledger }
    {
        &self.book.ledger
    }

    /// What a look at the channel shows, with its state after the last step and whether it is spent.
    pub fn view(&self, state: Conn, spent: bool) -> View
        ensures { result ≡ record { state = state; wants_resolution = self.now.resolver; next = applying.next_of self.now; dialable = applying.is_dialable_in self.now; spent = spent } }
    {
        let next_of_calls = earlier(self.dues.next(), self.deadlines.next());
        View {
            state,
            wants_resolution: self.resolver.wants_resolution(),
            next: earlier(next_of_calls, self.net.next()),
            dialable: self.net.dialable(),
            spent,
        }
    }

    /// Whether a take of this call would be answered with something.
    pub fn can_take(&self, call: u32) -> bool
        ensures { result ≡ can_take_at (slot_at self.now.book call) }
    {
        self.book
            .calls
            .get(call)
            .is_none_or(|slot| slot.call.can_take(&self.book.ledger))
    }

    /// Whether a message of so many bytes would not find the call full.
    pub fn can_send(&self, call: u32, len: u32) -> bool
        ensures { result ≡ applying.can_send_in len call self.now }
    {
        self.shut
            || self
                .book
                .calls
                .get(call)
                .is_none_or(|slot| slot.call.can_send(len))
    }

    /// Whether a drain of this link would not be refused, and would give something.
    pub fn can_drain(&self, link: u32) -> bool
        ensures { result ≡ applying.can_drain_in link self.now }
    {
        !self.shut && self.lacks_link(link).is_none() && self.links.can_drain(link, &self.book)
    }
}

/// The largest frame: a header of 9 bytes and a payload of 16,384.
const LEAST_ROOM: u32 = 16_393;
