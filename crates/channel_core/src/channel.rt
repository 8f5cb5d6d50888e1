// The channel: one step for each event.
ghost use Rattle.std.specs.Prelude.{◌≡◌, ◌≤◌, ◌<◌, ◌↔◌, ℕ, List, [], true, false, Err, IfOk, IsTrue, length, map};
ghost use Rattle.grpc_base.specs.Authorities.{IsAuthority};
ghost use Rattle.grpc_base.specs.Posts.{HasNoRoom, MayReply};
ghost use Rattle.grpc_base.specs.declared.event.Event.TheVariants as event;
ghost use Rattle.grpc_base.specs.declared.event.Reply.TheVariants as reply;
ghost use Rattle.ledger_stamps.specs.Later.{Later};
ghost use Rattle.policy_rack.specs.Kinds.{are_ready};
ghost use Rattle.channel_core.specs.Applying.{can_drain_in};
ghost use Rattle.channel_core.specs.Core.{IsFull, IsNewBy, Steps, WouldReply, ledger_in, next_entry, view_of};

use crate::bytes_of::{entry_bytes, event_bytes};
use crate::kept::Kept;
use crate::state::State;
use attempt_ledger::{Journal, Ledger};
use grpc_base::{Entry, Event, NoMemory, Reply, Stamped, Text, View};
use lb_policy::Balancer;
use std::alloc::Global;
use std::marker::Model;

/// Why a step made no entry.
#[derive(Clone, Copy, Debug, PartialEq, Eq)]
pub enum CoreError {
    /// Out of memory. With `spent: false` all is as before. With `spent: true` the journal is as before,
    /// nothing is claimed of the ledger, and each later step answers the same.
    NoMemory { spent: bool },
    /// The journal has so many entries and bytes, and no room for the event: it may have 1,048,576 entries and
    /// 268,435,456 bytes. All is as before.
    SessionFull { entries: u64, octets: u64 },
}

impl From<NoMemory> for CoreError {
    ghost use Rattle.std.specs.Prelude.{◌≡◌, true};
    ghost use Rattle.channel_core.specs.declared.channel.CoreError.TheVariants as faults;

    ghost from_gives = { λ _ e. e ≡ faults.NoMemory true };

    /// What finds no memory in mid-step leaves a spent channel.
    fn from(_e: NoMemory) -> CoreError {
        CoreError::NoMemory { spent: true }
    }
}

/// The most entries of a journal.
const ENTRIES: u64 = 1_048_576;

/// The most bytes of a journal.
const BYTES: u64 = 268_435_456;

/// A gRPC channel as a pure machine: events in, replies out, and everything kept in journal and ledger.
#[derive(Drop)]
pub struct ChannelCore<P: Balancer> {
    journal: Kept,
    bytes: u64,
    state: State<P>,
    spent: bool,
}

impl<P: Balancer> Model for ChannelCore<P> {
    ghost use Rattle.std.specs.Prelude.{◌≡◌};
    ghost use Rattle.channel_core.specs.Core.{CoreSeen};
    ghost use Rattle.channel_core.specs.Sizes.{counted, journal_bytes};

    ghost Value = { CoreSeen };

    ghost view = { λ c. record {
      journal = record { entries = c.journal.entries };
      state = c.state;
      spent = c.spent;
    } };

    ghost invariant = { λ c. c.bytes ≡ counted (journal_bytes c.journal.entries) };
}

impl<P: Balancer> ChannelCore<P> {
    /// A channel whose requests have this authority, and which balances by these policies, of which no two are of one kind and one is
    /// `pick_first`. Its journal and its ledger are empty.
    pub fn new(alloc: Global, authority: Text, policies: Vec<P>) -> Result<ChannelCore<P>, NoMemory>
        requires authority { IsAuthority authority }
        requires policies { are_ready (map P.seen policies.items) ≡ true }
        ensures { IfOk result (IsNewBy alloc authority (map P.seen policies.items)) }
    {
        let state = State::new(alloc, authority, policies)?;
        Ok(ChannelCore {
            journal: Kept::new(alloc),
            bytes: 0,
            state,
            spent: false,
        })
    }

    /// One step: the event is applied at the later of its moment and the last step's, and the journal gains its entry.
    ///
    /// A journal may have 1,048,576 entries and 268,435,456 bytes; an event for which it has no room is refused, and changes
    /// nothing. An entry's bytes are 64, those of its event's path, metadata, message, piece or config, 6 for each address, and those that
    /// a drain gave; before it is made, a drain counts with the smaller of its room and 1,048,576.
    pub fn step(&mut self, stamped: Stamped) -> Result<Reply, CoreError>
        ensures ok { IfOk result (Steps self.old self.new stamped) }
        // The reply is one that the event may get.
        ensures may { IfOk result (MayReply stamped.event) }
        // It changes the ledger only as the new entry can.
        ensures stamped { IfOk result (λ reply. Later (next_entry self.old.journal.entries) (ledger_in self.old) (ledger_in self.new)) }

        // No room in the journal.
        ensures full { (entries bytes : ℕ) → (result ≡ Err (CoreError.SessionFull entries bytes)) ↔ IsFull self.old stamped.event entries bytes }
        ensures refused { (entries bytes : ℕ) → result ≡ Err (CoreError.SessionFull entries bytes) → self.new ≡ self.old }

        // Out of memory before anything was done.
        ensures unspent { result ≡ Err (CoreError.NoMemory false) → (self.new ≡ self.old) × (self.old.spent ≡ false) }

        // Out of memory in mid-step, now or before: the journal is as before.
        ensures spent { result ≡ Err (CoreError.NoMemory true) → (self.new.spent ≡ true) × (self.new.journal ≡ self.old.journal) }
        ensures stays { self.old.spent ≡ true → (result ≡ Err (CoreError.NoMemory true)) × (self.new ≡ self.old) }
    {
        if self.spent {
            return Err(CoreError::NoMemory { spent: true });
        }
        let entries = self.journal.len() as u64;
        if has_no_room(entries, self.bytes, &stamped.event) {
            return Err(CoreError::SessionFull {
                entries,
                octets: self.bytes,
            });
        }
        if self.journal.reserve_one().is_err() {
            return Err(CoreError::NoMemory { spent: false });
        }
        self.spent = true;
        let moment = self.journal.step_moment(stamped.moment);
        let reply = self
            .state
            .step(entries + 1, moment, stamped.word, &stamped.event)?;
        let kept = reply.copy()?;
        let bytes = self
            .bytes
            .saturating_add(entry_bytes(&stamped.event, &reply));
        let Stamped {
            moment: _,
            word,
            event,
        } = stamped;
        self.journal.append(Entry {
            moment,
            word,
            event,
            reply: kept,
            state: self.state.conn(),
        })?;
        self.bytes = bytes;
        self.spent = false;
        Ok(reply)
    }

    /// All steps so far.
    pub fn journal(&self) -> &Journal
        ensures { result.now ≡ self.now.journal }
    {
        self.journal.journal()
    }

    /// What the channel did so far.
    pub fn ledger(&self) -> &Ledger
        ensures { result.now ≡ ledger_in self.now }
    {
        self.state.ledger()
    }

    /// The channel's state after the last step, and what it waits for.
    pub fn view(&self) -> View
        ensures { result ≡ view_of self.now }
    {
        self.state.view(self.journal.last_state(), self.spent)
    }

    /// Whether a Drain of this link would give bytes, with room for the largest frame, 16,393 bytes.
    pub fn can_drain(&self, link: u32) -> bool
        ensures value { result ≡ can_drain_in link self.now.state }
        ensures nothing { result ≡ false → (room : ℕ) (octets : List ℕ) → WouldReply self.now (event.Drain link room) (reply.Octets octets) → octets ≡ [] }
    {
        self.state.can_drain(link)
    }

    /// Whether a Take of this call, at the moment of the last step, would be answered with other than NotYet.
    pub fn can_take(&self, call: u32) -> bool
        ensures { (result ≡ false) ↔ WouldReply self.now (event.Take call) reply.NotYet }
    {
        self.state.can_take(call)
    }

    /// Whether a Send of a message of so many bytes, at the moment of the last step, would be answered with other than Full.
    pub fn can_send(&self, call: u32, len: u32) -> bool
        ensures { (message : List ℕ) → length message ≡ len → (result ≡ false) ↔ ((held : ℕ) × WouldReply self.now (event.Send call message) (reply.Full held)) }
    {
        self.state.can_send(call, len)
    }
}

/// Whether a journal of so many entries and bytes has no room for an event.
fn has_no_room(entries: u64, bytes: u64, event: &Event) -> bool
    ensures { IsTrue result ↔ HasNoRoom entries bytes event.now }
{
    entries >= ENTRIES || bytes.saturating_add(event_bytes(event)) > BYTES
}
