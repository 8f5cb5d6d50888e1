// One subchannel.
ghost use Rattle.std.specs.Prelude.{◌≡◌, ◌≤◌, ◌↔◌, IfOk, IsErr, false};
ghost use Rattle.grpc_base.specs.Limits.{moment_limit};
ghost use Rattle.subchannel.specs.Records.{new_sub, wished, dialed, until_after, linked_up, failed, prefaced, lost, shut_down, clocked, next_of, is_dialable, is_dialing};

use crate::phase::Phase;
use a6_numbers::next_connect_wait;
use grpc_base::{Address, Conn};
use std::marker::Model;

/// The subchannel is not CONNECTING with a dial in that state.
#[derive(Clone, Copy, Debug, PartialEq, Eq)]
pub struct NotDialing;

/// The connection to one address, and how it fares. A call that its state has no rule for changes nothing.
#[derive(Debug, Drop)]
pub struct Subchannel {
    address: Address,
    dials: u32,
    phase: Phase,
}

impl Model for Subchannel {
    ghost use Rattle.subchannel.specs.Records.{SubRecord};
    ghost use Rattle.subchannel.specs.Phases.{state_of, again_of, until_of, linked_of};

    ghost Value = { SubRecord };

    ghost view = { λ s. record { address = s.address; state = state_of s.phase; dials = s.dials; again = again_of s.phase; until = until_of s.phase; linked = linked_of s.phase } };
}

/// No dial is given up before these nanoseconds.
const LEAST: u64 = 20_000_000_000;

impl Subchannel {
    /// An IDLE subchannel that was never dialled.
    pub fn new(address: Address) -> Subchannel
        ensures { result ≡ new_sub address }
    {
        Subchannel {
            address,
            dials: 0,
            phase: Phase::Idle,
        }
    }

    /// A policy wishes it connected: IDLE becomes CONNECTING.
    pub fn wished(&mut self)
        ensures { self.new ≡ wished self.old }
    {
        if let Phase::Idle = self.phase {
            self.phase = Phase::Waiting;
        }
    }

    /// Takes its dial at a moment, and reports when it is given up. The word spreads the wait of a further dial.
    pub fn dial(&mut self, moment: u64, word: u64) -> Result<u64, NotDialing>
        requires { moment ≤ moment_limit }
        ensures after { self.new ≡ dialed moment word self.old }
        ensures until { IfOk result (λ t. t ≡ until_after self.old moment word) }
        ensures refused { IsErr result ↔ (is_dialable self.old ≡ false) }
    {
        let Phase::Waiting = self.phase else {
            return Err(NotDialing);
        };
        let dials = self.dials.saturating_add(1);
        let again = moment + next_connect_wait(dials, word);
        let until = again.max(moment + LEAST);
        self.dials = dials;
        self.phase = Phase::Dialing { again, until };
        Ok(until)
    }

    /// Its dial is a link.
    pub fn up(&mut self) -> Result<(), NotDialing>
        ensures after { self.new ≡ linked_up self.old }
        ensures refused { IsErr result ↔ (is_dialing self.old ≡ false) }
    {
        let Phase::Dialing { again, until } = self.phase else {
            return Err(NotDialing);
        };
        self.phase = Phase::AwaitingPreface { again, until };
        Ok(())
    }

    /// Its dial failed.
    pub fn failed(&mut self)
        ensures { self.new ≡ failed self.old }
    {
        if let Phase::Dialing { again, .. } = self.phase {
            self.phase = Phase::Failure { again };
        }
    }

    /// The server's first SETTINGS came on its link: it is READY, and its backoff begins anew.
    pub fn ready(&mut self)
        ensures { self.new ≡ prefaced self.old }
    {
        if let Phase::AwaitingPreface { .. } = self.phase {
            self.phase = Phase::Ready;
            self.dials = 0;
        }
    }

    /// Its link is lost, broken or retiring.
    pub fn lost(&mut self)
        ensures { self.new ≡ lost self.old }
    {
        match self.phase {
            Phase::AwaitingPreface { again, .. } => self.phase = Phase::Failure { again },
            Phase::Ready => self.phase = Phase::Idle,
            _ => {}
        }
    }

    /// The clock reached a moment: a backoff that is over ends, or a dial that is not READY by then.
    pub fn clock(&mut self, moment: u64)
        requires { moment ≤ moment_limit }
        ensures { self.new ≡ clocked moment self.old }
    {
        match self.phase {
            Phase::Failure { again } if again <= moment => self.phase = Phase::Idle,
            Phase::Dialing { again, until } | Phase::AwaitingPreface { again, until }
                if until <= moment => {
                self.phase = Phase::Failure { again };
            }
            _ => {}
        }
    }

    /// Its address is in no list any more: it is SHUTDOWN for good.
    pub fn shut(&mut self)
        ensures { self.new ≡ shut_down self.old }
    {
        self.phase = Phase::Shutdown;
    }

    /// Its connectivity state.
    pub fn state(&self) -> Conn
        ensures { result ≡ self.now.state }
    {
        match self.phase {
            Phase::Idle => Conn::Idle,
            Phase::Waiting | Phase::Dialing { .. } | Phase::AwaitingPreface { .. } =>
                Conn::Connecting,
            Phase::Ready => Conn::Ready,
            Phase::Failure { .. } => Conn::Failure,
            Phase::Shutdown => Conn::Shutdown,
        }
    }

    /// The moment at which the clock changes it.
    pub fn next(&self) -> Option<u64>
        ensures { result ≡ next_of self.now }
    {
        match self.phase {
            Phase::Failure { again } => Some(again),
            Phase::Dialing { until, .. } | Phase::AwaitingPreface { until, .. } => Some(until),
            _ => None,
        }
    }

    /// Whether its dial may be taken.
    pub fn is_dialable(&self) -> bool
        ensures { result ≡ is_dialable self.now }
    {
        matches!(self.phase, Phase::Waiting)
    }

    /// Whether its dial was taken, and is no link yet.
    pub fn is_dialing(&self) -> bool
        ensures { result ≡ is_dialing self.now }
    {
        matches!(self.phase, Phase::Dialing { .. })
    }

    /// How often it was dialled since it was last READY.
    pub fn dials(&self) -> u32
        ensures { result ≡ self.now.dials }
    {
        self.dials
    }

    /// The address that it connects to.
    pub fn address(&self) -> Address
        ensures { result ≡ self.now.address }
    {
        self.address
    }
}
