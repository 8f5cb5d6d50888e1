// The policy `round_robin`.
ghost use Rattle.std.specs.Prelude.{◌≡◌, []};
ghost use Rattle.grpc_base.specs.declared.kind.Kind.TheVariants as kind;
ghost use Rattle.lb_kinds.specs.Seen.{of_kind};

use crate::turn::pick_in_turn;
use crate::view::View;
use arrayvec::ArrayVec;
use grpc_base::{Conn, Kind, Pick};
use lb_policy::{Policy, SubSeen};
use std::marker::Model;

/// Connects all subchannels, and gives each pick request the next READY one in turn
/// ("Load Balancing in gRPC", round_robin).
#[derive(Debug, Drop)]
pub struct RoundRobin {
    view: View,
    turns: u64,
}

impl Model for RoundRobin {
    ghost use Rattle.lb_kinds.specs.Seen.{ViewAndTurns};

    ghost Value = { ViewAndTurns };

    ghost view = { λ p. record { view = p.view; turns = p.turns } };
}

impl RoundRobin {
    /// A policy with the empty view and no turn.
    pub fn new() -> RoundRobin
        ensures { result ≡ record { view = record { subs = []; failed = [] }; turns = 0 } }
    {
        RoundRobin {
            view: View::new(),
            turns: 0,
        }
    }
}

impl Policy for RoundRobin {
    ghost seen = { of_kind kind.RoundRobin };

    fn kind(&self) -> Kind {
        Kind::RoundRobin
    }

    fn reset(&mut self) {
        self.view = View::new();
        self.turns = 0;
    }

    fn accept(&mut self, subs: &[SubSeen]) {
        self.view.set(subs);
    }

    fn note(&mut self, sub: u32, state: Conn) {
        self.view.note(sub, state);
    }

    fn wish(&self) -> ArrayVec<u32, 64> {
        self.view.all_starting()
    }

    fn state(&self) -> Conn {
        self.view.state()
    }

    fn pick(&mut self) -> Pick {
        let turns = self.turns;
        self.turns = turns + 1;
        let ready = self.view.all_ready();
        pick_in_turn(ready.as_slice(), turns, self.view.state())
    }
}
