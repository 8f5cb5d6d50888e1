// The policy `pick_first`.
ghost use Rattle.std.specs.Prelude.{◌≡◌, []};
ghost use Rattle.grpc_base.specs.declared.kind.Kind.TheVariants as kind;
ghost use Rattle.lb_kinds.specs.Seen.{of_kind};

use crate::conn::{is_ready, pick_without};
use crate::view::View;
use arrayvec::ArrayVec;
use grpc_base::{Conn, Kind, Pick};
use lb_policy::{Policy, SubSeen};
use std::marker::Model;

/// Connects one subchannel after the other until one is READY, and gives each pick request the first READY one
/// ("Load Balancing in gRPC", pick_first). Once each of them has failed it is in TRANSIENT_FAILURE until one is READY,
/// and goes on connecting.
#[derive(Debug, Drop)]
pub struct PickFirst {
    view: View,
    turns: u64,
}

impl Model for PickFirst {
    ghost use Rattle.lb_kinds.specs.Seen.{ViewAndTurns};

    ghost Value = { ViewAndTurns };

    ghost view = { λ p. record { view = p.view; turns = p.turns } };
}

impl PickFirst {
    /// A policy with the empty view and no turn.
    pub fn new() -> PickFirst
        ensures { result ≡ record { view = record { subs = []; failed = [] }; turns = 0 } }
    {
        PickFirst {
            view: View::new(),
            turns: 0,
        }
    }
}

impl Policy for PickFirst {
    ghost seen = { of_kind kind.PickFirst };

    fn kind(&self) -> Kind {
        Kind::PickFirst
    }

    fn reset(&mut self) {
        self.view = View::new();
        self.turns = 0;
    }

    fn accept(&mut self, subs: &[SubSeen]) {
        self.view.set(subs);
    }

    fn note(&mut self, sub: u32, state: Conn) {
        self.view.note(sub, state);
    }

    fn wish(&self) -> ArrayVec<u32, 64> {
        let mut wish = ArrayVec::new();
        if is_ready(self.view.state()) {
            return wish;
        }
        if let Some(sub) = self.view.first_open() {
            wish.push(sub);
        }
        wish
    }

    fn state(&self) -> Conn {
        self.view.lasting_state()
    }

    fn pick(&mut self) -> Pick {
        self.turns += 1;
        match self.view.first_ready() {
            Some(sub) => Pick::Place(sub),
            None => pick_without(self.view.lasting_state()),
        }
    }
}
