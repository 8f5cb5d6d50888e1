// The policy `priority`.
ghost use Rattle.std.specs.Prelude.{◌≡◌, ◌<◌, ◌+◌, ◌*◌, ◌/◌, ◌||◌, ◌==◌, nat_lt, is_err, IfOk};
ghost use Rattle.lb_policy.specs.Table.{is_starting, subs_in, tiers_to_wish, choices_in_tiers, state_of_tiers};
ghost use Rattle.lb_priority.specs.Seen.{of_tiers, new_tiered};

use crate::BadWidth;
use arrayvec::ArrayVec;
use grpc_base::{Conn, Kind, Pick};
use lb_kinds::{View, pick_in_turn};
use lb_policy::{Policy, SubSeen};
use std::marker::Model;

/// The widest tier: all subchannels of a view.
const LARGEST_WIDTH: u32 = 64;

/// Tiers of subchannels: tier after tier is connected while every earlier one has failed, and each pick request gets
/// the next READY subchannel in turn of the first tier that has one. A tier has failed once each of its subchannels
/// was in TRANSIENT_FAILURE, until one of them is READY (priority policy of xDS, "gRPC A56").
#[derive(Debug, Drop)]
pub struct Priority {
    width: usize,
    view: View,
    turns: u64,
}

impl Model for Priority {
    ghost use Rattle.std.specs.Prelude.{◌<◌, ◌≤◌};
    ghost use Rattle.lb_priority.specs.Seen.{Tiered};

    ghost Value = { Tiered };

    ghost view = { λ p. record { width = p.width; view = p.view; turns = p.turns } };

    ghost invariant = { λ p. (0 < p.width) × (p.width ≤ 64) };
}

impl Priority {
    /// A policy of tiers of so many subchannels, with the empty view and no turn. The first tier has the first ones of
    /// the view, the second one those after them, and so on.
    pub fn new(width: u32) -> Result<Priority, BadWidth>
        ensures made { IfOk result (λ p. p ≡ new_tiered width) }
        ensures bad { is_err result ≡ ((width == 0) || nat_lt 64 width) }
    {
        if width == 0 || width > LARGEST_WIDTH {
            return Err(BadWidth);
        }
        Ok(Priority {
            width: width as usize,
            view: View::new(),
            turns: 0,
        })
    }

    /// The subchannels of the tiers up to the first that has not failed that are IDLE or CONNECTING.
    fn starting(&self) -> ArrayVec<u32, 64>
        ensures { result.items ≡ subs_in is_starting (tiers_to_wish self.now.width self.now.view.failed self.now.view.subs) }
    {
        match self.view.place_of_upholding() {
            Some(place) => self
                .view
                .starting_of_first(start_of_tier(place, self.width) + self.width),
            None => self.view.all_starting(),
        }
    }

    /// The READY subchannels of the first tier that has one.
    fn choices(&self) -> ArrayVec<u32, 64>
        ensures { result.items ≡ choices_in_tiers self.now.width self.now.view.subs }
    {
        match self.view.place_of_ready() {
            Some(place) => self
                .view
                .ready_from(start_of_tier(place, self.width), self.width),
            None => ArrayVec::new(),
        }
    }

    fn state_of_tiers(&self) -> Conn
        ensures { result ≡ state_of_tiers self.now.width self.now.view.failed self.now.view.subs }
    {
        self.view.lasting_state()
    }
}

impl Policy for Priority {
    ghost seen = { of_tiers };

    fn kind(&self) -> Kind {
        Kind::Priority
    }

    fn reset(&mut self) {
        self.view = View::new();
        self.turns = 0;
    }

    fn accept(&mut self, subs: &[SubSeen]) {
        self.view.set(subs);
    }

    fn note(&mut self, sub: u32, state: Conn) {
        self.view.note(sub, state);
    }

    fn wish(&self) -> ArrayVec<u32, 64> {
        self.starting()
    }

    fn state(&self) -> Conn {
        self.state_of_tiers()
    }

    fn pick(&mut self) -> Pick {
        let turns = self.turns;
        self.turns = turns + 1;
        pick_in_turn(self.choices().as_slice(), turns, self.state_of_tiers())
    }
}

/// The first place of the tier that a place is in.
#[tactic(auto, using(crate::proofs::TierLaws::start_within))]
fn start_of_tier(place: usize, width: usize) -> usize
    requires { (0 < width) × (place < 64) }
    ensures start { result ≡ place / width * width }
    ensures within { result < 64 }
{
    place / width * width
}
