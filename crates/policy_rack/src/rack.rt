// The rack: the policies, and which of them are in use.
ghost use Rattle.std.specs.Prelude.{◌≡◌, ◌<◌, map, true, IsSomeAnd, IfSome, if◌then◌else◌, ◌||◌, ◌+◌};
ghost use Rattle.grpc_base.specs.Kinds.{has_kind};
ghost use Rattle.lb_policy.specs.Table.{IsView, pick_of};
ghost use Rattle.policy_rack.specs.Kinds as kinds_spec;
ghost use Rattle.policy_rack.specs.Steps.{new_rack, begun, adopted, adopted_number, noted_by_live, may_take_over, taken_over, asked, all_retired, state_in, policy_of, live_of, wishes};

use crate::{Live, kinds, places};
use grpc_base::{Conn, Kind, KindSet, Pick};
use lb_policy::{Balancer, SubSeen};
use std::marker::Model;

/// The policies that a channel was given, one of each kind, and the generations that use them.
///
/// Pick requests go to the current generation alone. A pending one takes its place when it may; a generation that
/// is retired leaves a policy that is reset, and so has the empty view, none that failed and no turn. No call takes memory.
#[derive(Drop)]
pub struct Rack<P: Balancer> {
    policies: Vec<P>,
    current: Option<Live>,
    pending: Option<Live>,
    made: u32,
}

impl<P: Balancer> Model for Rack<P> {
    ghost use Rattle.std.specs.Prelude.{map};
    ghost use Rattle.policy_rack.specs.Steps.{RackSeen};

    ghost Value = { RackSeen };

    ghost view = { λ r. record { policies = map P.seen r.policies.items; current = r.current; pending = r.pending; made = r.made } };
}

impl<P: Balancer> Rack<P> {
    /// A rack of these policies, each of which is reset. No generation was made.
    pub fn new(policies: Vec<P>) -> Rack<P>
        requires { kinds_spec.are_ready (map P.seen policies.items) ≡ true }
        ensures { result ≡ new_rack (map P.seen policies.items) }
    {
        let mut policies = policies;
        places::reset_all(policies.as_mut_slice());
        Rack {
            policies,
            current: None,
            pending: None,
            made: 0,
        }
    }

    /// The kinds of the policies.
    pub fn kinds(&self) -> KindSet
        ensures { result ≡ kinds_spec.kinds_of self.now.policies }
    {
        kinds::set_of(self.policies.as_slice())
    }

    /// Takes a result of the resolver for the policy of a kind, and reports to the generation that it goes to: the
    /// current or the pending one of that kind, or a new one.
    #[tactic(auto, using(crate::proofs::KindLaws::has_place))]
    pub fn adopt(&mut self, kind: Kind, subs: &[SubSeen]) -> u32
        requires kind { has_kind (kinds_spec.kinds_of self.old.policies) kind ≡ true }
        requires view { IsView subs.now }
        requires made { self.old.made < 4000000000 }
        ensures after { self.new ≡ adopted subs.now (kinds_spec.first_place kind self.old.policies) self.old }
        ensures generation { result ≡ adopted_number (kinds_spec.first_place kind self.old.policies) self.old }
    {
        let place = kinds::place_of(self.policies.as_slice(), kind).unwrap();
        if let Some(live) = self.current {
            if live.place == place {
                places::reset_of(&mut self.policies, self.pending);
                self.pending = None;
                places::give_at(&mut self.policies, place, subs);
                return live.generation;
            }
        }
        if let Some(live) = self.pending {
            if live.place == place {
                places::give_at(&mut self.policies, place, subs);
                return live.generation;
            }
        }
        self.begin(place, subs)
    }

    fn begin(&mut self, place: usize, subs: &[SubSeen]) -> u32
        requires view { IsView subs.now }
        requires made { self.old.made < 4000000000 }
        ensures after { self.new ≡ begun subs.now place self.old }
        ensures generation { result ≡ self.old.made + 1 }
    {
        places::reset_of(&mut self.policies, self.pending);
        places::give_at(&mut self.policies, place, subs);
        self.made += 1;
        let live = Live {
            generation: self.made,
            place,
        };
        if self.current.is_some() {
            self.pending = Some(live);
        } else {
            self.current = Some(live);
            self.pending = None;
        }
        live.generation
    }

    /// How many generations were made.
    pub fn made(&self) -> u32
        ensures { result ≡ self.now.made }
    {
        self.made
    }

    /// The current generation and its kind; None exactly where there is none.
    pub fn current(&self) -> Option<(u32, Kind)>
        ensures { result ≡ live_of self.now.policies self.now.current }
    {
        places::named(self.policies.as_slice(), self.current)
    }

    /// The pending generation and its kind; None exactly where there is none.
    pub fn pending(&self) -> Option<(u32, Kind)>
        ensures { result ≡ live_of self.now.policies self.now.pending }
    {
        places::named(self.policies.as_slice(), self.pending)
    }

    /// reports to the live policies the state of a subchannel.
    pub fn note(&mut self, sub: u32, state: Conn)
        ensures { self.new ≡ noted_by_live sub state self.old }
    {
        places::note_of(&mut self.policies, self.current, sub, state);
        places::note_of(&mut self.policies, self.pending, sub, state);
    }

    /// Lets a pending generation take over if it may, and reports whether it did.
    pub fn take_over(&mut self) -> bool
        ensures result { result ≡ may_take_over self.old }
        ensures after { self.new ≡ (if may_take_over self.old then taken_over self.old else self.old) }
    {
        if !self.pending_may() {
            return false;
        }
        places::reset_of(&mut self.policies, self.current);
        self.current = self.pending;
        self.pending = None;
        true
    }

    fn pending_may(&self) -> bool
        ensures { result ≡ may_take_over self.now }
    {
        let current = places::state_of(self.policies.as_slice(), self.current);
        match places::state_of(self.policies.as_slice(), self.pending) {
            None => false,
            Some(Conn::Ready | Conn::Failure) => true,
            Some(_) => !matches!(current, Some(Conn::Ready)),
        }
    }

    /// Whether a live policy wishes this subchannel connected.
    pub fn wished(&self, sub: u32) -> bool
        ensures { result ≡ (wishes sub (policy_of self.now.policies self.now.current) || wishes sub (policy_of self.now.policies self.now.pending)) }
    {
        places::wishes_of(self.policies.as_slice(), self.current, sub)
            || places::wishes_of(self.policies.as_slice(), self.pending, sub)
    }

    /// The state of the current generation; None exactly where there is none.
    pub fn state(&self) -> Option<Conn>
        ensures { result ≡ state_in self.now self.now.current }
    {
        places::state_of(self.policies.as_slice(), self.current)
    }

    /// Asks the current policy, which is one turn of it, and reports to the generation that answered.
    pub fn ask(&mut self) -> (u32, Pick)
        requires { IsSomeAnd (policy_of self.old.policies self.old.current) (λ p. p.turns < 18446744073709551615) }
        ensures after { self.new ≡ asked self.old }
        ensures generation { IfSome self.old.current (λ live. result.0 ≡ live.generation) }
        ensures answer { IfSome (policy_of self.old.policies self.old.current) (λ p. result.1 ≡ pick_of p) }
    {
        let live = self.current.unwrap();
        let pick = places::pick_at(&mut self.policies, live.place);
        (live.generation, pick)
    }

    /// Retires every generation.
    pub fn retire_all(&mut self)
        ensures { self.new ≡ all_retired self.old }
    {
        places::reset_of(&mut self.policies, self.current);
        places::reset_of(&mut self.policies, self.pending);
        self.current = None;
        self.pending = None;
    }
}
