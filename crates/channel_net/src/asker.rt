// A rack that counts the pick requests, so that its policies never run out of turns.
ghost use Rattle.std.specs.Prelude.{◌≡◌, ◌<◌, Some, map, true, if◌then◌else◌};
ghost use Rattle.grpc_base.specs.Kinds.{has_kind};
ghost use Rattle.lb_policy.specs.Table.{IsView};
ghost use Rattle.policy_rack.specs.Kinds.{are_ready, first_place, kinds_of};
ghost use Rattle.policy_rack.specs.Steps.{adopted_number, may_take_over, live_of, state_in};
ghost use Rattle.channel_net.specs.Askers.{new_asker, reported, asker_adopted, asker_taken_over, asker_asked, asker_answer, asker_retired, may_ask};
ghost use Rattle.channel_net.specs.Steps.{is_wished};

use crate::replies::Asked;
use grpc_base::{Conn, Kind, KindSet};
use lb_policy::{Balancer, SubSeen};
use policy_rack::Rack;
use std::marker::Model;

/// The rack of a channel with the number of pick requests that its policies answered.
#[derive(Drop)]
pub struct Asker<P: Balancer> {
    rack: Rack<P>,
    asks: u64,
}

impl<P: Balancer> Model for Asker<P> {
    ghost use Rattle.channel_net.specs.Askers.{AskerSeen, TurnsWithin};

    ghost Value = { AskerSeen };

    ghost view = { λ a. record { rack = a.rack; asks = a.asks } };

    ghost invariant = { λ a. TurnsWithin a.asks a.rack.policies };
}

impl<P: Balancer> Asker<P> {
    /// A rack of these policies, none of which was asked.
    pub fn new(policies: Vec<P>) -> Asker<P>
        requires { are_ready (map P.seen policies.items) ≡ true }
        ensures { result ≡ new_asker (map P.seen policies.items) }
    {
        Asker {
            rack: Rack::new(policies),
            asks: 0,
        }
    }

    pub fn kinds(&self) -> KindSet
        ensures { result ≡ kinds_of self.now.rack.policies }
    {
        self.rack.kinds()
    }

    /// Takes a result for the policy of a kind, and reports to the generation that it goes to.
    pub fn adopt(&mut self, kind: Kind, subs: &[SubSeen]) -> u32
        requires kind { has_kind (kinds_of self.old.rack.policies) kind ≡ true }
        requires view { IsView subs.now }
        requires made { self.old.rack.made < 4000000000 }
        ensures after { self.new ≡ asker_adopted subs.now kind self.old }
        ensures generation { result ≡ adopted_number (first_place kind self.old.rack.policies) self.old.rack }
    {
        self.rack.adopt(kind, subs)
    }

    pub fn made(&self) -> u32
        ensures { result ≡ self.now.rack.made }
    {
        self.rack.made()
    }

    pub fn current(&self) -> Option<(u32, Kind)>
        ensures { result ≡ live_of self.now.rack.policies self.now.rack.current }
    {
        self.rack.current()
    }

    pub fn pending(&self) -> Option<(u32, Kind)>
        ensures { result ≡ live_of self.now.rack.policies self.now.rack.pending }
    {
        self.rack.pending()
    }

    /// reports to the live policies the state of a subchannel.
    pub fn note(&mut self, sub: u32, state: Conn)
        ensures { self.new ≡ reported (Some state) sub self.old }
    {
        self.rack.note(sub, state);
    }

    /// Lets a pending generation take over if it may, and reports whether it did.
    pub fn take_over(&mut self) -> bool
        ensures result { result ≡ may_take_over self.old.rack }
        ensures after { self.new ≡ asker_taken_over self.old }
    {
        self.rack.take_over()
    }

    pub fn wished(&self, sub: u32) -> bool
        ensures { result ≡ is_wished self.now.rack sub }
    {
        self.rack.wished(sub)
    }

    pub fn state(&self) -> Option<Conn>
        ensures { result ≡ state_in self.now.rack self.now.rack.current }
    {
        self.rack.state()
    }

    /// Asks the current policy. None exactly where there is none, or the count of requests is at its end.
    pub fn ask(&mut self) -> Option<Asked>
        ensures after { self.new ≡ asker_asked self.old }
        ensures answer { result ≡ asker_answer self.old }
    {
        if !may_ask(&self.rack, self.asks) {
            return None;
        }
        self.asks += 1;
        let (generation, pick) = self.rack.ask();
        Some(Asked { generation, pick })
    }

    /// Retires every generation.
    pub fn retire_all(&mut self)
        ensures { self.new ≡ asker_retired self.old }
    {
        self.rack.retire_all();
    }
}

/// Whether there is a current policy, and the count of requests is not at its end.
fn may_ask<P: Balancer>(rack: &Rack<P>, asks: u64) -> bool
    ensures { result ≡ may_ask (record { rack = rack.now; asks = asks }) }
{
    rack.current().is_some() && asks < u64::MAX
}
