// What is done to, and asked of, the policy at a place.
ghost use Rattle.std.specs.Prelude.{◌≡◌, ◌<◌, map, slice_get, IsSomeAnd, IfSome};
ghost use Rattle.std.specs.Option.{option_map};
ghost use Rattle.lb_policy.specs.Table as table;
ghost use Rattle.lb_policy.specs.Steps.{emptied, given, noted, turned};
ghost use Rattle.policy_rack.specs.Steps.{changed, changed_of, policy_of, live_of, wishes};

use crate::Live;
use grpc_base::{Conn, Kind, Pick};
use lb_policy::{Balancer, SubSeen};

/// Resets each of them.
pub fn reset_all<P: Balancer>(policies: &mut [P])
    ensures { map P.seen policies.new ≡ map emptied (map P.seen policies.old) }
{
    for policy in policies.iter_mut() {
        policy.reset();
    }
}

/// Resets the policy of a generation.
pub fn reset_of<P: Balancer>(policies: &mut Vec<P>, live: Option<Live>)
    ensures { map P.seen policies.new.items ≡ changed_of emptied live (map P.seen policies.old.items) }
{
    if let Some(live) = live {
        reset_at(policies, live.place);
    }
}

fn reset_at<P: Balancer>(policies: &mut Vec<P>, place: usize)
    ensures { map P.seen policies.new.items ≡ changed emptied (map P.seen policies.old.items) place }
{
    if place < policies.len() {
        let policy = &mut policies[place];
        policy.reset();
    }
}

/// Gives the policy at a place a view.
pub fn give_at<P: Balancer>(policies: &mut Vec<P>, place: usize, subs: &[SubSeen])
    requires { table.IsView subs.now }
    ensures { map P.seen policies.new.items ≡ changed (given subs.now) (map P.seen policies.old.items) place }
{
    if place < policies.len() {
        let policy = &mut policies[place];
        policy.accept(subs);
    }
}

/// reports to the policy of a generation the state of a subchannel.
pub fn note_of<P: Balancer>(policies: &mut Vec<P>, live: Option<Live>, sub: u32, state: Conn)
    ensures { map P.seen policies.new.items ≡ changed_of (noted sub state) live (map P.seen policies.old.items) }
{
    if let Some(live) = live {
        note_at(policies, live.place, sub, state);
    }
}

fn note_at<P: Balancer>(policies: &mut Vec<P>, place: usize, sub: u32, state: Conn)
    ensures { map P.seen policies.new.items ≡ changed (noted sub state) (map P.seen policies.old.items) place }
{
    if place < policies.len() {
        let policy = &mut policies[place];
        policy.note(sub, state);
    }
}

/// Asks the policy at a place.
pub fn pick_at<P: Balancer>(policies: &mut Vec<P>, place: usize) -> Pick
    requires { IsSomeAnd (slice_get (map P.seen policies.old.items) place) (λ p. p.turns < 18446744073709551615) }
    ensures answer { IfSome (slice_get (map P.seen policies.old.items) place) (λ p. result ≡ table.pick_of p) }
    ensures after { map P.seen policies.new.items ≡ changed turned (map P.seen policies.old.items) place }
{
    let policy = &mut policies[place];
    policy.pick()
}

/// The state of the policy of a generation.
pub fn state_of<P: Balancer>(policies: &[P], live: Option<Live>) -> Option<Conn>
    ensures { result ≡ option_map table.state_of (policy_of (map P.seen policies.now) live) }
{
    let policy = policies.get(live?.place)?;
    Some(policy.state())
}

/// The number and the kind of a generation.
pub fn named<P: Balancer>(policies: &[P], live: Option<Live>) -> Option<(u32, Kind)>
    ensures { result ≡ live_of (map P.seen policies.now) live }
{
    let live = live?;
    let policy = policies.get(live.place)?;
    Some((live.generation, policy.kind()))
}

/// Whether the policy of a generation wishes a subchannel connected.
pub fn wishes_of<P: Balancer>(policies: &[P], live: Option<Live>, sub: u32) -> bool
    ensures { result ≡ wishes sub (policy_of (map P.seen policies.now) live) }
{
    let Some(live) = live else {
        return false;
    };
    match policies.get(live.place) {
        Some(policy) => policy.wish().as_slice().contains(&sub),
        None => false,
    }
}
