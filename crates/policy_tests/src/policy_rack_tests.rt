// A rack over boxed policies of the channel, and over plain ones.
ghost use Rattle.std.specs.Prelude.{◌≡◌, map, true};
ghost use Rattle.policy_rack.specs.Kinds.{are_ready};
ghost use Rattle.grpc_base.specs.declared.kind.Kind.TheVariants as kind;
ghost use Rattle.lb_kinds.specs.Seen.{of_kind};
ghost use Rattle.lb_priority.specs.Seen.{of_tiers};

use arrayvec::ArrayVec;
use grpc_base::{Conn, Kind, Pick};
use lb_kinds::{PickFirst, RoundRobin};
use lb_policy::{Balancer, Policy, SubSeen};
use lb_priority::Priority;
use policy_rack::{Rack, boxes_ready, policies_ready};
use std::alloc::Global;
use std::test::Fail;

/// A policy that is in no box.
#[derive(Drop)]
enum Plain {
    First(PickFirst),
    Round(RoundRobin),
    Tiers(Priority),
}

impl Balancer for Plain {
    ghost use Rattle.policy_tests.specs.declared.policy_rack_tests.Plain.TheVariants as plain;

    ghost seen = { λ p. elim p [ plain.First policy ↦ of_kind kind.PickFirst policy | plain.Round policy ↦ of_kind kind.RoundRobin policy | plain.Tiers policy ↦ of_tiers policy ] };

    fn kind(&self) -> Kind {
        match self {
            Plain::First(policy) => policy.kind(),
            Plain::Round(policy) => policy.kind(),
            Plain::Tiers(policy) => policy.kind(),
        }
    }

    fn reset(&mut self) {
        match self {
            Plain::First(policy) => policy.reset(),
            Plain::Round(policy) => policy.reset(),
            Plain::Tiers(policy) => policy.reset(),
        }
    }

    fn accept(&mut self, subs: &[SubSeen]) {
        match self {
            Plain::First(policy) => policy.accept(subs),
            Plain::Round(policy) => policy.accept(subs),
            Plain::Tiers(policy) => policy.accept(subs),
        }
    }

    fn note(&mut self, sub: u32, state: Conn) {
        match self {
            Plain::First(policy) => policy.note(sub, state),
            Plain::Round(policy) => policy.note(sub, state),
            Plain::Tiers(policy) => policy.note(sub, state),
        }
    }

    fn wish(&self) -> ArrayVec<u32, 64> {
        match self {
            Plain::First(policy) => policy.wish(),
            Plain::Round(policy) => policy.wish(),
            Plain::Tiers(policy) => policy.wish(),
        }
    }

    fn state(&self) -> Conn {
        match self {
            Plain::First(policy) => policy.state(),
            Plain::Round(policy) => policy.state(),
            Plain::Tiers(policy) => policy.state(),
        }
    }

    fn pick(&mut self) -> Pick {
        match self {
            Plain::First(policy) => policy.pick(),
            Plain::Round(policy) => policy.pick(),
            Plain::Tiers(policy) => policy.pick(),
        }
    }
}

/// Hands the rack a result of one subchannel.
fn adopted<P: Balancer>(rack: &mut Rack<P>, kind: Kind, sub: u32, state: Conn) -> u32 {
    if !rack.kinds().has(kind) || rack.made() >= 4_000_000_000 {
        return 0;
    }
    let subs = [SubSeen { sub, state }];
    rack.adopt(kind, &subs)
}

/// Three results, of which the third is for the first generation; answers the first thing that is not as it should be.
fn three_results<P: Balancer>(policies: Vec<P>) -> &'static str
    requires { are_ready (map P.seen policies.items) ≡ true }
{
    let mut rack = Rack::new(policies);
    if rack.current().is_some() || rack.state().is_some() {
        return "a new rack";
    }
    if adopted(&mut rack, Kind::PickFirst, 1, Conn::Idle) != 1 || !rack.wished(1) {
        return "the first result";
    }
    rack.note(1, Conn::Ready);
    if adopted(&mut rack, Kind::RoundRobin, 2, Conn::Idle) != 2 || !rack.wished(2) {
        return "the second result";
    }
    if rack.pending() != Some((2, Kind::RoundRobin)) || rack.take_over() {
        return "a pending generation";
    }
    if adopted(&mut rack, Kind::PickFirst, 1, Conn::Ready) != 1 || rack.wished(2) {
        return "the third result";
    }
    if rack.current() != Some((1, Kind::PickFirst)) || rack.pending().is_some() {
        return "the current generation";
    }
    if rack.state() != Some(Conn::Ready) {
        return "the state";
    }
    rack.retire_all();
    if rack.current().is_some() {
        return "a retired rack";
    }
    ""
}

/// Whether a pending generation takes over once its subchannel is READY, and not before from a READY one.
fn takes_over<P: Balancer>(policies: Vec<P>) -> bool
    requires { are_ready (map P.seen policies.items) ≡ true }
{
    let mut rack = Rack::new(policies);
    let _first = adopted(&mut rack, Kind::PickFirst, 1, Conn::Ready);
    let _second = adopted(&mut rack, Kind::RoundRobin, 2, Conn::Connecting);
    let early = rack.take_over();
    rack.note(2, Conn::Ready);
    let late = rack.take_over();
    !early && late && rack.current() == Some((2, Kind::RoundRobin))
}

/// Whether a generation of tiers that has failed takes over, and is in TRANSIENT_FAILURE while it dials again.
fn keeps_failing<P: Balancer>(policies: Vec<P>) -> bool
    requires { are_ready (map P.seen policies.items) ≡ true }
{
    let mut rack = Rack::new(policies);
    let _first = adopted(&mut rack, Kind::RoundRobin, 1, Conn::Ready);
    let _second = adopted(&mut rack, Kind::Priority, 2, Conn::Connecting);
    rack.note(2, Conn::Failure);
    rack.note(2, Conn::Idle);
    let taken = rack.take_over();
    let failing = rack.state() == Some(Conn::Failure) && rack.wished(2);
    rack.note(2, Conn::Ready);
    taken && failing && rack.state() == Some(Conn::Ready)
}

/// What the first pick request gets after a result of one READY subchannel.
fn first_pick<P: Balancer>(policies: Vec<P>) -> Option<(u32, Pick)>
    requires { are_ready (map P.seen policies.items) ≡ true }
{
    let mut rack = Rack::new(policies);
    if !rack.kinds().has(Kind::RoundRobin) {
        return None;
    }
    let subs = [SubSeen {
        sub: 7,
        state: Conn::Ready,
    }];
    let _generation = rack.adopt(Kind::RoundRobin, &subs);
    Some(rack.ask())
}

/// The three policies of the channel, each in a box.
fn in_boxes(alloc: Global) -> Result<Vec<Box<dyn Policy>>, Fail> {
    let mut policies: Vec<Box<dyn Policy>> = Vec::new(alloc);
    policies.push(Box::new(alloc, Priority::new(8).unwrap())?)?;
    policies.push(Box::new(alloc, RoundRobin::new())?)?;
    policies.push(Box::new(alloc, PickFirst::new())?)?;
    Ok(policies)
}

/// The same three, in no box and in the other order.
fn in_no_box(alloc: Global) -> Result<Vec<Plain>, Fail> {
    let mut policies = Vec::new(alloc);
    policies.push(Plain::First(PickFirst::new()))?;
    policies.push(Plain::Round(RoundRobin::new()))?;
    policies.push(Plain::Tiers(Priority::new(8).unwrap()))?;
    Ok(policies)
}

#[test]
fn takes_one_policy_of_each_kind_with_pick_first(rt: HostRuntime) -> Result<(), Fail> {
    let alloc = rt.alloc();
    let mut boxes: Vec<Box<dyn Policy>> = Vec::new(alloc);
    assert!(rt; !boxes_ready(&boxes));
    boxes.push(Box::new(alloc, RoundRobin::new())?)?;
    assert!(rt; !boxes_ready(&boxes));
    boxes.push(Box::new(alloc, PickFirst::new())?)?;
    assert!(rt; boxes_ready(&boxes));
    boxes.push(Box::new(alloc, PickFirst::new())?)?;
    assert!(rt; !boxes_ready(&boxes));
    Ok(())
}

#[test]
fn third_result_is_for_the_first_generation(rt: HostRuntime) -> Result<(), Fail> {
    let boxes = in_boxes(rt.alloc())?;
    assert!(rt; boxes_ready(&boxes));
    assert_eq!(rt; three_results(boxes), "");
    let plain = in_no_box(rt.alloc())?;
    assert!(rt; policies_ready(plain.as_slice()));
    assert_eq!(rt; three_results(plain), "");
    Ok(())
}

#[test]
fn lets_a_ready_generation_take_over(rt: HostRuntime) -> Result<(), Fail> {
    let boxes = in_boxes(rt.alloc())?;
    assert!(rt; boxes_ready(&boxes));
    assert!(rt; takes_over(boxes));
    let plain = in_no_box(rt.alloc())?;
    assert!(rt; policies_ready(plain.as_slice()));
    assert!(rt; takes_over(plain));
    Ok(())
}

#[test]
fn lets_a_failed_generation_take_over(rt: HostRuntime) -> Result<(), Fail> {
    let boxes = in_boxes(rt.alloc())?;
    assert!(rt; boxes_ready(&boxes));
    assert!(rt; keeps_failing(boxes));
    let plain = in_no_box(rt.alloc())?;
    assert!(rt; policies_ready(plain.as_slice()));
    assert!(rt; keeps_failing(plain));
    Ok(())
}

#[test]
fn asks_the_current_policy(rt: HostRuntime) -> Result<(), Fail> {
    let boxes = in_boxes(rt.alloc())?;
    assert!(rt; boxes_ready(&boxes));
    assert_eq!(rt; first_pick(boxes), Some((1, Pick::Place(7))));
    let plain = in_no_box(rt.alloc())?;
    assert!(rt; policies_ready(plain.as_slice()));
    assert_eq!(rt; first_pick(plain), Some((1, Pick::Place(7))));
    Ok(())
}
