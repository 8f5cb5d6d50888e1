// Worked sessions of subchannels, their links, and policies changed live.
ghost use Rattle.std.specs.Prelude.{◌≡◌, map, true};
ghost use Rattle.policy_rack.specs.Kinds.{are_ready};

use attempt_ledger::Generation;
use channel_net::{Asked, Dialing, LinkFault, Net};
use grpc_base::{Address, AddressList, Conn, Items, Kind, Moment, NoMemory, Pick, Refusal};
use lb_kinds::{PickFirst, RoundRobin};
use lb_policy::{Balancer, Policy};
use policy_rack::boxes_ready;
use std::alloc::Global;
use std::test::Fail;

fn host(ip: u32) -> Address {
    Address { ip, port: 443 }
}

fn hosts(ip: u32) -> AddressList {
    let mut list = AddressList::new();
    let _fits = list.push(host(ip));
    list
}

/// The clock at a moment, and then what settles; answers the links that timed out.
fn tick<P: Balancer>(
    net: &mut Net<P>,
    generations: &mut Items<Generation>,
    entry: u64,
    nanos: u64,
) -> Result<Items<u32>, NoMemory> {
    let Some(moment) = Moment::new(nanos) else {
        return Err(NoMemory);
    };
    let dead = net.clock(moment)?;
    let _shut = net.settle(generations, entry)?;
    Ok(dead)
}

fn dial<P: Balancer>(net: &mut Net<P>, nanos: u64, word: u64) -> Option<Dialing> {
    net.dial(Moment::new(nanos)?, word)
}

/// A result of one address, and what settles.
fn resolve<P: Balancer>(
    net: &mut Net<P>,
    generations: &mut Items<Generation>,
    entry: u64,
    kind: Kind,
    ip: u32,
) -> Result<Items<u32>, NoMemory> {
    let _shut = net.resolved(kind, &hosts(ip), generations, entry)?;
    net.settle(generations, entry)
}

/// Dials a subchannel at moment 0, and makes it READY by a link.
fn connect<P: Balancer>(net: &mut Net<P>, sub: u32, link: u32) {
    let _dial = dial(net, 0, 0);
    let _up = net.up(sub, link);
    net.ready(sub, link);
}

/// The policies of the channel.
fn boxes(alloc: Global) -> Result<Vec<Box<dyn Policy>>, Fail> {
    let mut policies: Vec<Box<dyn Policy>> = Vec::new(alloc);
    policies.push(Box::new(alloc, RoundRobin::new())?)?;
    policies.push(Box::new(alloc, PickFirst::new())?)?;
    Ok(policies)
}

/// A dial at 0 that fails, and one at 1 s with word 0: given up at 20 s and 21 s, and only the second one draws.
fn worked_dials<P: Balancer>(alloc: Global, policies: Vec<P>) -> Result<bool, NoMemory>
    requires { are_ready (map P.seen policies.items) ≡ true }
{
    let mut net = Net::new(alloc, policies);
    let mut generations: Items<Generation> = Items::new(alloc);
    let _none = resolve(&mut net, &mut generations, 1, Kind::PickFirst, 1)?;
    let first = dial(&mut net, 0, 5);
    let failed = net.dial_failed(1);
    let _over = tick(&mut net, &mut generations, 2, 1_000_000_000)?;
    let second = dial(&mut net, 1_000_000_000, 0);
    Ok(
        failed == Ok(())
            && is_dial(first, 20_000_000_000, false)
            && is_dial(second, 21_000_000_000, true),
    )
}

/// Whether the first subchannel was dialled, to its address, until that moment.
fn is_dial(dialing: Option<Dialing>, until: u64, drew: bool) -> bool {
    let sub = 1;
    let address = host(1);
    dialing
        == Some(Dialing {
            sub,
            address,
            until,
            drew,
        })
}

#[test]
fn dials_as_worked(rt: HostRuntime) -> Result<(), Fail> {
    let policies = boxes(rt.alloc())?;
    assert!(rt; boxes_ready(&policies));
    assert!(rt; worked_dials(rt.alloc(), policies)?);
    Ok(())
}

/// What is refused where nothing is dialled.
fn refusals<P: Balancer>(alloc: Global, policies: Vec<P>) -> Result<bool, NoMemory>
    requires { are_ready (map P.seen policies.items) ≡ true }
{
    let mut net = Net::new(alloc, policies);
    let mut generations: Items<Generation> = Items::new(alloc);
    let none = net.dial_failed(1);
    let _shut = resolve(&mut net, &mut generations, 1, Kind::PickFirst, 1)?;
    let early = net.up(1, 1);
    Ok(none == Err(Refusal::NoSuchSub) && early == Err(LinkFault::Refused(Refusal::NotDialing)))
}

#[test]
fn refuses_what_is_not_dialled(rt: HostRuntime) -> Result<(), Fail> {
    let policies = boxes(rt.alloc())?;
    assert!(rt; boxes_ready(&policies));
    assert!(rt; refusals(rt.alloc(), policies)?);
    Ok(())
}

/// A READY subchannel is picked; a lost link leaves it IDLE, and a link that is not READY by 20 s is dead.
fn links_of_one<P: Balancer>(alloc: Global, policies: Vec<P>) -> Result<bool, NoMemory>
    requires { are_ready (map P.seen policies.items) ≡ true }
{
    let mut net = Net::new(alloc, policies);
    let mut generations: Items<Generation> = Items::new(alloc);
    let _none = resolve(&mut net, &mut generations, 1, Kind::RoundRobin, 1)?;
    connect(&mut net, 1, 1);
    let asked = net.ask();
    net.down(1, 1);
    let lost = net.link_of(1).is_none() && net.state_of(1) == Some(Conn::Idle);
    let _wished = net.settle(&mut generations, 2)?;
    let _dial = dial(&mut net, 0, 0);
    let _up = net.up(1, 2);
    let dead = tick(&mut net, &mut generations, 3, 20_000_000_000)?;
    let generation = 1;
    let pick = Pick::Place(1);
    Ok(lost && asked == Some(Asked { generation, pick }) && dead.as_slice() == [2].as_slice())
}

#[test]
fn keeps_the_link_of_a_subchannel(rt: HostRuntime) -> Result<(), Fail> {
    let policies = boxes(rt.alloc())?;
    assert!(rt; boxes_ready(&policies));
    assert!(rt; links_of_one(rt.alloc(), policies)?);
    Ok(())
}

/// Whether a generation, whose place counts from 0, has these stamps.
fn is_stamped(
    generations: &Items<Generation>,
    place: usize,
    activated: Option<u64>,
    retired: Option<u64>,
) -> bool {
    match generations.get(place) {
        Some(seen) => seen.activated == activated && seen.retired == retired,
        None => false,
    }
}

/// A READY `pick_first` waits for `round_robin` to be READY, and its subchannel is then shut.
fn changes_live<P: Balancer>(alloc: Global, policies: Vec<P>) -> Result<bool, NoMemory>
    requires { are_ready (map P.seen policies.items) ≡ true }
{
    let mut net = Net::new(alloc, policies);
    let mut generations: Items<Generation> = Items::new(alloc);
    let _first = resolve(&mut net, &mut generations, 1, Kind::PickFirst, 1)?;
    connect(&mut net, 1, 1);
    let _second = resolve(&mut net, &mut generations, 2, Kind::RoundRobin, 2)?;
    let waits = is_stamped(&generations, 1, None, None);
    connect(&mut net, 2, 2);
    let shut = net.settle(&mut generations, 3)?;
    let retired = is_stamped(&generations, 0, Some(1), Some(3));
    let current = is_stamped(&generations, 1, Some(3), None);
    Ok(waits && retired && current && shut.as_slice() == [1].as_slice())
}

#[test]
fn changes_policies_live(rt: HostRuntime) -> Result<(), Fail> {
    let policies = boxes(rt.alloc())?;
    assert!(rt; boxes_ready(&policies));
    assert!(rt; changes_live(rt.alloc(), policies)?);
    Ok(())
}

/// A Shutdown retires the generation, and answers the link of its subchannel.
fn shuts<P: Balancer>(alloc: Global, policies: Vec<P>) -> Result<bool, NoMemory>
    requires { are_ready (map P.seen policies.items) ≡ true }
{
    let mut net = Net::new(alloc, policies);
    let mut generations: Items<Generation> = Items::new(alloc);
    let _first = resolve(&mut net, &mut generations, 1, Kind::PickFirst, 1)?;
    connect(&mut net, 1, 7);
    let shut = net.shut(&mut generations, 2)?;
    let retired = is_stamped(&generations, 0, Some(1), Some(2));
    let gone = net.state().is_none() && net.next().is_none() && !net.dialable();
    Ok(retired && gone && shut.as_slice() == [7].as_slice())
}

#[test]
fn shuts_every_subchannel(rt: HostRuntime) -> Result<(), Fail> {
    let policies = boxes(rt.alloc())?;
    assert!(rt; boxes_ready(&policies));
    assert!(rt; shuts(rt.alloc(), policies)?);
    Ok(())
}
