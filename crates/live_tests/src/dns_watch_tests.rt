// A name that is looked up by its schedule, in memory and by the system's resolver.
use crate::names::names;
use crate::{Channel, Plan};
use dns_watch::{
    DnsOnce, DnsWatch, Looked, Lookup, MemLookup, MemNamedWorld, NamedWorld, StdLookup, dns_once,
};
use gate_io::{ListClock, MemWorld, PcgDraws, World};
use grpc_base::{Address, DnsName, Event, Items, Octets, PostError, Text};
use std::alloc::Global;
use std::test::Fail;

/// 127.0.0.1.
const LOOPBACK: u32 = 0x7f00_0001;

/// One second in nanoseconds.
const SECOND: u64 = 1_000_000_000;

/// `localhost:50051`.
fn name(alloc: Global) -> Result<DnsName, Fail> {
    Ok(DnsName {
        host: Text::of_slice(alloc, b"localhost")?,
        port: 50_051,
    })
}

#[test]
fn a_name_is_looked_up_by_its_schedule(rt: HostRuntime) -> Result<(), Fail> {
    let mut watch = DnsWatch::new(name(rt.alloc())?);
    assert!(rt; watch.turn(0, false));
    watch.answered(0, 7, true);
    assert!(rt; !watch.turn(5 * SECOND, true));
    assert!(rt; !watch.turn(30 * SECOND - 1, true));
    assert!(rt; !watch.turn(30 * SECOND, false));
    assert!(rt; watch.turn(30 * SECOND, true));
    watch.answered(30 * SECOND, u64::MAX, false);
    assert!(rt; !watch.turn(31 * SECOND - 1, true));
    assert!(rt; watch.turn(31 * SECOND, false));
    watch.answered(31 * SECOND, 0, false);
    assert!(rt; !watch.turn(32_279_999_999, true));
    assert!(rt; watch.turn(32_280_000_000, false));
    Ok(())
}

/// A lookup whose first answer has the address of this machine twice and another; it has no other answer.
fn lookup(alloc: Global) -> Result<MemLookup, Fail> {
    let mut ips = Items::new(alloc);
    for ip in [LOOPBACK, 9, LOOPBACK] {
        ips.push(ip)?;
    }
    let mut answers = Vec::new(alloc);
    answers.push(ips)?;
    Ok(MemLookup::new(answers, Vec::new(alloc)))
}

/// The addresses of the last event, where that is a Resolved with the config `{}`.
fn resolved(channel: &Channel) -> &[Address] {
    match channel.entries.as_slice() {
        [.., last] => match &last.event {
            Event::Resolved {
                addresses,
                config: Some(config),
            } if config.as_slice() == b"{}".as_slice() => addresses.as_list().as_slice(),
            _ => &[],
        },
        [] => &[],
    }
}

#[test]
fn a_job_reports_to_the_channel_what_its_lookups_found(rt: HostRuntime) -> Result<(), Fail> {
    let alloc = rt.alloc();
    // Found at 0, so not due at 5 s but at 30 s; that fails, so not due at once but a second after.
    let moments = vec![in alloc;
        0,
        5_000_000_000,
        30_000_000_000,
        30_000_000_000,
        31_000_000_000,
    ]?;
    let world = MemWorld::new(ListClock::new(moments), Vec::new(alloc));
    let mut world = MemNamedWorld::new(alloc, world, lookup(alloc)?);
    let mut lookup = world.lookup();
    let (clock, mut draws, _) = world.parts(0);
    let mut plan = Plan::new();
    plan.wanted = true;
    let mut channel = Channel::new(alloc, plan).expect(&rt, "0 is a moment");
    let mut watch = DnsWatch::new(name(alloc)?);
    let config = Some(Octets::of_static(b"{}"));
    for (place, once) in [
        (0, DnsOnce::Posted),
        (1, DnsOnce::Nothing),
        (2, DnsOnce::Posted),
        (3, DnsOnce::Nothing),
        (4, DnsOnce::Posted),
    ] {
        let came = dns_once(
            alloc,
            &mut channel,
            &mut watch,
            &mut lookup,
            &clock,
            &mut draws,
            &config,
        );
        assert_eq!(rt; (place, came), (place, once));
        if place == 0 {
            let port = 50_051;
            assert_eq!(rt;
                resolved(&channel),
                [Address { ip: LOOPBACK, port }, Address { ip: 9, port }].as_slice()
            );
        }
    }
    assert_eq!(rt;
        names(alloc, &channel)?.as_str(),
        "resolved unresolved unresolved "
    );
    Ok(())
}

/// A lookup whose answer has 70 addresses.
fn many(alloc: Global) -> Result<MemLookup, Fail> {
    let mut ips = Items::new(alloc);
    for ip in 1..71u32 {
        ips.push(ip)?;
    }
    let mut answers = Vec::new(alloc);
    answers.push(ips)?;
    Ok(MemLookup::new(answers, Vec::new(alloc)))
}

#[test]
fn of_seventy_addresses_the_first_64_are_given(rt: HostRuntime) -> Result<(), Fail> {
    let alloc = rt.alloc();
    let mut channel = Channel::new(alloc, Plan::new()).expect(&rt, "0 is a moment");
    let came = dns_once(
        alloc,
        &mut channel,
        &mut DnsWatch::new(name(alloc)?),
        &mut many(alloc)?,
        &ListClock::new(vec![in alloc; 0]?),
        &mut PcgDraws::new(0),
        &Some(Octets::of_static(b"{}")),
    );
    assert_eq!(rt; came, DnsOnce::Posted);
    let reported = resolved(&channel);
    assert_eq!(rt; reported.len(), 64);
    let (ip, port) = (64, 50_051);
    assert_eq!(rt; reported.last(), Some(&Address { ip, port }));
    Ok(())
}

#[test]
fn a_job_answers_by_what_came_of_its_post(rt: HostRuntime) -> Result<(), Fail> {
    let alloc = rt.alloc();
    let spent = PostError::NoMemory { spent: true };
    let rows = [
        (u64::MAX, false, false, DnsOnce::Posted, "resolved "),
        (0, false, false, DnsOnce::Shut, ""),
        (
            u64::MAX,
            true,
            false,
            DnsOnce::Refused { refusal: 9 },
            "resolved ",
        ),
        (u64::MAX, false, true, DnsOnce::Failed(spent), ""),
    ];
    for (glances, refuses, fails, once, posted) in rows {
        let mut plan = Plan::new();
        plan.glances = glances;
        plan.refuses = refuses;
        plan.fails = fails;
        let mut channel = Channel::new(alloc, plan).expect(&rt, "0 is a moment");
        let came = dns_once(
            alloc,
            &mut channel,
            &mut DnsWatch::new(name(alloc)?),
            &mut lookup(alloc)?,
            &ListClock::new(vec![in alloc; 0]?),
            &mut PcgDraws::new(0),
            &None,
        );
        assert_eq!(rt; came, once);
        assert_eq!(rt; (once, names(alloc, &channel)?.as_str()), (once, posted));
    }
    Ok(())
}

#[test]
fn the_systems_resolver_finds_this_machine(rt: HostRuntime) -> Result<(), Fail> {
    let mut lookup = StdLookup::new(rt);
    let Looked::Found(addresses) = lookup.lookup(&name(rt.alloc())?) else {
        return Err(Fail::new("localhost is not found"));
    };
    let here = Address {
        ip: LOOPBACK,
        port: 50_051,
    };
    assert!(rt; addresses.as_slice().contains(&here));
    Ok(())
}
