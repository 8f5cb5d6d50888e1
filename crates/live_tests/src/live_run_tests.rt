// Workers beside the calls: how each ends, and whether it lets those know that wait in the channel.
use crate::{Channel, Plan};
use dns_watch::{DnsWatch, MemLookup};
use gate_io::{GivenUp, ListClock, MemDialer, PcgDraws};
use grpc_base::{DnsName, NoTender, Text};
use live_run::{LinkJob, NameJob, NetJob, Outcome, Tending, Watching, work_links};
use std::alloc::Global;
use std::test::Fail;

type Job = LinkJob<Channel, MemDialer, MemLookup, PcgDraws>;

/// One that keeps links open.
fn net(alloc: Global, post: Channel) -> Result<Job, Fail> {
    Ok(LinkJob::Net(NetJob {
        alloc,
        post,
        dialer: MemDialer::new(Vec::new(alloc), Vec::new(alloc)),
        tender: Watching::new(Tending::Let(NoTender::new()), GivenUp::new(alloc)?),
        outcome: Outcome::Whole,
    }))
}

/// One that looks a name up, which has no address.
fn name(alloc: Global, post: Channel) -> Result<Job, Fail> {
    let name = DnsName {
        host: Text::of_slice(alloc, b"localhost")?,
        port: 50_051,
    };
    Ok(LinkJob::Name(NameJob {
        alloc,
        post,
        watch: DnsWatch::new(name),
        lookup: MemLookup::new(Vec::new(alloc), Vec::new(alloc)),
        draws: PcgDraws::new(0),
        config: None,
        outcome: Outcome::Whole,
    }))
}

/// How often the channel of a worker was notified that memory was wanting.
fn notes_of(job: &Job) -> u64 {
    match job {
        LinkJob::Net(net) => net.post.notes,
        LinkJob::Name(name) => name.post.notes,
    }
}

/// A channel that wants a dial, so that both workers post to it.
fn plan(glances: u64, refuses: bool, fails: bool, full: bool) -> Plan {
    let mut plan = Plan::new();
    plan.dials = 1;
    plan.glances = glances;
    plan.refuses = refuses;
    plan.fails = fails;
    plan.full = full;
    plan
}

#[test]
fn a_worker_that_found_no_memory_lets_the_channel_know(rt: HostRuntime) -> Result<(), Fail> {
    let alloc = rt.alloc();
    let clock = ListClock::new(vec![in alloc; 0]?);
    for (row, plan, outcome, notes) in [
        (
            "no memory",
            plan(u64::MAX, false, true, false),
            Outcome::NoMemory,
            1,
        ),
        (
            "no room",
            plan(u64::MAX, false, false, true),
            Outcome::Full,
            0,
        ),
        (
            "shut at once",
            plan(0, false, false, false),
            Outcome::Whole,
            0,
        ),
        (
            "shut later",
            plan(2, false, false, false),
            Outcome::Whole,
            0,
        ),
        ("refused", plan(2, true, false, false), Outcome::Whole, 0),
    ] {
        let post = Channel::new(alloc, plan).expect(&rt, "0 is a moment");
        let mut jobs = Vec::new(alloc);
        jobs.push(net(alloc, post)?)?;
        let post = Channel::new(alloc, plan).expect(&rt, "0 is a moment");
        jobs.push(name(alloc, post)?)?;
        let came = work_links(&rt, &clock, jobs.as_mut_slice());
        let reported = (notes_of(&jobs[0]), notes_of(&jobs[1]));
        assert_eq!(rt; (row, came, reported), (row, outcome, (notes, notes)));
    }
    Ok(())
}
