// Both sides of a run at once: the work of the program, and the workers that keep the links of the world.
ghost use Rattle.std.specs.Prelude.{◌≡◌, map};
ghost use Rattle.std.specs.Fork.{AcceptsAt, ChangesAt};
ghost use Rattle.std.specs.List.{AllByRecursion};
ghost use Rattle.live_channel.specs.Handles.{IsFresh};
ghost use Rattle.live_channel.specs.Keeping.{KeepsDone};
ghost use Rattle.channel_client.specs.Jobs.{ClientsDone};

use crate::clients::Clients;
use crate::work::ClientWork;
use dns_watch::Lookup;
use gate_io::{Clock, Dialer, Draws};
use lb_policy::Balancer;
use live_channel::Linkers;
use shared_channel::ChannelSeat;
use std::sync::Wait;
use std::thread::{Threads, join_mut};

/// Does work on one value.
fn work_on_one<A, F: Fn(usize, &mut A)>(work: &F, it: &mut A)
    requires { AcceptsAt F.Fn work.now 0 it.old }
    ensures { ChangesAt F.Fn work.now 0 it.old it.new }
{
    work(0, it);
}

/// Two kinds of work at once, each in a thread of its own, where one can be made. It takes any values: two closures over the handles of one
/// channel can't be joined where they are made.
fn work_both<
    R: Threads + Sync,
    A: Send,
    B: Send,
    F: Fn(usize, &mut A) + Sync,
    G: Fn(usize, &mut B) + Sync,
>(rt: &R, first: &mut A, beside: &mut B, work: &F, work_beside: &G)
    requires first { AcceptsAt F.Fn work.now 0 first.old }
    requires beside { AcceptsAt G.Fn work_beside.now 0 beside.old }
    ensures first { ChangesAt F.Fn work.now 0 first.old first.new }
    ensures beside { ChangesAt G.Fn work_beside.now 0 beside.old beside.new }
{
    join_mut(
        rt,
        &mut || -> ()
            requires { AcceptsAt F.Fn work.now 0 first.now }
            ensures { ChangesAt F.Fn work.entry.now 0 first.entry.now first.exit.now }
        { work_on_one(work, first) },
        &mut || -> ()
            requires { AcceptsAt G.Fn work_beside.now 0 beside.now }
            ensures { ChangesAt G.Fn work_beside.entry.now 0 beside.entry.now beside.exit.now }
        { work_on_one(work_beside, beside) },
    );
}

/// Both sides at once. May never return.
pub(crate) fn work_beside<
    P: Balancer + Send,
    R: Threads + Wait + Sync,
    C: Clock,
    D: Draws,
    N: Dialer,
    K: Lookup,
    J: ClientWork + Send + Drop,
>(
    rt: &R,
    clock: &C,
    clients: &mut Clients<ChannelSeat<'_, P, R, C, D>, J>,
    links: &mut Linkers<ChannelSeat<'_, P, R, C, D>, N, K, D>,
)
    requires fresh { AllByRecursion (IsFresh clients.old.closer.seat.lock) (map (λ j. j.post.seat) clients.old.jobs.items) }
    ensures clients { ClientsDone (λ h. h.seat) J.shows clients.old clients.new }
    ensures links { KeepsDone (λ h. h.seat) N.coming links.old links.new }
{
    work_both(
        rt,
        clients,
        links,
        &|_: usize, clients: &mut Clients<ChannelSeat<'_, P, R, C, D>, J>| -> ()
            requires { AllByRecursion (IsFresh clients.now.closer.seat.lock) (map (λ j. j.post.seat) clients.now.jobs.items) }
            ensures { ClientsDone (λ h. h.seat) J.shows clients.entry.now clients.exit.now }
        { clients.run(rt) },
        &|_: usize, links: &mut Linkers<ChannelSeat<'_, P, R, C, D>, N, K, D>| -> ()
            ensures { KeepsDone (λ h. h.seat) N.coming links.entry.now links.exit.now }
        { links.keep(rt, clock) },
    );
}
