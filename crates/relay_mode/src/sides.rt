// Both sides of a relay at once: the serving side, which relays links of the listener, and the workers that keep those of the world.
ghost use Rattle.std.specs.Prelude.{◌≡◌, map};
ghost use Rattle.std.specs.Fork.{AcceptsAt, ChangesAt};
ghost use Rattle.std.specs.List.{AllByRecursion};
ghost use Rattle.live_channel.specs.Handles.{IsFresh};
ghost use Rattle.live_channel.specs.Keeping.{KeepsDone};
ghost use Rattle.relay_mode.specs.RelaySides.{RelaySideDone};
ghost use Rattle.relay_mode.specs.Links.{IsListening};
ghost use Rattle.relay_mode.specs.Sides.{AcceptsTwo, ChangesTwo};

use crate::relay_side::RelaySide;
use dns_watch::Lookup;
use gate_io::{Clock, Dialer, Draws, Listener};
use lb_policy::Balancer;
use live_channel::Linkers;
use shared_channel::ChannelSeat;
use std::sync::Wait;
use std::thread::{Threads, join_mut};

/// Does work on two values.
fn work_on_two<A, L, F: Fn(&mut A, &mut L) -> bool>(work: &F, first: &mut A, other: &mut L) -> bool
    requires { AcceptsTwo F.Fn work.now first.old other.old }
    ensures { ChangesTwo F.Fn work.now first.old other.old first.new other.new result }
{
    work(first, other)
}

/// Does work on one value.
fn work_on_one<A, F: Fn(usize, &mut A)>(work: &F, it: &mut A)
    requires { AcceptsAt F.Fn work.now 0 it.old }
    ensures { ChangesAt F.Fn work.now 0 it.old it.new }
{
    work(0, it);
}

/// Two kinds of work at once, each in a thread of its own, where one can be made. It takes any values: two closures over the handles of one
/// channel can't be joined where they are made.
fn work_both<
    R: Threads + Sync,
    A: Send,
    L: Send,
    B: Send,
    F: Fn(&mut A, &mut L) -> bool + Sync,
    G: Fn(usize, &mut B) + Sync,
>(rt: &R, first: &mut A, at: &mut L, beside: &mut B, work: &F, work_beside: &G) -> bool
    requires first { AcceptsTwo F.Fn work.now first.old at.old }
    requires beside { AcceptsAt G.Fn work_beside.now 0 beside.old }
    ensures first { ChangesTwo F.Fn work.now first.old at.old first.new at.new result }
    ensures beside { ChangesAt G.Fn work_beside.now 0 beside.old beside.new }
{
    let (done, ()) = join_mut(
        rt,
        &mut || -> bool
            requires { AcceptsTwo F.Fn work.now first.now at.now }
            ensures { ChangesTwo F.Fn work.entry.now first.entry.now at.entry.now first.exit.now at.exit.now result }
        { work_on_two(work, first, at) },
        &mut || -> ()
            requires { AcceptsAt G.Fn work_beside.now 0 beside.now }
            ensures { ChangesAt G.Fn work_beside.entry.now 0 beside.entry.now beside.exit.now }
        { work_on_one(work_beside, beside) },
    );
    done
}

/// Both sides at once. Says whether each link was accepted. May never return.
pub(crate) fn work_beside<
    P: Balancer + Send,
    R: Threads + Wait + Sync,
    C: Clock,
    D: Draws,
    N: Dialer,
    K: Lookup,
    L: Listener,
>(
    rt: &R,
    clock: &C,
    listener: &mut L,
    relay_side: &mut RelaySide<ChannelSeat<'_, P, R, C, D>>,
    links: &mut Linkers<ChannelSeat<'_, P, R, C, D>, N, K, D>,
) -> bool
    requires fresh { AllByRecursion (IsFresh relay_side.old.closer.seat.lock) (map (λ j. j.post.seat) relay_side.old.jobs.items) }
    ensures listened { IsListening result (L.faults listener.old) (L.faults listener.new) }
    ensures relay_side { RelaySideDone (λ h. h.seat) relay_side.old relay_side.new }
    ensures links { KeepsDone (λ h. h.seat) N.coming links.old links.new }
{
    work_both(
        rt,
        relay_side,
        listener,
        links,
        &|relay_side: &mut RelaySide<ChannelSeat<'_, P, R, C, D>>, listener: &mut L| -> bool
            requires { AllByRecursion (IsFresh relay_side.now.closer.seat.lock) (map (λ j. j.post.seat) relay_side.now.jobs.items) }
            ensures { IsListening result (L.faults listener.entry.now) (L.faults listener.exit.now) × RelaySideDone (λ h. h.seat) relay_side.entry.now relay_side.exit.now }
        { relay_side.relay(rt, clock, listener) },
        &|_: usize, links: &mut Linkers<ChannelSeat<'_, P, R, C, D>, N, K, D>| -> ()
            ensures { KeepsDone (λ h. h.seat) N.coming links.entry.now links.exit.now }
        { links.keep(rt, clock) },
    )
}
