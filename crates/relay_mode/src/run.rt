// The run of a relay: its links beside the workers that keep those of the world.
ghost use Rattle.std.specs.Prelude.{◌≡◌, ◌≤◌, ◌+◌, ℕ, IfOk, List, OnOk, Option, length, map};
ghost use Rattle.grpc_base.specs.declared.event.Entry.{Entry};
ghost use Rattle.live_channel.specs.Handles.{DialersAreGiven, IsStarted, Splits, keepers_in, seats_in};
ghost use Rattle.turn_lock.specs.History.{SeatSeen, StartsWith};
ghost use Rattle.relay_mode.specs.RelaySides.{LeavesLinks};
ghost use Rattle.relay_mode.specs.Links.{IsListening};

use crate::link::RelayJob;
use crate::relay_side::RelaySide;
use crate::sides::work_beside;
use dns_watch::Lookup;
use gate_io::{Clock, Dialer, Draws, Listener};
use grpc_base::NoMemory;
use lb_policy::Balancer;
use live_channel::{Linkers, WorkerContext, close_links};
use live_run::{LinkJob, Outcome};
use shared_channel::{ChannelSeat, Seat};
use std::sync::Wait;
use std::thread::Threads;

/// Relays so many links of the listener beside these workers, and shuts the channel down after them. The handle that is given back took
/// in all others; beside it, how the workers ended, and whether each link was accepted.
pub fn run_relay_links<
    'a,
    R: Threads + Wait + Sync,
    P: Balancer + Send,
    C: Clock,
    D: Draws,
    N: Dialer,
    K: Lookup,
    L: Listener,
>(
    context: &WorkerContext<'a, P, R, C>,
    mut seat: Seat<P>,
    mut draws: D,
    listener: &mut L,
    count: u32,
    links: Vec<LinkJob<ChannelSeat<'a, P, R, C, D>, N, K, D>>,
) -> Result<(Seat<P>, Outcome, bool), NoMemory>
    requires started { IsStarted context.now.channel.now (seats_in (λ h. h.seat) links.items) seat }
    requires few { count ≤ 1024 }
    ensures left { IfOk result (λ r. (held : List (Option (List (List ℕ)))) (config : Option (List ℕ)) → DialersAreGiven held config (keepers_in N.coming links.entry.items) seat → LeavesLinks context.now.channel.now held config r.1 count r.0) }
    ensures sees { IfOk result (λ r. StartsWith r.0.seen seat.seen) }
    ensures listened { IfOk result (λ r. IsListening r.2 (L.faults listener.old) (L.faults listener.new)) }
{
    let jobs = relay_jobs(context, &mut seat, &mut draws, count)?;
    let mut relay_side = RelaySide {
        jobs,
        closer: context.handle(seat, draws),
        outcome: Outcome::Whole,
    };
    let mut links = Linkers {
        jobs: links,
        outcome: Outcome::Whole,
    };
    let listened = work_beside(
        context.rt,
        context.clock,
        listener,
        &mut relay_side,
        &mut links,
    );
    let RelaySide {
        jobs: _jobs,
        closer,
        outcome,
    } = relay_side;
    let (seat, outcome) = close_links(links, closer, outcome);
    Ok((seat, outcome, listened))
}

/// So many workers that relay a link, each with a handle of its own.
fn relay_jobs<'a, R, P: Balancer, C: Clock, D: Draws>(
    context: &WorkerContext<'a, P, R, C>,
    seat: &mut Seat<P>,
    draws: &mut D,
    count: u32,
) -> Result<Vec<RelayJob<ChannelSeat<'a, P, R, C, D>>>, NoMemory>
    requires lock { seat.old.lock ≡ context.now.channel.now }
    requires parts { 2048 ≤ seat.old.parts }
    requires few { count ≤ 1024 }
    ensures splits { IfOk result (λ jobs. Splits seat.old (map (λ j. j.post.seat) jobs.items) seat.new) }
    ensures count { IfOk result (λ jobs. length jobs.items ≡ count) }
{
    let mut jobs = Vec::new(context.alloc);
    while jobs.len() < count as usize {
        add_relay(context, seat, draws, &mut jobs)?;
    }
    Ok(jobs)
}

/// Adds a worker that relays a link, with a handle of its own.
fn add_relay<'a, R, P: Balancer, C: Clock, D: Draws>(
    context: &WorkerContext<'a, P, R, C>,
    seat: &mut Seat<P>,
    draws: &mut D,
    jobs: &mut Vec<RelayJob<ChannelSeat<'a, P, R, C, D>>>,
) -> Result<(), NoMemory>
    requires lock { seat.old.lock ≡ context.now.channel.now }
    requires parts { 2 ≤ seat.old.parts }
    ensures lock { seat.new.lock ≡ seat.old.lock }
    ensures parts { seat.old.parts ≡ seat.new.parts + 1 }
    ensures count { OnOk result (length jobs.new.items ≡ length jobs.old.items + 1) }
    ensures splits { OnOk result ((start : SeatSeen Entry) → Splits start (map (λ j. j.post.seat) jobs.old.items) seat.old → Splits start (map (λ j. j.post.seat) jobs.new.items) seat.new) }
{
    let job = RelayJob {
        alloc: context.alloc,
        post: context.own_handle(seat, draws),
        outcome: Outcome::Whole,
    };
    jobs.push(job)?;
    Ok(())
}
