// The workers of a live run, side by side.
ghost use Rattle.std.specs.Prelude.{◌≤◌, ℕ, IfOk, List, Option, length, map};
ghost use Rattle.live_channel.specs.Handles.{DialersAreGiven, IsStarted, keepers_in, seats_in};
ghost use Rattle.live_mode.specs.Handles.{LeavesCalls};
ghost use Rattle.turn_lock.specs.History.{StartsWith};

use crate::sides::{Callers, run_sides};
use crate::workers::call_jobs;
use dns_watch::Lookup;
use gate_io::{Clock, Dialer, Draws};
use grpc_base::{CallLine, NoMemory};
use lb_policy::Balancer;
use live_channel::{Linkers, WorkerContext};
use live_run::{LinkJob, Outcome};
use shared_channel::{ChannelSeat, Seat};
use std::sync::Wait;
use std::thread::Threads;

/// Runs the calls beside these workers, and shuts the channel down after them. The handle that is given back took in all others.
pub fn run_calls<
    'a,
    R: Threads + Wait + Sync,
    P: Balancer + Send,
    C: Clock,
    D: Draws,
    N: Dialer,
    L: Lookup,
>(
    context: &WorkerContext<'a, P, R, C>,
    mut seat: Seat<P>,
    mut draws: D,
    groups: Vec<Vec<CallLine>>,
    links: Vec<LinkJob<ChannelSeat<'a, P, R, C, D>, N, L, D>>,
) -> Result<(Seat<P>, Outcome), NoMemory>
    requires few { length groups.items ≤ 16 }
    requires started { IsStarted context.now.channel.now (seats_in (λ h. h.seat) links.items) seat }
    ensures left { IfOk result (λ r. (held : List (Option (List (List ℕ)))) (reported : Option (List ℕ)) → DialersAreGiven held reported (keepers_in N.coming links.entry.items) seat → LeavesCalls context.now.channel.now held reported r.1 (map (λ g. g.items) groups.items) r.0) }
    ensures sees { IfOk result (λ r. StartsWith r.0.seen seat.seen) }
{
    let jobs = call_jobs(context, &mut seat, &mut draws, groups)?;
    let calls = Callers {
        jobs,
        closer: context.handle(seat, draws),
        outcome: Outcome::Whole,
    };
    let links = Linkers {
        jobs: links,
        outcome: Outcome::Whole,
    };
    let (left, outcome) = run_sides(context.rt, context.alloc, context.clock, links, calls)?;
    Ok((left, outcome))
}
