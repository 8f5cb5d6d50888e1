// The run of a program's work beside the workers that keep links.
ghost use Rattle.std.specs.Prelude.{◌≡◌, ◌≤◌, ◌+◌, ℕ, [], IfOk, List, OnOk, Option, length, map};
ghost use Rattle.grpc_base.specs.declared.event.Entry.{Entry};
ghost use Rattle.live_channel.specs.Handles.{DialersAreGiven, IsStarted, Splits, keepers_in, seats_in};
ghost use Rattle.turn_lock.specs.History.{SeatSeen, StartsWith};
ghost use Rattle.channel_client.specs.Jobs.{LeavesClients};

use crate::clients::Clients;
use crate::job::ClientJob;
use crate::sides::work_beside;
use crate::work::ClientWork;
use dns_watch::Lookup;
use gate_io::{Clock, Dialer, Draws};
use grpc_base::NoMemory;
use lb_policy::Balancer;
use live_channel::{Linkers, WorkerContext, close_links};
use live_run::{LinkJob, Outcome};
use shared_channel::{ChannelSeat, Seat};
use std::sync::Wait;
use std::thread::Threads;

/// Does the work beside these workers, and shuts the channel down after it. The handle that is given back took in all others; beside it, how
/// the workers ended, and the work.
pub(crate) fn run_beside<
    'a,
    R: Threads + Wait + Sync,
    P: Balancer + Send,
    C: Clock,
    D: Draws,
    N: Dialer,
    K: Lookup,
    J: ClientWork + Send + Drop,
>(
    context: &WorkerContext<'a, P, R, C>,
    mut seat: Seat<P>,
    mut draws: D,
    mut works: Vec<J>,
    links: Vec<LinkJob<ChannelSeat<'a, P, R, C, D>, N, K, D>>,
) -> Result<(Seat<P>, Outcome, Vec<J>), NoMemory>
    requires started { IsStarted context.now.channel.now (seats_in (λ h. h.seat) links.items) seat }
    requires few { length works.items ≤ 1024 }
    ensures left { IfOk result (λ r. (held : List (Option (List (List ℕ)))) (config : Option (List ℕ)) → DialersAreGiven held config (keepers_in N.coming links.entry.items) seat → LeavesClients J.shows context.now.channel.now held config r.1 r.2.items r.0) }
    ensures sees { IfOk result (λ r. StartsWith r.0.seen seat.seen) }
{
    let jobs = client_jobs(context, &mut seat, &mut draws, &mut works)?;
    let mut clients = Clients {
        jobs,
        done: works,
        is_whole: true,
        closer: context.handle(seat, draws),
        outcome: Outcome::Whole,
    };
    let mut links = Linkers {
        jobs: links,
        outcome: Outcome::Whole,
    };
    work_beside(context.rt, context.clock, &mut clients, &mut links);
    let Clients {
        jobs: _jobs,
        done,
        is_whole,
        closer,
        outcome,
    } = clients;
    let (seat, outcome) = close_links(links, closer, outcome);
    if !is_whole {
        return Err(NoMemory);
    }
    Ok((seat, outcome, done))
}

/// All work, from the last on, each with a handle of its own.
fn client_jobs<'a, R, P: Balancer, C: Clock, D: Draws, J: Drop>(
    context: &WorkerContext<'a, P, R, C>,
    seat: &mut Seat<P>,
    draws: &mut D,
    works: &mut Vec<J>,
) -> Result<Vec<ClientJob<ChannelSeat<'a, P, R, C, D>, J>>, NoMemory>
    requires lock { seat.old.lock ≡ context.now.channel.now }
    requires parts { 2048 ≤ seat.old.parts }
    requires few { length works.old.items ≤ 1024 }
    ensures splits { IfOk result (λ jobs. Splits seat.old (map (λ j. j.post.seat) jobs.items) seat.new) }
    ensures works { OnOk result (works.new.items ≡ []) }
{
    let mut jobs = Vec::new(context.alloc);
    while let Some(work) = works.pop() {
        add_client(context, seat, draws, work, &mut jobs)?;
    }
    Ok(jobs)
}

/// Adds work with a handle of its own.
fn add_client<'a, R, P: Balancer, C: Clock, D: Draws, J: Drop>(
    context: &WorkerContext<'a, P, R, C>,
    seat: &mut Seat<P>,
    draws: &mut D,
    work: J,
    jobs: &mut Vec<ClientJob<ChannelSeat<'a, P, R, C, D>, J>>,
) -> Result<(), NoMemory>
    requires lock { seat.old.lock ≡ context.now.channel.now }
    requires parts { 2 ≤ seat.old.parts }
    ensures lock { seat.new.lock ≡ seat.old.lock }
    ensures parts { seat.old.parts ≡ seat.new.parts + 1 }
    ensures splits { OnOk result ((start : SeatSeen Entry) → Splits start (map (λ j. j.post.seat) jobs.old.items) seat.old → Splits start (map (λ j. j.post.seat) jobs.new.items) seat.new) }
{
    let job = ClientJob {
        post: context.own_handle(seat, draws),
        work,
    };
    jobs.push(job)?;
    Ok(())
}
