// The workers of a live run that make calls, each with a handle of its own.
ghost use Rattle.std.specs.Prelude.{◌≡◌, ◌≤◌, ◌+◌, ◌++◌, ◌∷◌, [], IfOk, OnOk, length, map};
ghost use Rattle.grpc_base.specs.declared.event.Entry.{Entry};
ghost use Rattle.live_channel.specs.Handles.{Splits};
ghost use Rattle.live_mode.specs.Handles.{busy};
ghost use Rattle.turn_lock.specs.History.{SeatSeen};

use gate_io::{Clock, Draws};
use grpc_base::{CallLine, NoMemory};
use lb_policy::Balancer;
use live_channel::WorkerContext;
use live_run::{CallJob, Outcome};
use shared_channel::{ChannelSeat, Seat};

/// A worker for each group of calls that has some, each with a handle of its own.
pub fn call_jobs<'a, R, P: Balancer, C: Clock, D: Draws>(
    context: &WorkerContext<'a, P, R, C>,
    seat: &mut Seat<P>,
    draws: &mut D,
    groups: Vec<Vec<CallLine>>,
) -> Result<Vec<CallJob<ChannelSeat<'a, P, R, C, D>>>, NoMemory>
    requires lock { seat.old.lock ≡ context.now.channel.now }
    requires few { length groups.items ≤ 16 }
    requires parts { 32 ≤ seat.old.parts }
    ensures splits { IfOk result (λ jobs. Splits seat.old (map (λ j. j.post.seat) jobs.items) seat.new) }
    ensures lines { IfOk result (λ jobs. map (λ j. j.lines.items) jobs.items ≡ busy (map (λ g. g.items) groups.items)) }
{
    let mut jobs = Vec::new(context.alloc);
    let mut rest = groups.into_iter();
    while let Some(lines) = rest.next() {
        add_calls(context, seat, draws, lines, &mut jobs)?;
    }
    Ok(jobs)
}

/// Adds a worker for these calls, where there are some, with a handle of its own.
fn add_calls<'a, R, P: Balancer, C: Clock, D: Draws>(
    context: &WorkerContext<'a, P, R, C>,
    seat: &mut Seat<P>,
    draws: &mut D,
    lines: Vec<CallLine>,
    jobs: &mut Vec<CallJob<ChannelSeat<'a, P, R, C, D>>>,
) -> Result<(), NoMemory>
    requires lock { seat.old.lock ≡ context.now.channel.now }
    requires parts { 2 ≤ seat.old.parts }
    ensures lock { seat.new.lock ≡ seat.old.lock }
    ensures parts { seat.old.parts ≤ seat.new.parts + 1 }
    ensures splits { OnOk result ((start : SeatSeen Entry) → Splits start (map (λ j. j.post.seat) jobs.old.items) seat.old → Splits start (map (λ j. j.post.seat) jobs.new.items) seat.new) }
    ensures lines { OnOk result (map (λ j. j.lines.items) jobs.new.items ≡ map (λ j. j.lines.items) jobs.old.items ++ busy (lines.items ∷ [])) }
{
    if lines.is_empty() {
        return Ok(());
    }
    let job = CallJob {
        post: context.own_handle(seat, draws),
        lines,
        outcome: Outcome::Whole,
    };
    jobs.push(job)?;
    Ok(())
}
