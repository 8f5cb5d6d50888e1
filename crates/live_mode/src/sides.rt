// Both sides of a live run at once: the workers beside the calls, and those that make calls.
ghost use Rattle.std.specs.Prelude.{◌≡◌, ◌<◌, ◌+◌, ◌∷◌, [], ℕ, IfOk, length, map, slice_index_or};
ghost use Rattle.std.specs.List.{AllByRecursion, AllZip};
ghost use Rattle.live_run.specs.Outcomes.{gravest};
ghost use Rattle.live_run.specs.Sides.{CallDone, seen_by};
ghost use Rattle.live_run.specs.declared.jobs.CallJob.{CallJob};
ghost use Rattle.turn_lock.specs.History.{LockId};
ghost use Rattle.live_channel.specs.Handles.{IsFresh, IsOne, TakesIn, owns_of, seats_in};
ghost use Rattle.live_channel.specs.declared.linkers.Linkers.{Linkers};
ghost use Rattle.live_mode.specs.Handles.{IsWorked};
ghost use Rattle.live_mode.specs.Sides.{IsReady, MakesDone, RunDone, SideDone};
ghost use Rattle.live_mode.specs.declared.sides.Callers.{Callers};
ghost use Rattle.live_mode.specs.declared.sides.Side.{Side};
ghost use Rattle.live_mode.specs.declared.sides.Side.TheVariants as side;

use dns_watch::Lookup;
use gate_io::{Clock, Dialer, Draws};
use grpc_base::{Caller, NoMemory};
use lb_policy::Balancer;
use live_channel::{Linkers, close_links, shut_down};
use live_run::{CallJob, Outcome, work_calls};
use shared_channel::{ChannelSeat, Seat};
use std::alloc::Global;
use std::sync::Wait;
use std::thread::{Threads, for_each_mut};

/// The workers that make calls, and the handle through which the channel is shut down after them.
#[derive(Drop)]
pub struct Callers<H> {
    pub jobs: Vec<CallJob<H>>,
    pub closer: H,
    pub outcome: Outcome,
}

impl<P: Balancer + Send, R: Threads + Wait + Sync, C: Clock, D: Draws> Callers<
    ChannelSeat<'_, P, R, C, D>,
> {
    /// Makes the calls, takes in the handles of their workers, and shuts the channel down: after all entries that the closer then
    /// has seen, so after those of the calls.
    fn make(&mut self, rt: &R)
        requires fresh { AllByRecursion (IsFresh self.old.closer.seat.lock) (map (λ j. j.post.seat) self.old.jobs.items) }
        ensures { MakesDone (λ h. h.seat) self.old self.new }
    {
        let made = make_calls(rt, &mut self.jobs);
        take_in_callers(&mut self.closer, &mut self.jobs);
        let shut = shut_down(&mut self.closer);
        self.outcome = made.with(shut);
    }
}

/// Makes the calls of each worker.
fn make_calls<P: Balancer + Send, R: Threads + Wait + Sync, C: Clock, D: Draws>(
    rt: &R,
    jobs: &mut Vec<CallJob<ChannelSeat<'_, P, R, C, D>>>,
) -> Outcome
    ensures worked { (lock : LockId) → AllByRecursion (IsFresh lock) (map (λ j. j.post.seat) jobs.old.items) → AllZip (IsWorked lock result) (map (λ j. j.lines.items) jobs.old.items) (map (λ j. j.post.seat) jobs.new.items) }
    ensures count { length jobs.new.items ≡ length jobs.old.items }
{
    work_calls_of(rt, jobs)
}

/// The work of these workers, each by its place.
fn work_calls_of<R: Threads + Wait + Sync, H: Caller + Send>(
    rt: &R,
    jobs: &mut Vec<CallJob<H>>,
) -> Outcome
    ensures count { length jobs.new.items ≡ length jobs.old.items }
    ensures each { (i : ℕ) (d : CallJob H) → i < length jobs.old.items → CallDone (seen_by H.made H.errors H.last_error) H.share (slice_index_or jobs.old.items i d) (slice_index_or jobs.new.items i d) }
    ensures outcome { result ≡ gravest (map (λ j. j.outcome) jobs.new.items) }
{
    work_calls(rt, jobs.as_mut_slice())
}

/// Takes in the handles of workers that made calls.
fn take_in_callers<P: Balancer, R, C: Clock, D: Draws>(
    closer: &mut ChannelSeat<'_, P, R, C, D>,
    jobs: &mut Vec<CallJob<ChannelSeat<'_, P, R, C, D>>>,
)
    requires ones { AllByRecursion (IsOne closer.old.seat.lock) (map (λ j. j.post.seat) jobs.old.items) }
    ensures { TakesIn closer.old.seat (owns_of (map (λ j. j.post.seat) jobs.old.items)) closer.new.seat }
{
    while let Some(job) = jobs.pop() {
        let CallJob {
            post,
            lines: _lines,
            outcome: _,
        } = job;
        closer.take_in(post.into_seat());
    }
}

/// One side of a live run.
#[derive(Drop)]
pub enum Side<H, N, L, D> {
    Links(Linkers<H, N, L, D>),
    Calls(Callers<H>),
}

impl<P: Balancer + Send, R: Threads + Wait + Sync, C: Clock, D: Draws, N: Dialer, L: Lookup> Side<
    ChannelSeat<'_, P, R, C, D>,
    N,
    L,
    D,
> {
    /// Does the work of the side.
    fn work(&mut self, rt: &R, clock: &C)
        requires ready { IsReady (λ h. h.seat) self.old }
        ensures { SideDone (λ h. h.seat) N.coming self.old self.new }
    {
        match self {
            Side::Links(links) => links.keep(rt, clock),
            Side::Calls(calls) => calls.make(rt),
        }
    }
}

/// Both sides at once, each in a thread of its own, where one can be made. May never return.
fn work_sides<
    P: Balancer + Send,
    R: Threads + Wait + Sync,
    C: Clock,
    D: Draws,
    N: Dialer,
    L: Lookup,
>(rt: &R, clock: &C, sides: &mut [Side<ChannelSeat<'_, P, R, C, D>, N, L, D>])
    requires ready { (i : ℕ) (d : _) → i < length sides.old → IsReady (λ h. h.seat) (slice_index_or sides.old i d) }
    ensures { (i : ℕ) (d : _) → i < length sides.old → SideDone (λ h. h.seat) N.coming (slice_index_or sides.old i d) (slice_index_or sides.new i d) }
{
    for_each_mut(
        rt,
        sides,
        2,
        &|_: usize, side: &mut Side<ChannelSeat<'_, P, R, C, D>, N, L, D>| -> ()
            requires { IsReady (λ h. h.seat) side.now }
            ensures { SideDone (λ h. h.seat) N.coming side.entry.now side.exit.now }
        { side.work(rt, clock) },
    );
}

/// The same, for a list.
fn work_both<
    P: Balancer + Send,
    R: Threads + Wait + Sync,
    C: Clock,
    D: Draws,
    N: Dialer,
    L: Lookup,
>(rt: &R, clock: &C, sides: &mut Vec<Side<ChannelSeat<'_, P, R, C, D>, N, L, D>>)
    requires ready { (i : ℕ) (d : _) → i < length sides.old.items → IsReady (λ h. h.seat) (slice_index_or sides.old.items i d) }
    ensures count { length sides.new.items ≡ length sides.old.items }
    ensures each { (i : ℕ) (d : _) → i < length sides.old.items → SideDone (λ h. h.seat) N.coming (slice_index_or sides.old.items i d) (slice_index_or sides.new.items i d) }
{
    work_sides(rt, clock, sides.as_mut_slice());
}

/// The workers of both sides, those that make calls last.
fn sides_of<H: Drop, N: Drop, L: Drop, D: Drop>(
    alloc: Global,
    links: Linkers<H, N, L, D>,
    calls: Callers<H>,
) -> Result<Vec<Side<H, N, L, D>>, NoMemory>
    ensures { IfOk result (λ v. v.items ≡ side.Links links ∷ side.Calls calls ∷ []) }
{
    let mut sides = Vec::new(alloc);
    sides.push(Side::Links(links))?;
    sides.push(Side::Calls(calls))?;
    Ok(sides)
}

/// Runs the calls beside the workers that keep links open or look a name up, and shuts the channel down after the calls; where there
/// are none, before those workers start. Gives back the handle through which it was shut down, which took in those of all workers. May
/// never return.
pub fn run_sides<
    P: Balancer + Send,
    R: Threads + Wait + Sync,
    C: Clock,
    D: Draws,
    N: Dialer,
    L: Lookup,
>(
    rt: &R,
    alloc: Global,
    clock: &C,
    links: Linkers<ChannelSeat<'_, P, R, C, D>, N, L, D>,
    calls: Callers<ChannelSeat<'_, P, R, C, D>>,
) -> Result<(Seat<P>, Outcome), NoMemory>
    requires calls { AllByRecursion (IsFresh calls.closer.seat.lock) (map (λ j. j.post.seat) calls.jobs.items) }
    requires links { AllByRecursion (IsFresh calls.closer.seat.lock) (seats_in (λ h. h.seat) links.jobs.items) }
    ensures { IfOk result (λ r. RunDone (λ h. h.seat) N.coming links.entry calls.entry r.0 r.1) }
{
    if calls.jobs.is_empty() {
        return Ok(run_alone(rt, clock, links, calls));
    }
    run_beside(rt, alloc, clock, links, calls)
}

/// Shuts the channel down, and then runs the workers, which see that.
fn run_alone<
    P: Balancer + Send,
    R: Threads + Wait + Sync,
    C: Clock,
    D: Draws,
    N: Dialer,
    L: Lookup,
>(
    rt: &R,
    clock: &C,
    mut links: Linkers<ChannelSeat<'_, P, R, C, D>, N, L, D>,
    mut calls: Callers<ChannelSeat<'_, P, R, C, D>>,
) -> (Seat<P>, Outcome)
    requires calls { AllByRecursion (IsFresh calls.closer.seat.lock) (map (λ j. j.post.seat) calls.jobs.items) }
    requires links { AllByRecursion (IsFresh calls.closer.seat.lock) (seats_in (λ h. h.seat) links.jobs.items) }
    ensures { RunDone (λ h. h.seat) N.coming links.entry calls.entry result.0 result.1 }
{
    calls.make(rt);
    links.keep(rt, clock);
    let Callers {
        jobs: _jobs,
        closer,
        outcome,
    } = calls;
    close_links(links, closer, outcome)
}

/// Runs both sides at once.
fn run_beside<
    P: Balancer + Send,
    R: Threads + Wait + Sync,
    C: Clock,
    D: Draws,
    N: Dialer,
    L: Lookup,
>(
    rt: &R,
    alloc: Global,
    clock: &C,
    links: Linkers<ChannelSeat<'_, P, R, C, D>, N, L, D>,
    calls: Callers<ChannelSeat<'_, P, R, C, D>>,
) -> Result<(Seat<P>, Outcome), NoMemory>
    requires calls { AllByRecursion (IsFresh calls.closer.seat.lock) (map (λ j. j.post.seat) calls.jobs.items) }
    requires links { AllByRecursion (IsFresh calls.closer.seat.lock) (seats_in (λ h. h.seat) links.jobs.items) }
    ensures { IfOk result (λ r. RunDone (λ h. h.seat) N.coming links.entry calls.entry r.0 r.1) }
{
    let mut sides = sides_of(alloc, links, calls)?;
    work_both(rt, clock, &mut sides);
    let (links, calls) = parted(sides);
    let Callers {
        jobs: _jobs,
        closer,
        outcome,
    } = calls;
    Ok(close_links(links, closer, outcome))
}

/// The workers of both sides again.
fn parted<H: Drop, N: Drop, L: Drop, D: Drop>(
    mut sides: Vec<Side<H, N, L, D>>,
) -> (Linkers<H, N, L, D>, Callers<H>)
    requires two { (links : Linkers H N L D) × (calls : Callers H) × (sides.items ≡ side.Links links ∷ side.Calls calls ∷ []) }
    ensures { sides.items ≡ side.Links result.0 ∷ side.Calls result.1 ∷ [] }
{
    let last = sides.pop();
    let first = sides.pop();
    match last {
        Some(Side::Calls(calls)) => match first {
            Some(Side::Links(links)) => (links, calls),
            _ => unreachable!(),
        },
        _ => unreachable!(),
    }
}
