// The workers beside the calls: those that keep links open, and the one that looks a name up.
ghost use Rattle.std.specs.Prelude.{◌≡◌, ◌<◌, ◌+◌, ℕ, List, length, map, slice_index_or};
ghost use Rattle.std.specs.List.{AllByRecursion, AllZip};
ghost use Rattle.grpc_base.specs.declared.event.Entry.{Entry};
ghost use Rattle.live_run.specs.Outcomes.{graver, gravest};
ghost use Rattle.live_run.specs.Sides.{LinkDone, outcome_in, seen_by};
ghost use Rattle.live_run.specs.declared.link_job.LinkJob.{LinkJob};
ghost use Rattle.live_run.specs.declared.outcome.Outcome.TheVariants as outcome_is;
ghost use Rattle.turn_lock.specs.History.{LockId};
ghost use Rattle.live_channel.specs.Handles.{Closes, IsFresh, IsKept, IsOne, Keeper, Leaves, TakesIn, handle_in, keepers_in, owns_of, seats_in};
ghost use Rattle.live_channel.specs.Keeping.{KeepsDone};

use dns_watch::Lookup;
use gate_io::{Clock, Dialer, Draws, NotesLack};
use grpc_base::{Glance, Post};
use lb_policy::Balancer;
use live_run::{LinkJob, Outcome, work_links};
use shared_channel::{ChannelSeat, Seat};
use std::sync::Wait;
use std::thread::Threads;

/// The workers that keep links open or look a name up.
#[derive(Drop)]
pub struct Linkers<H, N, L, D> {
    pub jobs: Vec<LinkJob<H, N, L, D>>,
    pub outcome: Outcome,
}

impl<
    P: Balancer + Send,
    R: Threads + Wait + Sync,
    C: Clock,
    D: Draws,
    N: Dialer,
    L: Lookup,
> Linkers<ChannelSeat<'_, P, R, C, D>, N, L, D> {
    /// Keeps links open until the channel is shut down, and keeps how they all ended.
    pub fn keep(&mut self, rt: &R, clock: &C)
        ensures { KeepsDone (λ h. h.seat) N.coming self.old self.new }
    {
        self.outcome = keep_links(rt, clock, &mut self.jobs);
    }
}

/// Keeps links open, and looks a name up.
fn keep_links<
    P: Balancer + Send,
    R: Threads + Wait + Sync,
    C: Clock,
    D: Draws,
    N: Dialer,
    L: Lookup,
>(rt: &R, clock: &C, jobs: &mut Vec<LinkJob<ChannelSeat<'_, P, R, C, D>, N, L, D>>) -> Outcome
    ensures kept { (lock : LockId) → AllByRecursion (IsFresh lock) (seats_in (λ h. h.seat) jobs.old.items) → AllZip (IsKept lock) (keepers_in N.coming jobs.old.items) (seats_in (λ h. h.seat) jobs.new.items) }
    ensures count { length jobs.new.items ≡ length jobs.old.items }
    ensures outcome { result ≡ gravest (map (λ j. outcome_in j) jobs.new.items) }
{
    work_links_of(rt, clock, jobs)
}

/// The work of these workers, each by its place.
fn work_links_of<
    R: Threads + Wait + Sync,
    H: Post + Glance + NotesLack + Send,
    N: Dialer,
    L: Lookup,
    C: Clock,
    D: Draws,
>(rt: &R, clock: &C, jobs: &mut Vec<LinkJob<H, N, L, D>>) -> Outcome
    ensures count { length jobs.new.items ≡ length jobs.old.items }
    ensures each { (i : ℕ) (d : LinkJob H N L D) → i < length jobs.old.items → LinkDone (seen_by H.made H.errors H.last_error) H.share H.last_look N.coming (slice_index_or jobs.old.items i d) (slice_index_or jobs.new.items i d) }
    ensures outcome { result ≡ gravest (map (λ j. outcome_in j) jobs.new.items) }
{
    work_links(rt, clock, jobs.as_mut_slice())
}

/// Takes in the handles of workers beside the calls.
fn take_in_linkers<P: Balancer, R, C: Clock, D: Draws, N: Dialer, L: Lookup>(
    closer: &mut ChannelSeat<'_, P, R, C, D>,
    jobs: &mut Vec<LinkJob<ChannelSeat<'_, P, R, C, D>, N, L, D>>,
)
    requires ones { AllByRecursion (IsOne closer.old.seat.lock) (seats_in (λ h. h.seat) jobs.old.items) }
    ensures { TakesIn closer.old.seat (owns_of (seats_in (λ h. h.seat) jobs.old.items)) closer.new.seat }
{
    while let Some(job) = jobs.pop() {
        let post = handle_of(job);
        closer.take_in(post.into_seat());
    }
}

/// The handle of a worker beside the calls.
fn handle_of<H: Drop, N: Drop, L: Drop, D: Drop>(job: LinkJob<H, N, L, D>) -> H
    ensures { result ≡ handle_in job }
{
    match job {
        LinkJob::Net(net) => net.post,
        LinkJob::Name(name) => name.post,
    }
}

/// The end of a run: the handle through which the channel was shut down takes in those of the workers beside the calls, and is given
/// back; and how all workers ended.
pub fn close_links<P: Balancer, R, C: Clock, D: Draws, N: Dialer, L: Lookup>(
    links: Linkers<ChannelSeat<'_, P, R, C, D>, N, L, D>,
    mut closer: ChannelSeat<'_, P, R, C, D>,
    made: Outcome,
) -> (Seat<P>, Outcome)
    requires ones { AllByRecursion (IsOne closer.seat.lock) (seats_in (λ h. h.seat) links.jobs.items) }
    ensures lock { result.0.lock ≡ closer.entry.seat.lock }
    ensures parts { result.0.parts ≡ closer.entry.seat.parts + length links.entry.jobs.items }
    ensures leaves { (keepers : List Keeper) (owns : List (List (ℕ × Entry))) (seen : List Entry) (own : _) → AllZip (IsKept closer.entry.seat.lock) keepers (seats_in (λ h. h.seat) links.entry.jobs.items) → Closes made owns seen own closer.entry.seat → Leaves result.1 keepers owns seen own result.0 }
    ensures worse { result.1 ≡ outcome_is.Whole → made ≡ outcome_is.Whole }
    ensures outcome { result.1 ≡ graver made links.entry.outcome }
{
    let Linkers {
        mut jobs,
        outcome: kept,
    } = links;
    take_in_linkers(&mut closer, &mut jobs);
    (closer.into_seat(), made.with(kept))
}
