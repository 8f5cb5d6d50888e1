// All work of a program, and the handle through which the channel is shut down after it.
ghost use Rattle.std.specs.Prelude.{◌≡◌, ◌<◌, ◌++◌, ◌∷◌, [], ℕ, length, map, slice_index_or, true};
ghost use Rattle.std.specs.List.{AllByRecursion};
ghost use Rattle.live_channel.specs.Handles.{IsFresh, IsOne, TakesIn, owns_of};
ghost use Rattle.turn_lock.specs.History.{LockId};
ghost use Rattle.shared_channel.specs.Turns.{entries_of, share_of};
ghost use Rattle.channel_client.specs.Jobs.{ClientsDone, IsClient, JobDone, works_of};
ghost use Rattle.channel_client.specs.declared.job.ClientJob.{ClientJob};

use crate::job::ClientJob;
use crate::work::ClientWork;
use gate_io::{Clock, Draws};
use grpc_base::Caller;
use lb_policy::Balancer;
use live_channel::shut_down;
use live_run::Outcome;
use shared_channel::ChannelSeat;
use std::sync::Wait;
use std::thread::{Threads, for_each_mut};

/// The most threads in which work is done.
const WORKERS: usize = 1024;

/// The work with its handles, the work that was done, and the handle through which the channel is shut down after it.
#[derive(Drop)]
pub struct Clients<H, J> {
    pub jobs: Vec<ClientJob<H, J>>,
    pub done: Vec<J>,
    /// Whether all work that was done is there.
    pub is_whole: bool,
    pub closer: H,
    pub outcome: Outcome,
}

impl<
    P: Balancer + Send,
    R: Threads + Wait + Sync,
    C: Clock,
    D: Draws,
    J: ClientWork + Send + Drop,
> Clients<ChannelSeat<'_, P, R, C, D>, J> {
    /// Does the work, takes in the handles, and shuts the channel down: after all entries that the closer then has seen, so after those of
    /// the work.
    pub(crate) fn run(&mut self, rt: &R)
        requires fresh { AllByRecursion (IsFresh self.old.closer.seat.lock) (map (λ j. j.post.seat) self.old.jobs.items) }
        ensures done { ClientsDone (λ h. h.seat) J.shows self.old self.new }
    {
        run_all(rt, &mut self.jobs);
        self.is_whole = take_in_clients(&mut self.closer, &mut self.jobs, &mut self.done);
        self.outcome = shut_down(&mut self.closer);
    }
}

/// Does all work, each in a thread of its own.
fn run_all<P: Balancer + Send, R: Threads + Wait + Sync, C: Clock, D: Draws, J: ClientWork + Send>(
    rt: &R,
    jobs: &mut Vec<ClientJob<ChannelSeat<'_, P, R, C, D>, J>>,
)
    ensures ran { (lock : LockId) → AllByRecursion (IsFresh lock) (map (λ j. j.post.seat) jobs.old.items) → AllByRecursion (IsClient (λ h. h.seat) J.shows lock) jobs.new.items }
    ensures count { length jobs.new.items ≡ length jobs.old.items }
{
    run_all_of(rt, jobs);
}

/// The same of any handles, each by its place.
fn run_all_of<R: Threads + Wait + Sync, H: Caller + Send, J: ClientWork + Send>(
    rt: &R,
    jobs: &mut Vec<ClientJob<H, J>>,
)
    ensures count { length jobs.new.items ≡ length jobs.old.items }
    ensures each { (i : ℕ) (d : ClientJob H J) → i < length jobs.old.items → JobDone H.made H.share J.shows (slice_index_or jobs.old.items i d) (slice_index_or jobs.new.items i d) }
{
    run_each(rt, jobs.as_mut_slice());
}

/// The same of a slice.
fn run_each<R: Threads + Wait + Sync, H: Caller + Send, J: ClientWork + Send>(
    rt: &R,
    jobs: &mut [ClientJob<H, J>],
)
    ensures { (i : ℕ) (d : ClientJob H J) → i < length jobs.old → JobDone H.made H.share J.shows (slice_index_or jobs.old i d) (slice_index_or jobs.new i d) }
{
    for_each_mut(
        rt,
        jobs,
        WORKERS,
        &|_: usize, job: &mut ClientJob<H, J>| -> ()
            ensures { JobDone H.made H.share J.shows job.entry.now job.exit.now }
        { job.run(rt) },
    );
}

/// Takes in the handles of the work, and keeps the work, from the last on. Says whether all of it was kept.
fn take_in_clients<P: Balancer, R, C: Clock, D: Draws, J: Drop>(
    closer: &mut ChannelSeat<'_, P, R, C, D>,
    jobs: &mut Vec<ClientJob<ChannelSeat<'_, P, R, C, D>, J>>,
    done: &mut Vec<J>,
) -> bool
    requires ones { AllByRecursion (IsOne closer.old.seat.lock) (map (λ j. j.post.seat) jobs.old.items) }
    ensures taken { TakesIn closer.old.seat (owns_of (map (λ j. j.post.seat) jobs.old.items)) closer.new.seat }
    ensures works { result ≡ true → done.new.items ≡ done.old.items ++ works_of jobs.old.items }
{
    let mut is_whole = true;
    while let Some(job) = jobs.pop() {
        let ClientJob { post, work } = job;
        closer.take_in(post.into_seat());
        let is_kept = keep(done, work);
        is_whole = both(is_whole, is_kept);
    }
    is_whole
}

/// Whether both are so.
fn both(one: bool, other: bool) -> bool
    ensures { result ≡ true → (one ≡ true) × (other ≡ true) }
{
    one && other
}

/// Keeps work that was done. There is room for it, since it stood there before.
fn keep<J: Drop>(done: &mut Vec<J>, work: J) -> bool
    ensures { result ≡ true → done.new.items ≡ done.old.items ++ work ∷ [] }
{
    done.push(work).is_ok()
}
