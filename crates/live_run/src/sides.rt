// Workers side by side.
ghost use Rattle.std.specs.Prelude.{◌≡◌, ◌<◌, ℕ, length, map, slice_index_or};
ghost use Rattle.live_run.specs.Outcomes.{gravest};
ghost use Rattle.live_run.specs.Sides.{CallDone, LinkDone, outcome_in, seen_by};
ghost use Rattle.live_run.specs.declared.jobs.CallJob.{CallJob};
ghost use Rattle.live_run.specs.declared.link_job.LinkJob.{LinkJob};

use crate::calls::WORKERS;
use crate::{CallJob, LinkJob, Outcome};
use dns_watch::Lookup;
use gate_io::{Clock, Dialer, Draws, NotesLack};
use grpc_base::{Caller, Glance, Post};
use std::sync::Wait;
use std::thread::{Threads, for_each_mut};

/// The most threads of the workers that keep links open and look a name up.
const LINKERS: usize = 5;

/// Keeps links open and looks a name up, each worker in a thread of its own, until the channel is shut down. Where memory was wanting for
/// one, those learn of it that wait in the channel. May never return.
pub fn work_links<
    R: Threads + Wait + Sync,
    H: Post + Glance + NotesLack + Send,
    N: Dialer,
    L: Lookup,
    C: Clock,
    D: Draws,
>(rt: &R, clock: &C, links: &mut [LinkJob<H, N, L, D>]) -> Outcome
    ensures each { (i : ℕ) (d : LinkJob H N L D) → i < length links.old → LinkDone (seen_by H.made H.errors H.last_error) H.share H.last_look N.coming (slice_index_or links.old i d) (slice_index_or links.new i d) }
    ensures outcome { result ≡ gravest (map (λ j. outcome_in j) links.new) }
{
    for_each_mut(
        rt,
        links,
        LINKERS,
        &|_: usize, job: &mut LinkJob<H, N, L, D>| -> ()
            ensures { LinkDone (seen_by H.made H.errors H.last_error) H.share H.last_look N.coming job.entry.now job.exit.now }
        { job.work(rt, clock) },
    );
    outcome_of_links(links)
}

/// How these workers ended, taken together.
fn outcome_of_links<H, N, L, D>(links: &[LinkJob<H, N, L, D>]) -> Outcome
    ensures { result ≡ gravest (map (λ j. outcome_in j) links.now) }
{
    match links {
        [first, later @ ..] => first.outcome().with(outcome_of_links(later)),
        [] => Outcome::Whole,
    }
}

/// Makes the calls of each worker, each in a thread of its own. May never return.
pub fn work_calls<R: Threads + Wait + Sync, H: Caller + Send>(
    rt: &R,
    calls: &mut [CallJob<H>],
) -> Outcome
    ensures each { (i : ℕ) (d : CallJob H) → i < length calls.old → CallDone (seen_by H.made H.errors H.last_error) H.share (slice_index_or calls.old i d) (slice_index_or calls.new i d) }
    ensures outcome { result ≡ gravest (map (λ j. j.outcome) calls.new) }
{
    for_each_mut(
        rt,
        calls,
        WORKERS,
        &|_: usize, job: &mut CallJob<H>| -> ()
            ensures { CallDone (seen_by H.made H.errors H.last_error) H.share job.entry.now job.exit.now }
        { job.work(rt) },
    );
    outcome_of_calls(calls)
}

/// How these workers ended, taken together.
fn outcome_of_calls<H>(calls: &[CallJob<H>]) -> Outcome
    ensures { result ≡ gravest (map (λ j. j.outcome) calls.now) }
{
    match calls {
        [first, later @ ..] => first.outcome.with(outcome_of_calls(later)),
        [] => Outcome::Whole,
    }
}
