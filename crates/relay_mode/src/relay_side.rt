// The serving side of a relay: the workers that relay links, and the handle through which the channel is shut down after them.
ghost use Rattle.std.specs.Prelude.{◌≡◌, ◌<◌, ℕ, length, map, slice_index_or};
ghost use Rattle.std.specs.List.{AllByRecursion};
ghost use Rattle.live_channel.specs.Handles.{IsFresh, IsOne, TakesIn, owns_of};
ghost use Rattle.live_run.specs.Outcomes.{gravest};
ghost use Rattle.live_run.specs.Sides.{seen_by};
ghost use Rattle.turn_lock.specs.History.{LockId};
ghost use Rattle.relay_mode.specs.RelaySides.{RelaySideDone, IsRelayHandle};
ghost use Rattle.relay_mode.specs.Links.{IsListening, LinkRelayed};
ghost use Rattle.relay_mode.specs.declared.link.RelayJob.{RelayJob};

use crate::accepting::relay_links;
use crate::link::RelayJob;
use gate_io::{Clock, Draws, Listener};
use grpc_base::{Glance, Post};
use lb_policy::Balancer;
use live_channel::shut_down;
use live_run::Outcome;
use shared_channel::ChannelSeat;
use std::sync::Wait;
use std::thread::Threads;

/// The workers that relay links, and the handle through which the channel is shut down after them.
#[derive(Drop)]
pub struct RelaySide<H> {
    pub jobs: Vec<RelayJob<H>>,
    pub closer: H,
    pub outcome: Outcome,
}

impl<P: Balancer + Send, R: Threads + Wait + Sync, C: Clock, D: Draws> RelaySide<
    ChannelSeat<'_, P, R, C, D>,
> {
    /// Relays links to their ends, takes in the handles of their workers, and shuts the channel down: after all entries that the closer
    /// then has seen, so after those of the links. Says whether each link was accepted.
    pub(crate) fn relay<L: Listener>(&mut self, rt: &R, clock: &C, listener: &mut L) -> bool
        requires fresh { AllByRecursion (IsFresh self.old.closer.seat.lock) (map (λ j. j.post.seat) self.old.jobs.items) }
        ensures listened { IsListening result (L.faults listener.old) (L.faults listener.new) }
        ensures done { RelaySideDone (λ h. h.seat) self.old self.new }
    {
        let listened = relay_all(rt, clock, listener, &mut self.jobs);
        let made = gravest_of(&self.jobs);
        take_in_relays(&mut self.closer, &mut self.jobs);
        let shut = shut_down(&mut self.closer);
        self.outcome = made.with(shut);
        listened
    }
}

/// Relays a link by each of these workers.
fn relay_all<P: Balancer + Send, R: Threads + Wait + Sync, C: Clock, D: Draws, L: Listener>(
    rt: &R,
    clock: &C,
    listener: &mut L,
    jobs: &mut Vec<RelayJob<ChannelSeat<'_, P, R, C, D>>>,
) -> bool
    ensures listened { IsListening result (L.faults listener.old) (L.faults listener.new) }
    ensures relayed { (lock : LockId) → AllByRecursion (IsFresh lock) (map (λ j. j.post.seat) jobs.old.items) → AllByRecursion (IsRelayHandle lock) (map (λ j. j.post.seat) jobs.new.items) }
    ensures count { length jobs.new.items ≡ length jobs.old.items }
{
    relay_all_of(rt, clock, listener, jobs)
}

/// The work of these workers, each by its place.
fn relay_all_of<R: Threads + Wait + Sync, H: Post + Glance + Send, C: Clock, L: Listener>(
    rt: &R,
    clock: &C,
    listener: &mut L,
    jobs: &mut Vec<RelayJob<H>>,
) -> bool
    ensures listened { IsListening result (L.faults listener.old) (L.faults listener.new) }
    ensures count { length jobs.new.items ≡ length jobs.old.items }
    ensures each { (i : ℕ) (d : RelayJob H) → i < length jobs.old.items → LinkRelayed (seen_by H.made H.errors H.last_error) H.share (slice_index_or jobs.old.items i d) (slice_index_or jobs.new.items i d) }
{
    relay_links(rt, clock, listener, jobs.as_mut_slice())
}

/// How these workers ended, taken together.
fn gravest_of<H>(jobs: &[RelayJob<H>]) -> Outcome
    ensures { result ≡ gravest (map (λ j. j.outcome) jobs.now) }
{
    match jobs {
        [first, later @ ..] => first.outcome.with(gravest_of(later)),
        [] => Outcome::Whole,
    }
}

/// Takes in the handles of workers that relayed links.
fn take_in_relays<P: Balancer, R, C: Clock, D: Draws>(
    closer: &mut ChannelSeat<'_, P, R, C, D>,
    jobs: &mut Vec<RelayJob<ChannelSeat<'_, P, R, C, D>>>,
)
    requires ones { AllByRecursion (IsOne closer.old.seat.lock) (map (λ j. j.post.seat) jobs.old.items) }
    ensures { TakesIn closer.old.seat (owns_of (map (λ j. j.post.seat) jobs.old.items)) closer.new.seat }
{
    while let Some(job) = jobs.pop() {
        let RelayJob {
            alloc: _,
            post,
            outcome: _,
        } = job;
        closer.take_in(post.into_seat());
    }
}
