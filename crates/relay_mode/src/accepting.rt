// The links of a listener, relayed side by side.
ghost use Rattle.std.specs.Prelude.{◌≡◌, ◌<◌, ℕ, true, false, length, slice_index_or};
ghost use denote.Param.Send.{IsSend, IsSync};
ghost use Rattle.live_run.specs.Sides.{seen_by};
ghost use Rattle.relay_mode.specs.Links.{IsListening, LinkRelayed};
ghost use Rattle.relay_mode.specs.declared.link.RelayJob.{RelayJob};

use crate::link::RelayJob;
use gate_io::{Clock, Dialed, LinkIn, LinkOut, Listener};
use grpc_base::{Glance, Post};
use std::sync::Wait;
use std::thread::{Threads, join_mut};

/// Accepts a link for each of these, and relays each as soon as it is accepted: a thread of its own accepts those after it meanwhile.
/// Where no thread can be made, the link is relayed to its end before the next one is accepted. Says whether each was accepted; after an
/// `accept` that failed no further link is asked for.
#[cycle(links)]
pub(crate) fn relay_links<R: Threads + Wait + Sync, H: Post + Glance + Send, C: Clock, L: Listener>(
    rt: &R,
    clock: &C,
    listener: &mut L,
    jobs: &mut [RelayJob<H>],
) -> bool
    ensures listened { IsListening result (L.faults listener.old) (L.faults listener.new) }
    ensures each { (i : ℕ) (d : RelayJob H) → i < length jobs.old → LinkRelayed (seen_by H.made H.errors H.last_error) H.share (slice_index_or jobs.old i d) (slice_index_or jobs.new i d) }
{
    if jobs.is_empty() {
        return true;
    }
    let (first, rest) = jobs.split_at_mut(1);
    relay_first(rt, clock, listener, first, rest)
}

/// The same, of the first and of the rest.
#[cycle(links)]
fn relay_first<R: Threads + Wait + Sync, H: Post + Glance + Send, C: Clock, L: Listener>(
    rt: &R,
    clock: &C,
    listener: &mut L,
    first: &mut [RelayJob<H>],
    rest: &mut [RelayJob<H>],
) -> bool
    requires { length first.old ≡ 1 }
    ensures listened { IsListening result (L.faults listener.old) (L.faults listener.new) }
    ensures first { (i : ℕ) (d : RelayJob H) → i < length first.old → LinkRelayed (seen_by H.made H.errors H.last_error) H.share (slice_index_or first.old i d) (slice_index_or first.new i d) }
    ensures rest { (i : ℕ) (d : RelayJob H) → i < length rest.old → LinkRelayed (seen_by H.made H.errors H.last_error) H.share (slice_index_or rest.old i d) (slice_index_or rest.new i d) }
{
    match listener.accept() {
        Dialed::Open(mut input, mut output) => {
            let (listened, ()) = join_mut(
                rt,
                &mut || -> bool
                    requires { IsSync R.row × IsSend H.row }
                    ensures listened { IsListening result (L.faults listener.entry.now) (L.faults listener.exit.now) }
                    ensures each { (i : ℕ) (d : RelayJob H) → i < length rest.entry.now → LinkRelayed (seen_by H.made H.errors H.last_error) H.share (slice_index_or rest.entry.now i d) (slice_index_or rest.exit.now i d) }
                { relay_links(rt, clock, listener, rest) },
                &mut || -> ()
                    requires { IsSync R.row × (length first.now ≡ 1) }
                    ensures { (i : ℕ) (d : RelayJob H) → i < length first.entry.now → LinkRelayed (seen_by H.made H.errors H.last_error) H.share (slice_index_or first.entry.now i d) (slice_index_or first.exit.now i d) }
                { first[0].serve(rt, clock, &mut input, &mut output) },
            );
            listened
        }
        Dialed::Failed => false,
    }
}
