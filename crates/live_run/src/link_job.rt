// The work beside the calls: links that are kept open, or a name that is looked up.
ghost use Rattle.std.specs.Prelude.{◌≡◌};
ghost use Rattle.live_run.specs.Sides.{LinkDone, outcome_in, seen_by};

use crate::{NameJob, NetJob, Outcome};
use dns_watch::Lookup;
use gate_io::{Clock, Dialer, Draws, NotesLack};
use grpc_base::{Glance, Post};
use std::sync::Wait;

/// The work of one that keeps links open, or of the one that looks a name up.
#[derive(Drop)]
pub enum LinkJob<H, N, L, D> {
    Net(NetJob<H, N>),
    Name(NameJob<H, L, D>),
}

impl<H, N, L, D> LinkJob<H, N, L, D> {
    /// How the worker ended.
    pub(crate) fn outcome(&self) -> Outcome
        ensures { result ≡ outcome_in self.now }
    {
        match self {
            LinkJob::Net(job) => job.outcome,
            LinkJob::Name(job) => job.outcome,
        }
    }
}

impl<H: Post + Glance + NotesLack, N: Dialer, L: Lookup, D: Draws> LinkJob<H, N, L, D> {
    /// Works until the channel is shut down. Where memory was wanting, those learn of it that wait in the channel.
    pub(crate) fn work<W: Wait, C: Clock>(&mut self, rt: &W, clock: &C)
        ensures { LinkDone (seen_by H.made H.errors H.last_error) H.share H.last_look N.coming self.old self.new }
    {
        match self {
            LinkJob::Net(job) => {
                job.work(rt, clock);
                note_end(&mut job.post, job.outcome);
            }
            LinkJob::Name(job) => {
                job.work(rt, clock);
                note_end(&mut job.post, job.outcome);
            }
        }
    }
}

/// Lets those know that wait in the channel, where a worker ended for want of memory: what they wait for may never come.
fn note_end<H: Post + Glance + NotesLack>(post: &mut H, outcome: Outcome)
    ensures made { H.made post.new ≡ H.made post.old }
    ensures errors { (H.errors post.new ≡ H.errors post.old) × (H.last_error post.new ≡ H.last_error post.old) }
    ensures looks { H.last_look post.new ≡ H.last_look post.old }
    ensures share { H.share post.new ≡ H.share post.old }
{
    if outcome == Outcome::NoMemory {
        post.note_lack();
    }
}
