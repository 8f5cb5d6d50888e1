// A new channel, and its first event.
ghost use Rattle.std.specs.Prelude.{◌≡◌, IfOk, Ok, map, true};
ghost use Rattle.std.specs.List.{AllByRecursion};
ghost use Rattle.grpc_base.specs.declared.event.Event.TheVariants as event;
ghost use Rattle.grpc_base.specs.declared.event.Reply.{Reply};
ghost use Rattle.live_channel.specs.Handles.{IsFirstSeat};
ghost use Rattle.live_channel.specs.Report.{IsReportedFirst};
ghost use Rattle.live_run.specs.declared.outcome.Outcome.TheVariants as outcome_is;
ghost use Rattle.policy_rack.specs.Kinds.{are_ready};
ghost use Rattle.resolver_core.specs.AnyTargets.{IsTarget, authority_of};
ghost use Rattle.session_text.specs.declared.ran.Ran.TheVariants as ran_is;
ghost use Rattle.shared_channel.specs.Running.{origin_of};
ghost use Rattle.turn_lock.specs.History.{Stands};

use crate::context::WorkerContext;
use channel_core::ChannelCore;
use gate_io::{Clock, Draws};
use grpc_base::{AddressList, BoxedAddresses, Event, NoMemory, Octets, Post, PostError, Reply};
use lb_policy::Balancer;
use live_run::Outcome;
use resolver_core::Target;
use session_text::Ran;
use shared_channel::{Origin, Seat, SharedChannel};
use std::alloc::Global;
use std::sync::Wait;

/// A new channel for a target, and its handle.
#[tactic(auto, using(crate::proofs::ReportLaws::new_fits))]
pub fn open_channel<P: Balancer>(
    alloc: Global,
    policies: Vec<P>,
    target: &Target,
) -> Result<(SharedChannel<P>, Seat<P>), NoMemory>
    requires ready { are_ready (map P.seen policies.items) ≡ true }
    requires target { IsTarget target.now }
    ensures seat { IfOk result (λ r. IsFirstSeat r.0 r.1) }
    ensures origin { IfOk result (λ r. r.0.origin ≡ origin_of (authority_of target.now) (map P.seen policies.items)) }
{
    let authority = target.authority(alloc)?;
    let origin = Origin::of(&authority, &policies);
    let core = ChannelCore::new(alloc, authority, policies)?;
    let (channel, seat) = SharedChannel::new(alloc, core, origin)?;
    Ok((channel, seat))
}

/// The event with the addresses of a target and the config of a script.
pub fn resolved(
    alloc: Global,
    addresses: AddressList,
    config: Option<Octets>,
) -> Result<Event, NoMemory>
    ensures { IfOk result (λ e. e ≡ event.Resolved addresses config) }
{
    let addresses = BoxedAddresses::new(alloc, addresses)?;
    Ok(Event::Resolved { addresses, config })
}

/// Posts the first event of a new channel. A new channel has room for it, so where it fails there is no memory.
pub fn report_first<R: Wait, P: Balancer, C: Clock, D: Draws>(
    context: &WorkerContext<'_, P, R, C>,
    seat: Seat<P>,
    draws: D,
    event: Event,
) -> Result<Seat<P>, NoMemory>
    requires seat { IsFirstSeat context.now.channel.now seat }
    ensures lock { IfOk result (λ s. s.lock ≡ context.now.channel.now) }
    ensures parts { IfOk result (λ s. s.parts ≡ 4294967296) }
    ensures reported { IfOk result (λ s. IsReportedFirst event s.seen) }
    ensures own { IfOk result (λ s. Stands s.seen s.own × AllByRecursion (λ p. p.1.event ≡ event) s.own) }
{
    let mut post = context.handle(seat, draws);
    let came = post.post(event);
    let mut seat = post.into_seat();
    // The handle has every part, so what it then sees is all its own: its entry is the first.
    context.channel.connectivity(&mut seat);
    reported(came, seat)
}

/// The handle, where the post made an entry.
fn reported<P: Balancer>(came: Result<Reply, PostError>, seat: Seat<P>) -> Result<Seat<P>, NoMemory>
    ensures { IfOk result (λ s. (s ≡ seat) × ((r : Reply) × (came ≡ Ok r))) }
{
    match came {
        Ok(_) => Ok(seat),
        Err(_) => Err(NoMemory),
    }
}

/// How far the session was run. Where the session has no room a call that waits is answered that there is no memory: so each run that did
/// not end well is reported as full, where a step found its journal nearly full.
pub fn ran_of(outcome: Outcome) -> Result<Ran, NoMemory>
    ensures { IfOk result (λ r. r ≡ ran_is.Whole → outcome ≡ outcome_is.Whole) }
{
    match outcome {
        Outcome::Whole => Ok(Ran::Whole),
        Outcome::Full | Outcome::NoMemory => Ok(Ran::Full),
    }
}
