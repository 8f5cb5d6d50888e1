// A channel that threads share, what is asked of it, and what is read of it.
ghost use Rattle.std.specs.Prelude.{◌≡◌, IfOk, map};
ghost use Rattle.shared_channel.specs.Running.{origin_of};

use channel_core::ChannelCore;
use grpc_base::{Event, Metadata, Post, PostError, Request, Text, is_authority};
use lb_policy::Balancer;
use plain_channel::{AUTHORITY, Plain, Unmade, plain_policies};
use policy_rack::policies_ready;
use shared_channel::{Origin, Reading, Seat, SharedChannel};
use std::alloc::Global;

/// A new channel with this authority and these policies, and its first handle.
#[tactic(auto, using(crate::proofs::OpenLaws::new_fits))]
fn open<P: Balancer>(
    alloc: Global,
    authority: Text,
    policies: Vec<P>,
) -> Result<(SharedChannel<P>, Seat<P>), Unmade>
    ensures lock { IfOk result (λ r. r.1.lock ≡ r.0) }
    ensures parts { IfOk result (λ r. r.1.parts ≡ 4294967296) }
    ensures origin { IfOk result (λ r. r.0.origin ≡ origin_of authority (map P.seen policies.items)) }
{
    if !is_authority(authority.as_slice()) {
        return Err(Unmade::NoAuthority);
    }
    if !policies_ready(policies.as_slice()) {
        return Err(Unmade::NoPolicies);
    }
    let origin = Origin::of(&authority, &policies);
    let core = ChannelCore::new(alloc, authority, policies)?;
    let opened = SharedChannel::new(alloc, core, origin)?;
    Ok(opened)
}

/// A new channel, and its first handle.
pub fn make_channel(alloc: Global) -> Result<(SharedChannel<Plain>, Seat<Plain>), Unmade>
    ensures lock { IfOk result (λ r. r.1.lock ≡ r.0) }
    ensures parts { IfOk result (λ r. r.1.parts ≡ 4294967296) }
{
    let authority = Text::of_slice(alloc, AUTHORITY)?;
    let policies = plain_policies(alloc)?;
    open(alloc, authority, policies)
}

/// Begins a call.
pub fn begin<H: Post>(alloc: Global, handle: &mut H) -> Result<(), PostError> {
    let path = Text::of_slice(alloc, b"/a.B/C")?;
    let Ok(request) = Request::new(path, Metadata::new(alloc), None, None) else {
        return Ok(());
    };
    report(handle, Event::Begin { request })
}

/// Posts an event, and drops its reply.
pub fn report<H: Post>(handle: &mut H, event: Event) -> Result<(), PostError> {
    let _reply = handle.post(event)?;
    Ok(())
}

/// Reads how many entries there are.
#[derive(Drop)]
pub struct Count;

impl<P: Balancer> Reading<P> for Count {
    type Answer = usize;

    ghost reads = { λ before core answer after. Unit {0} };

    fn read(&mut self, core: &ChannelCore<P>, _nearly_full: bool) -> usize {
        core.journal().entries.len()
    }
}
