// The beginning of a run: what the channel is given first, and the workers beside the calls.
ghost use Rattle.std.specs.Prelude.{◌≡◌, IfOk, map};
ghost use Rattle.live_channel.specs.Handles.{DialersAreGiven, IsFirstSeat, IsStarted, keepers_in, seats_in};
ghost use Rattle.live_channel.specs.Report.{IsReportedFirst, ReportsTarget};
ghost use Rattle.grpc_base.specs.declared.event.Event.TheVariants as event;

use crate::context::{WorkerContext, add_name, add_nets};
use crate::opening::{report_first, resolved};
use dns_watch::{DnsWatch, Lookup};
use gate_io::{Clock, Dialer, Draws};
use grpc_base::{AddressList, NoMemory, Octets};
use lb_policy::Balancer;
use live_run::LinkJob;
use resolver_core::Target;
use shared_channel::{ChannelSeat, Seat};
use std::sync::Wait;

/// Begins the run of a new channel: it is given its addresses, or gets a worker that looks its name up; and it gets a worker for each of the
/// first dialers, which keeps links open.
pub fn start_links<'a, R: Wait, P: Balancer, C: Clock, D: Draws, N: Dialer, L: Lookup>(
    context: &WorkerContext<'a, P, R, C>,
    seat: Seat<P>,
    draws: &mut D,
    dialers: Vec<N>,
    lookup: L,
    target: Target,
    config: Option<Octets>,
) -> Result<(Seat<P>, Vec<LinkJob<ChannelSeat<'a, P, R, C, D>, N, L, D>>), NoMemory>
    requires seat { IsFirstSeat context.now.channel.now seat }
    ensures started { IfOk result (λ r. IsStarted context.now.channel.now (seats_in (λ h. h.seat) r.1.items) r.0) }
    ensures given { IfOk result (λ r. DialersAreGiven (map N.coming dialers.items) config (keepers_in N.coming r.1.items) r.0) }
    ensures reported { IfOk result (λ r. ReportsTarget target config r.0.seen) }
{
    match target {
        Target::Ipv4(addresses) => {
            start_resolved(context, seat, draws, dialers, lookup, addresses, config)
        }
        Target::Dns(name) => {
            let watch = DnsWatch::new(name);
            start_named(context, seat, draws, dialers, lookup, watch, config)
        }
    }
}

/// The same for a list of addresses.
fn start_resolved<'a, R: Wait, P: Balancer, C: Clock, D: Draws, N: Dialer, L: Lookup>(
    context: &WorkerContext<'a, P, R, C>,
    seat: Seat<P>,
    draws: &mut D,
    dialers: Vec<N>,
    // Nothing is looked up here: the type alone is needed, for that of the workers beside the calls.
    _lookup: L,
    addresses: AddressList,
    config: Option<Octets>,
) -> Result<(Seat<P>, Vec<LinkJob<ChannelSeat<'a, P, R, C, D>, N, L, D>>), NoMemory>
    requires seat { IsFirstSeat context.now.channel.now seat }
    ensures started { IfOk result (λ r. IsStarted context.now.channel.now (seats_in (λ h. h.seat) r.1.items) r.0) }
    ensures given { IfOk result (λ r. DialersAreGiven (map N.coming dialers.items) config (keepers_in N.coming r.1.items) r.0) }
    ensures reported { IfOk result (λ r. IsReportedFirst (event.Resolved addresses config) r.0.seen) }
{
    let event = resolved(context.alloc, addresses, config)?;
    let mut seat = report_first(context, seat, draws.fork(), event)?;
    let mut links: Vec<LinkJob<ChannelSeat<'a, P, R, C, D>, N, L, D>> = Vec::new(context.alloc);
    add_nets(context, &mut seat, draws, dialers, &mut links)?;
    Ok((seat, links))
}

/// The same for a name.
fn start_named<'a, R: Wait, P: Balancer, C: Clock, D: Draws, N: Dialer, L: Lookup>(
    context: &WorkerContext<'a, P, R, C>,
    mut seat: Seat<P>,
    draws: &mut D,
    dialers: Vec<N>,
    lookup: L,
    watch: DnsWatch,
    config: Option<Octets>,
) -> Result<(Seat<P>, Vec<LinkJob<ChannelSeat<'a, P, R, C, D>, N, L, D>>), NoMemory>
    requires seat { IsFirstSeat context.now.channel.now seat }
    ensures started { IfOk result (λ r. IsStarted context.now.channel.now (seats_in (λ h. h.seat) r.1.items) r.0) }
    ensures given { IfOk result (λ r. DialersAreGiven (map N.coming dialers.items) config (keepers_in N.coming r.1.items) r.0) }
{
    let mut links: Vec<LinkJob<ChannelSeat<'a, P, R, C, D>, N, L, D>> = Vec::new(context.alloc);
    add_name(context, &mut seat, draws, watch, lookup, config, &mut links)?;
    add_nets(context, &mut seat, draws, dialers, &mut links)?;
    Ok((seat, links))
}
