// The session of a relay: one channel for all links.
ghost use Rattle.std.specs.Prelude.{◌≡◌, ◌≢◌, ◌≤◌, IfOk, Ok, OnErr, Err, map, true};
ghost use Rattle.gate_io.specs.Outside.{Rises};
ghost use Rattle.live_channel.specs.Handles.{IsFirstSeat};
ghost use Rattle.live_channel.specs.Report.{ReportsTarget};
ghost use Rattle.policy_rack.specs.Kinds.{are_ready};
ghost use Rattle.resolver_core.specs.AnyTargets.{IsTarget};
ghost use Rattle.session_text.specs.Writing.{WritesAll, WritesPrefix, WritesSome};
ghost use Rattle.relay_mode.specs.RelaySides.{LeavesLinks};
ghost use Rattle.relay_mode.specs.Links.{IsListening};
ghost use Rattle.relay_mode.specs.Relayed.{IsAnyRelayReport, ReportsRelayed};

use crate::run::run_relay_links;
use crate::settings::RelaySettings;
use dns_watch::NamedWorld;
use gate_io::{Listener, Sink, World};
use grpc_base::{NoMemory, Octets};
use lb_policy::Balancer;
use live_channel::{WorkerContext, open_channel, ran_of, report_channel, start_links};
use live_run::Outcome;
use resolver_core::Target;
use script_input::LiveScript;
use script_text::ReportFault;
use session_text::Ran;
use shared_channel::{Seat, SharedChannel};
use std::alloc::Global;
use std::sync::Wait;
use std::thread::Threads;

/// How the relaying of links ended.
#[derive(Clone, Copy, Debug, PartialEq, Eq)]
pub enum Relayed {
    /// The report was written of a session that was run so far.
    Report(Ran),
    /// The next link was not accepted.
    NotListening,
}

/// Relays links over this world with these policies, and writes the report of the channel's session; where the session had no room for an
/// event, a line after it says so. Where a link was not accepted, nothing is written. May never return.
pub fn report_relay<
    R: Threads + Wait + Sync,
    P: Balancer + Send,
    K: Sink,
    W: NamedWorld,
    L: Listener,
>(
    rt: &R,
    alloc: Global,
    settings: RelaySettings,
    policies: Vec<P>,
    world: W,
    listener: &mut L,
    script: LiveScript,
    report: &mut K,
) -> Result<Relayed, ReportFault>
    requires ready { are_ready (map P.seen policies.items) ≡ true }
    requires target { IsTarget script.value }
    ensures ok { IfOk result (λ r. ReportsRelayed (map P.seen policies.items) (W.held world) r settings.links script (K.taken report.old) (K.taken report.new) (L.faults listener.old) (L.faults listener.new)) }
    ensures err { OnErr result (WritesSome (IsAnyRelayReport (map P.seen policies.items) (W.held world) settings.links script) (K.taken report.old) (K.taken report.new)) }
    ensures write { (result ≡ Err ReportFault.Write) → Rises (K.faults report.old) (K.faults report.new) × WritesPrefix (IsAnyRelayReport (map P.seen policies.items) (W.held world) settings.links script) (K.taken report.old) (K.taken report.new) × (L.faults listener.new ≡ L.faults listener.old) }
{
    let LiveScript {
        target,
        value,
        config,
        calls: _calls,
    } = script;
    let (channel, seat) = open_channel(alloc, policies, &value)?;
    let (mut seat, outcome, listened) = run_world(
        rt, alloc, settings, world, listener, &channel, seat, value, config,
    )?;
    if !listened {
        return Ok(Relayed::NotListening);
    }
    let ran = ran_of(outcome)?;
    match report_channel(rt, alloc, &channel, &mut seat, &target, ran, report) {
        Ok(()) => Ok(Relayed::Report(ran)),
        Err(fault) => Err(fault),
    }
}

/// Relays links over the parts of a world.
fn run_world<R: Threads + Wait + Sync, P: Balancer + Send, W: NamedWorld, L: Listener>(
    rt: &R,
    alloc: Global,
    settings: RelaySettings,
    mut world: W,
    listener: &mut L,
    channel: &SharedChannel<P>,
    seat: Seat<P>,
    target: Target,
    config: Option<Octets>,
) -> Result<(Seat<P>, Outcome, bool), NoMemory>
    requires seat { IsFirstSeat channel.now seat }
    ensures left { IfOk result (λ r. LeavesLinks channel.now (W.held world) config r.1 settings.links r.0) }
    ensures reported { IfOk result (λ r. ReportsTarget target config r.0.seen) }
    ensures listened { IfOk result (λ r. IsListening r.2 (L.faults listener.old) (L.faults listener.new)) }
{
    let lookup = world.lookup();
    let (clock, mut draws, dialers) = world.parts(settings.seed);
    let context = WorkerContext {
        rt,
        alloc,
        channel,
        clock: &clock,
        nets: settings.nets,
        keep: None,
    };
    let (seat, links) = start_links(&context, seat, &mut draws, dialers, lookup, target, config)?;
    run_relay_links(&context, seat, draws, listener, settings.links, links)
}
