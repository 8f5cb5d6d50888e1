// The session of a live run: one channel for all workers.
ghost use Rattle.std.specs.Prelude.{◌≡◌, ◌≤◌, IfOk, OnErr, Err, map, true, length};
ghost use Rattle.gate_io.specs.Outside.{Rises};
ghost use Rattle.live_channel.specs.Handles.{IsFirstSeat};
ghost use Rattle.live_channel.specs.Report.{ReportsTarget};
ghost use Rattle.live_mode.specs.Live.{IsAnyLiveReport, IsLiveReport};
ghost use Rattle.live_mode.specs.Handles.{LeavesCalls};
ghost use Rattle.policy_rack.specs.Kinds.{are_ready};
ghost use Rattle.resolver_core.specs.AnyTargets.{IsTarget};
ghost use Rattle.session_text.specs.Writing.{WritesAll, WritesPrefix, WritesSome};

use crate::settings::LiveSettings;
use crate::start::run_calls;
use dns_watch::NamedWorld;
use gate_io::{Sink, World};
use grpc_base::{CallLine, NoMemory, Octets};
use lb_policy::Balancer;
use live_channel::{WorkerContext, open_channel, ran_of, report_channel, start_links};
use live_run::{Outcome, by_worker};
use resolver_core::Target;
use script_input::LiveScript;
use script_text::ReportFault;
use session_text::Ran;
use shared_channel::{Seat, SharedChannel};
use std::alloc::Global;
use std::sync::Wait;
use std::thread::Threads;

/// Runs the calls of a live script over this world with these policies, and writes the report of the channel's session; where the
/// session had no room for an event, a line after it says so. May never return.
pub fn report_live<R: Threads + Wait + Sync, P: Balancer + Send, K: Sink, W: NamedWorld>(
    rt: &R,
    alloc: Global,
    settings: LiveSettings,
    policies: Vec<P>,
    world: W,
    script: LiveScript,
    report: &mut K,
) -> Result<Ran, ReportFault>
    requires ready { are_ready (map P.seen policies.items) ≡ true }
    requires target { IsTarget script.value }
    ensures ok { IfOk result (λ ran. WritesAll (IsLiveReport (map P.seen policies.items) (W.held world) ran script) (K.taken report.old) (K.taken report.new)) }
    ensures err { OnErr result (WritesSome (IsAnyLiveReport (map P.seen policies.items) (W.held world) script) (K.taken report.old) (K.taken report.new)) }
    ensures write { (result ≡ Err ReportFault.Write) → Rises (K.faults report.old) (K.faults report.new) × WritesPrefix (IsAnyLiveReport (map P.seen policies.items) (W.held world) script) (K.taken report.old) (K.taken report.new) }
{
    let LiveScript {
        target,
        value,
        config,
        calls,
    } = script;
    let groups = by_worker(alloc, calls)?;
    let (channel, seat) = open_channel(alloc, policies, &value)?;
    let (mut seat, outcome) = run_world(
        rt, alloc, settings, world, &channel, seat, value, config, groups,
    )?;
    let ran = ran_of(outcome)?;
    match report_channel(rt, alloc, &channel, &mut seat, &target, ran, report) {
        Ok(()) => Ok(ran),
        Err(fault) => Err(fault),
    }
}

/// Runs the calls over the parts of a world.
fn run_world<R: Threads + Wait + Sync, P: Balancer + Send, W: NamedWorld>(
    rt: &R,
    alloc: Global,
    settings: LiveSettings,
    mut world: W,
    channel: &SharedChannel<P>,
    seat: Seat<P>,
    target: Target,
    config: Option<Octets>,
    groups: Vec<Vec<CallLine>>,
) -> Result<(Seat<P>, Outcome), NoMemory>
    requires seat { IsFirstSeat channel.now seat }
    requires few { length groups.items ≤ 16 }
    ensures left { IfOk result (λ r. LeavesCalls channel.now (W.held world) config r.1 (map (λ g. g.items) groups.items) r.0) }
    ensures reported { IfOk result (λ r. ReportsTarget target config r.0.seen) }
{
    let lookup = world.lookup();
    let (clock, mut draws, dialers) = world.parts(settings.seed);
    let LiveSettings {
        seed: _,
        nets,
        keep,
    } = settings;
    let context = WorkerContext {
        rt,
        alloc,
        channel,
        clock: &clock,
        nets,
        keep,
    };
    let (seat, links) = start_links(&context, seat, &mut draws, dialers, lookup, target, config)?;
    run_calls(&context, seat, draws, groups, links)
}
