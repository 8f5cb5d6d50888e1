// One channel for all work of a program, from its opening to its report.
ghost use Rattle.std.specs.Prelude.{◌≡◌, ◌≤◌, IfOk, length, map, true};
ghost use Rattle.live_channel.specs.Handles.{IsFirstSeat};
ghost use Rattle.live_channel.specs.Report.{ReportsTarget};
ghost use Rattle.policy_rack.specs.Kinds.{are_ready};
ghost use Rattle.resolver_core.specs.AnyTargets.{IsTarget};
ghost use Rattle.session_text.specs.Writing.{WritesAll};
ghost use Rattle.channel_client.specs.Jobs.{LeavesClients};
ghost use Rattle.channel_client.specs.Sessions.{WorksAreDone, IsClientReport};

use crate::options::{ChannelOptions, Ended};
use crate::run::run_beside;
use crate::work::ClientWork;
use dns_watch::NamedWorld;
use gate_io::{Sink, World};
use grpc_base::{NoMemory, Octets, Text};
use keepalive_core::KeepRule;
use lb_policy::Balancer;
use live_channel::{WorkerContext, open_channel, ran_of, report_channel, start_links};
use live_run::Outcome;
use resolver_core::Target;
use script_text::ReportFault;
use session_text::Ran;
use shared_channel::{Seat, SharedChannel};
use std::alloc::Global;
use std::sync::Wait;
use std::thread::Threads;

/// How many threads keep links open, and how, and the seed of the random choices.
#[derive(Clone, Copy)]
struct Keeping {
    nets: u32,
    keep: Option<KeepRule>,
    seed: u64,
}

/// Opens a channel for a target over this world with these policies. Does all work over it, each in a thread of its own with a handle
/// of its own. Shuts the channel down after it, joins everything, and gives the work back. May never return.
pub fn run_clients<
    R: Threads + Wait + Sync,
    P: Balancer + Send,
    W: NamedWorld,
    J: ClientWork + Send + Drop,
>(
    rt: &R,
    alloc: Global,
    options: ChannelOptions,
    policies: Vec<P>,
    world: W,
    works: Vec<J>,
) -> Result<(Vec<J>, Ended), NoMemory>
    requires ready { are_ready (map P.seen policies.items) ≡ true }
    requires target { IsTarget options.target }
    requires few { length works.items ≤ 1024 }
    ensures done { IfOk result (λ r. WorksAreDone J.shows r.0.items) }
{
    let ChannelOptions {
        target,
        config,
        nets,
        keep,
        seed,
    } = options;
    let (channel, seat) = open_channel(alloc, policies, &target)?;
    let keeping = Keeping { nets, keep, seed };
    let (_seat, outcome, works) = run_world(
        rt, alloc, keeping, world, &channel, seat, target, config, works,
    )?;
    Ok((works, ended_of(outcome)))
}

/// How the run ended.
fn ended_of(outcome: Outcome) -> Ended {
    match outcome {
        Outcome::Whole => Ended::Shut,
        Outcome::Full | Outcome::NoMemory => Ended::Stopped,
    }
}

/// The same, and writes the report of the session, whose first line has `name` for the target; where the session had no room for an
/// event of the channel itself, a line after it says so.
pub fn record_clients<
    R: Threads + Wait + Sync,
    P: Balancer + Send,
    W: NamedWorld,
    J: ClientWork + Send + Drop,
    K: Sink,
>(
    rt: &R,
    alloc: Global,
    options: ChannelOptions,
    policies: Vec<P>,
    world: W,
    works: Vec<J>,
    name: &Text,
    report: &mut K,
) -> Result<(Vec<J>, Result<Ran, ReportFault>), NoMemory>
    requires ready { are_ready (map P.seen policies.items) ≡ true }
    requires target { IsTarget options.target }
    requires few { length works.items ≤ 1024 }
    ensures recorded { IfOk result (λ r. WorksAreDone J.shows r.0.items × IfOk r.1 (λ ran. WritesAll (IsClientReport J.shows (map P.seen policies.items) (W.held world) ran options.target options.config name.now r.0.items) (K.taken report.old) (K.taken report.new))) }
{
    let ChannelOptions {
        target,
        config,
        nets,
        keep,
        seed,
    } = options;
    let (channel, seat) = open_channel(alloc, policies, &target)?;
    let keeping = Keeping { nets, keep, seed };
    let (mut seat, outcome, works) = run_world(
        rt, alloc, keeping, world, &channel, seat, target, config, works,
    )?;
    let ran = ran_of(outcome)?;
    let written = report_channel(rt, alloc, &channel, &mut seat, name, ran, report);
    match written {
        Ok(()) => Ok((works, Ok(ran))),
        Err(fault) => Ok((works, Err(fault))),
    }
}

/// Does the work over the parts of a world.
fn run_world<
    R: Threads + Wait + Sync,
    P: Balancer + Send,
    W: NamedWorld,
    J: ClientWork + Send + Drop,
>(
    rt: &R,
    alloc: Global,
    keeping: Keeping,
    mut world: W,
    channel: &SharedChannel<P>,
    seat: Seat<P>,
    target: Target,
    config: Option<Octets>,
    works: Vec<J>,
) -> Result<(Seat<P>, Outcome, Vec<J>), NoMemory>
    requires seat { IsFirstSeat channel.now seat }
    requires few { length works.items ≤ 1024 }
    ensures left { IfOk result (λ r. LeavesClients J.shows channel.now (W.held world) config r.1 r.2.items r.0) }
    ensures reported { IfOk result (λ r. ReportsTarget target config r.0.seen) }
{
    let lookup = world.lookup();
    let (clock, mut draws, dialers) = world.parts(keeping.seed);
    let context = WorkerContext {
        rt,
        alloc,
        channel,
        clock: &clock,
        nets: keeping.nets,
        keep: keeping.keep,
    };
    let (seat, links) = start_links(&context, seat, &mut draws, dialers, lookup, target, config)?;
    run_beside(&context, seat, draws, works, links)
}
