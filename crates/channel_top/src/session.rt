// A script that is run and reported.
ghost use Rattle.std.specs.Prelude.{◌≡◌, Err, IfOk, OnErr, map, true};
ghost use Rattle.gate_io.specs.Outside.{Rises};
ghost use Rattle.grpc_base.specs.Authorities.{IsAuthority};
ghost use Rattle.channel_top.specs.Runs.{HasRun};
ghost use Rattle.channel_top.specs.Top.{IsReportBy, IsRunReport};
ghost use Rattle.session_text.specs.Writing.{WritesAll, WritesPrefix, WritesSome};
ghost use Rattle.policy_rack.specs.Kinds.{are_ready};
ghost use Rattle.resolver_core.specs.AnyTargets.{IsTarget, authority_of};

use crate::promise::sessions_keep_the_promise;
use crate::run::run_events;
use channel_core::ChannelCore;
use gate_io::Sink;
use grpc_base::{NoMemory, Stamped, Text};
use lb_policy::Balancer;
use resolver_core::Target;
use script_input::Script;
use script_text::ReportFault;
use session_text::{Ran, write_session};
use std::alloc::Global;

/// A channel that was given the events of a script, and how far.
#[derive(Drop)]
struct Session<P: Balancer> {
    core: ChannelCore<P>,
    ran: Ran,
}

/// Runs a script with these policies, and writes the report of its session; where the journal has no room for an event, the report
/// of those before it and a line that says so.
pub fn report_session<P: Balancer, K: Sink>(
    alloc: Global,
    policies: Vec<P>,
    script: Script,
    report: &mut K,
) -> Result<Ran, ReportFault>
    requires ready { are_ready (map P.seen policies.items) ≡ true }
    requires target { IsTarget script.value }
    ensures ok { IfOk result (λ ran. WritesAll (IsReportBy ran (map P.seen policies.items) script.target script.value script.events.items) (K.taken report.old) (K.taken report.new)) }
    ensures err { OnErr result (WritesSome (IsRunReport (map P.seen policies.items) script.target script.value script.events.items) (K.taken report.old) (K.taken report.new)) }
    ensures write { (result ≡ Err ReportFault.Write) → Rises (K.faults report.old) (K.faults report.new) × WritesPrefix (IsRunReport (map P.seen policies.items) script.target script.value script.events.items) (K.taken report.old) (K.taken report.new) }
{
    let Script {
        target,
        value,
        events,
    } = script;
    sessions_keep_the_promise();
    let session = run_session(alloc, policies, value, events)?;
    match write_session(alloc, &session.core, session.ran, &target, report) {
        Ok(()) => Ok(session.ran),
        Err(fault) => Err(fault),
    }
}

/// Gives a new channel the events of a script.
fn run_session<P: Balancer>(
    alloc: Global,
    policies: Vec<P>,
    target: Target,
    events: Vec<Stamped>,
) -> Result<Session<P>, NoMemory>
    requires ready { are_ready (map P.seen policies.items) ≡ true }
    requires target { IsTarget target }
    ensures { IfOk result (λ s. HasRun s.ran (authority_of target) (map P.seen policies.items) events.items s.core) }
{
    let authority = authority_of(alloc, target)?;
    let mut core = ChannelCore::new(alloc, authority, policies)?;
    let ran = run_events(&mut core, events)?;
    Ok(Session { core, ran })
}

/// What requests to a target name as their authority.
fn authority_of(alloc: Global, target: Target) -> Result<Text, NoMemory>
    requires { IsTarget target }
    ensures text { IfOk result (λ t. t ≡ authority_of target) }
    ensures is_authority { IfOk result IsAuthority }
{
    target.authority(alloc)
}
