// The mode `relay`.
ghost use Rattle.std.specs.Prelude.{◌≡◌, ◌≢◌, ◌⊎◌, map, true};
ghost use Rattle.grpc_base.specs.Counts.{one_more};
ghost use Rattle.gate_io.specs.Outside.{Rises};
ghost use Rattle.policy_rack.specs.Kinds.{are_ready};
ghost use Rattle.resolver_core.specs.AnyTargets.{IsTarget};
ghost use Rattle.session_text.specs.Writing.{WritesAll, WritesPrefix, WritesSome};
ghost use Rattle.session_text.specs.declared.ran.Ran.TheVariants as ran_is;
ghost use Rattle.relay_mode.specs.Relayed.{EndsRelayFull, EndsUnrelayed, IsAnyRelayReport, IsRelayReport, IsRelayText, IsRelayed, StopsAtRelay, ReportsBadRelay};

use crate::session::{Relayed, report_relay};
use crate::settings::RelaySettings;
use dns_watch::NamedWorld;
use gate_io::{Listener, Sink, Source};
use lb_policy::Balancer;
use script_input::{InputFault, LiveScript, read_relay};
use session_text::{Ran, report_bad, unwritten};
use std::alloc::Global;
use std::sync::Wait;
use std::thread::Threads;

/// Reads a live script without calls, relays so many links of the listener through one channel over the world's links, each until it has
/// ended, writes the report of the session, and gives the status of the program. It may never return.
///
/// | Status | When | Written |
/// |---|---|---|
/// | 0 | each link was accepted and has ended | the report |
/// | 3 | a line of the script is bad | `fault line <n> cause <c>` |
/// | 4 | a read failed before the input's end and its first bad line | nothing |
/// | 5 | a write failed | a prefix of the output |
/// | 6 | out of memory, also for one link | nothing, or a prefix of the output |
/// | 7 | the session had no room for an event | the report, and `fault session full` |
/// | 8 | the listener did not open, or did not accept a link | nothing |
pub fn run_relay<
    R: Threads + Wait + Sync,
    P: Balancer + Send,
    S: Source,
    K: Sink,
    W: NamedWorld,
    L: Listener,
>(
    rt: &R,
    alloc: Global,
    settings: RelaySettings,
    policies: Vec<P>,
    world: W,
    script: &mut S,
    report: &mut K,
    listener: &mut L,
) -> u8
    requires { are_ready (map P.seen policies.items) ≡ true }
    ensures done { result ≡ 0 → WritesAll (IsRelayed (map P.seen policies.items) (W.held world) settings.links (S.left script.old) (S.left script.new)) (K.taken report.old) (K.taken report.new) }
    ensures line { result ≡ 3 → WritesAll (ReportsBadRelay (S.left script.old) (S.left script.new)) (K.taken report.old) (K.taken report.new) }
    ensures reading { result ≡ 4 → StopsAtRelay (S.left script.old) (S.left script.new) (K.taken report.old) (K.taken report.new) (S.faults script.old) (S.faults script.new) }
    ensures writing { result ≡ 5 → Rises (K.faults report.old) (K.faults report.new) × WritesPrefix (IsRelayText (map P.seen policies.items) (W.held world) settings.links (S.left script.old) (S.left script.new)) (K.taken report.old) (K.taken report.new) }
    ensures memory { result ≡ 6 → WritesSome (IsRelayText (map P.seen policies.items) (W.held world) settings.links (S.left script.old) (S.left script.new)) (K.taken report.old) (K.taken report.new) }
    ensures full { result ≡ 7 → WritesAll (EndsRelayFull (map P.seen policies.items) (W.held world) settings.links (S.left script.old) (S.left script.new)) (K.taken report.old) (K.taken report.new) }
    ensures not_listening { result ≡ 8 → EndsUnrelayed (S.left script.old) (S.left script.new) (K.taken report.old) (K.taken report.new) (L.faults listener.old) (L.faults listener.new) }
    ensures listened { result ≢ 6 → result ≢ 8 → L.faults listener.new ≡ L.faults listener.old }
    ensures known { (result ≡ 0) ⊎ (result ≡ 3) ⊎ (result ≡ 4) ⊎ (result ≡ 5) ⊎ (result ≡ 6) ⊎ (result ≡ 7) ⊎ (result ≡ 8) }
{
    match read_relay(alloc, script) {
        Ok(read) => relay_script(rt, alloc, settings, policies, world, read, report, listener),
        Err(fault) => match fault {
            InputFault::Empty => unreachable!(),
            InputFault::BadLine { line, cause } => report_bad(alloc, line, cause, report),
            InputFault::ReadFailed => 4,
            InputFault::NoMemory => 6,
        },
    }
}

/// Relays by a script that was read.
fn relay_script<R: Threads + Wait + Sync, P: Balancer + Send, K: Sink, W: NamedWorld, L: Listener>(
    rt: &R,
    alloc: Global,
    settings: RelaySettings,
    policies: Vec<P>,
    world: W,
    script: LiveScript,
    report: &mut K,
    listener: &mut L,
) -> u8
    requires ready { are_ready (map P.seen policies.items) ≡ true }
    requires target { IsTarget script.value }
    ensures done { result ≡ 0 → WritesAll (IsRelayReport (map P.seen policies.items) (W.held world) ran_is.Whole settings.links script) (K.taken report.old) (K.taken report.new) }
    ensures full { result ≡ 7 → WritesAll (IsRelayReport (map P.seen policies.items) (W.held world) ran_is.Full settings.links script) (K.taken report.old) (K.taken report.new) }
    ensures writing { result ≡ 5 → Rises (K.faults report.old) (K.faults report.new) × WritesPrefix (IsAnyRelayReport (map P.seen policies.items) (W.held world) settings.links script) (K.taken report.old) (K.taken report.new) }
    ensures memory { result ≡ 6 → WritesSome (IsAnyRelayReport (map P.seen policies.items) (W.held world) settings.links script) (K.taken report.old) (K.taken report.new) }
    ensures not_listening { result ≡ 8 → (K.taken report.new ≡ K.taken report.old) × (L.faults listener.new ≡ one_more (L.faults listener.old)) }
    ensures listened { result ≢ 6 → result ≢ 8 → L.faults listener.new ≡ L.faults listener.old }
    ensures known { (result ≡ 0) ⊎ (result ≡ 5) ⊎ (result ≡ 6) ⊎ (result ≡ 7) ⊎ (result ≡ 8) }
{
    if !listener.open(settings.port) {
        return 8;
    }
    match report_relay(
        rt, alloc, settings, policies, world, listener, script, report,
    ) {
        Ok(Relayed::Report(Ran::Whole)) => 0,
        Ok(Relayed::Report(Ran::Full)) => 7,
        Ok(Relayed::NotListening) => 8,
        Err(fault) => unwritten(fault),
    }
}
