// The mode `live`.
ghost use Rattle.std.specs.Prelude.{◌≡◌, ◌⊎◌, map, true};
ghost use Rattle.gate_io.specs.Outside.{Rises};
ghost use Rattle.live_mode.specs.Live.{EndsLiveFull, IsAnyLiveReport, IsLiveReport, IsLiveText, IsLived, StopsInCalls, ReportsBadCall};
ghost use Rattle.session_text.specs.Writing.{WritesAll, WritesPrefix, WritesSome};
ghost use Rattle.session_text.specs.declared.ran.Ran.TheVariants as ran_is;
ghost use Rattle.policy_rack.specs.Kinds.{are_ready};
ghost use Rattle.resolver_core.specs.AnyTargets.{IsTarget};

use crate::session::report_live;
use crate::settings::LiveSettings;
use dns_watch::NamedWorld;
use gate_io::{Sink, Source};
use lb_policy::Balancer;
use script_input::{InputFault, LiveScript, read_live};
use session_text::{Ran, report_bad, unwritten};
use std::alloc::Global;
use std::sync::Wait;
use std::thread::Threads;

/// Reads a live script, makes its calls over the world's links, writes the report of the session, and gives the status of the program.
/// It may never return.
///
/// | Status | When | Written |
/// |---|---|---|
/// | 0 | each call was made to its end | the report |
/// | 3 | a line of the script is bad | `fault line <n> cause <c>` |
/// | 4 | a read failed before the input's end and its first bad line | nothing |
/// | 5 | a write failed | a prefix of the output |
/// | 6 | out of memory | nothing, or a prefix of the output |
/// | 7 | the session had no room for an event | the report, and `fault session full` |
pub fn run_live<R: Threads + Wait + Sync, P: Balancer + Send, S: Source, K: Sink, W: NamedWorld>(
    rt: &R,
    alloc: Global,
    settings: LiveSettings,
    policies: Vec<P>,
    world: W,
    script: &mut S,
    report: &mut K,
) -> u8
    requires { are_ready (map P.seen policies.items) ≡ true }
    ensures done { result ≡ 0 → WritesAll (IsLived (map P.seen policies.items) (W.held world) (S.left script.old) (S.left script.new)) (K.taken report.old) (K.taken report.new) }
    ensures line { result ≡ 3 → WritesAll (ReportsBadCall (S.left script.old) (S.left script.new)) (K.taken report.old) (K.taken report.new) }
    ensures reading { result ≡ 4 → StopsInCalls (S.left script.old) (S.left script.new) (K.taken report.old) (K.taken report.new) (S.faults script.old) (S.faults script.new) }
    ensures writing { result ≡ 5 → Rises (K.faults report.old) (K.faults report.new) × WritesPrefix (IsLiveText (map P.seen policies.items) (W.held world) (S.left script.old) (S.left script.new)) (K.taken report.old) (K.taken report.new) }
    ensures memory { result ≡ 6 → WritesSome (IsLiveText (map P.seen policies.items) (W.held world) (S.left script.old) (S.left script.new)) (K.taken report.old) (K.taken report.new) }
    ensures full { result ≡ 7 → WritesAll (EndsLiveFull (map P.seen policies.items) (W.held world) (S.left script.old) (S.left script.new)) (K.taken report.old) (K.taken report.new) }
    ensures known { (result ≡ 0) ⊎ (result ≡ 3) ⊎ (result ≡ 4) ⊎ (result ≡ 5) ⊎ (result ≡ 6) ⊎ (result ≡ 7) }
{
    match read_live(alloc, script) {
        Ok(read) => live_script(rt, alloc, settings, policies, world, read, report),
        Err(fault) => match fault {
            InputFault::Empty => unreachable!(),
            InputFault::BadLine { line, cause } => report_bad(alloc, line, cause, report),
            InputFault::ReadFailed => 4,
            InputFault::NoMemory => 6,
        },
    }
}

/// Makes the calls of a script that was read.
fn live_script<R: Threads + Wait + Sync, P: Balancer + Send, K: Sink, W: NamedWorld>(
    rt: &R,
    alloc: Global,
    settings: LiveSettings,
    policies: Vec<P>,
    world: W,
    script: LiveScript,
    report: &mut K,
) -> u8
    requires ready { are_ready (map P.seen policies.items) ≡ true }
    requires target { IsTarget script.value }
    ensures done { result ≡ 0 → WritesAll (IsLiveReport (map P.seen policies.items) (W.held world) ran_is.Whole script) (K.taken report.old) (K.taken report.new) }
    ensures full { result ≡ 7 → WritesAll (IsLiveReport (map P.seen policies.items) (W.held world) ran_is.Full script) (K.taken report.old) (K.taken report.new) }
    ensures writing { result ≡ 5 → Rises (K.faults report.old) (K.faults report.new) × WritesPrefix (IsAnyLiveReport (map P.seen policies.items) (W.held world) script) (K.taken report.old) (K.taken report.new) }
    ensures memory { result ≡ 6 → WritesSome (IsAnyLiveReport (map P.seen policies.items) (W.held world) script) (K.taken report.old) (K.taken report.new) }
    ensures known { (result ≡ 0) ⊎ (result ≡ 5) ⊎ (result ≡ 6) ⊎ (result ≡ 7) }
{
    match report_live(rt, alloc, settings, policies, world, script, report) {
        Ok(ran) => match ran {
            Ran::Whole => 0,
            Ran::Full => 7,
        },
        Err(fault) => unwritten(fault),
    }
}
