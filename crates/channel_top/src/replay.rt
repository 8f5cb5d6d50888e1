// The mode `replay`.
ghost use Rattle.std.specs.Prelude.{◌≡◌, ◌⊎◌, map, true};
ghost use Rattle.gate_io.specs.Outside.{Rises};
ghost use Rattle.channel_top.specs.Top.{EndsFull, IsDone, IsFullReport, IsReplayText, IsReport, IsRunReport, StopsAtRead, ReportsBadLine};
ghost use Rattle.session_text.specs.Writing.{WritesAll, WritesPrefix, WritesSome};
ghost use Rattle.policy_rack.specs.Kinds.{are_ready};
ghost use Rattle.resolver_core.specs.AnyTargets.{IsTarget};

use crate::session::report_session;
use gate_io::{Sink, Source};
use lb_policy::Balancer;
use script_input::{InputFault, Script, read_replay};
use session_text::{Ran, report_bad, unwritten};
use std::alloc::Global;

/// Reads a script, runs it with these policies, writes the report, and gives the status of the program.
///
/// | Status | When | Written |
/// |---|---|---|
/// | 0 | done | the report; nothing for a script of no bytes |
/// | 3 | a line of the script is bad | `fault line <n> cause <c>` |
/// | 4 | a read failed before the input's end and its first bad line | nothing |
/// | 5 | a write failed | a prefix of the output |
/// | 6 | out of memory | nothing, or a prefix of the output |
/// | 7 | the journal has no room for an event | the report of those before it, and `fault session full` |
pub fn run_replay<P: Balancer, S: Source, K: Sink>(
    alloc: Global,
    policies: Vec<P>,
    script: &mut S,
    report: &mut K,
) -> u8
    requires { are_ready (map P.seen policies.items) ≡ true }
    ensures done { result ≡ 0 → WritesAll (IsDone (map P.seen policies.items) (S.left script.old) (S.left script.new)) (K.taken report.old) (K.taken report.new) }
    ensures line { result ≡ 3 → WritesAll (ReportsBadLine (S.left script.old) (S.left script.new)) (K.taken report.old) (K.taken report.new) }
    ensures reading { result ≡ 4 → StopsAtRead (S.left script.old) (S.left script.new) (K.taken report.old) (K.taken report.new) (S.faults script.old) (S.faults script.new) }
    ensures writing { result ≡ 5 → Rises (K.faults report.old) (K.faults report.new) × WritesPrefix (IsReplayText (map P.seen policies.items) (S.left script.old) (S.left script.new)) (K.taken report.old) (K.taken report.new) }
    ensures memory { result ≡ 6 → WritesSome (IsReplayText (map P.seen policies.items) (S.left script.old) (S.left script.new)) (K.taken report.old) (K.taken report.new) }
    ensures full { result ≡ 7 → WritesAll (EndsFull (map P.seen policies.items) (S.left script.old) (S.left script.new)) (K.taken report.old) (K.taken report.new) }
    ensures known { (result ≡ 0) ⊎ (result ≡ 3) ⊎ (result ≡ 4) ⊎ (result ≡ 5) ⊎ (result ≡ 6) ⊎ (result ≡ 7) }
{
    match read_replay(alloc, script) {
        Ok(read) => report_script(alloc, policies, read, report),
        Err(fault) => match fault {
            InputFault::Empty => 0,
            InputFault::BadLine { line, cause } => report_bad(alloc, line, cause, report),
            InputFault::ReadFailed => 4,
            InputFault::NoMemory => 6,
        },
    }
}

/// Runs a script that was read and writes the report.
fn report_script<P: Balancer, K: Sink>(
    alloc: Global,
    policies: Vec<P>,
    script: Script,
    report: &mut K,
) -> u8
    requires ready { are_ready (map P.seen policies.items) ≡ true }
    requires target { IsTarget script.value }
    ensures done { result ≡ 0 → WritesAll (IsReport (map P.seen policies.items) script.target script.value script.events.items) (K.taken report.old) (K.taken report.new) }
    ensures full { result ≡ 7 → WritesAll (IsFullReport (map P.seen policies.items) script.target script.value script.events.items) (K.taken report.old) (K.taken report.new) }
    ensures writing { result ≡ 5 → Rises (K.faults report.old) (K.faults report.new) × WritesPrefix (IsRunReport (map P.seen policies.items) script.target script.value script.events.items) (K.taken report.old) (K.taken report.new) }
    ensures memory { result ≡ 6 → WritesSome (IsRunReport (map P.seen policies.items) script.target script.value script.events.items) (K.taken report.old) (K.taken report.new) }
    ensures known { (result ≡ 0) ⊎ (result ≡ 5) ⊎ (result ≡ 6) ⊎ (result ≡ 7) }
{
    match report_session(alloc, policies, script, report) {
        Ok(ran) => match ran {
            Ran::Whole => 0,
            Ran::Full => 7,
        },
        Err(fault) => unwritten(fault),
    }
}
