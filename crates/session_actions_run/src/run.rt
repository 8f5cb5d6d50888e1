// The report of a script's session, and the status of the program.
ghost use Rattle.std.specs.Prelude.{◌≡◌, ◌<◌, ◌⊎◌, length};
ghost use Rattle.gate_io.specs.Outside.{Rises};
ghost use Rattle.resolver_core.specs.AnyTargets.{IsTarget};
ghost use Rattle.session_actions_run.specs.Reports.{IsDone, IsFirstReport, IsOutput, IsReport, IsScriptReport, StopsAtRead, StopsLong, ReportsBadLine};
ghost use Rattle.session_text.specs.Writing.{WritesAll, WritesPrefix, WritesSome};

use crate::input::read_script;
use crate::session::{MOST_EVENTS, write_first, write_session};
use gate_io::{Sink, Source};
use grpc_base::{Stamped, Text};
use resolver_core::Target;
use script_input::{Form, InputFault, Script};
use session_text::{report_bad, unwritten};
use std::alloc::Global;

/// Reads a script, or a report that holds one, writes the report of its session, and gives the status of the program.
///
/// | Status | When | Written |
/// |---|---|---|
/// | 0 | done | the report; nothing for an input of no bytes |
/// | 3 | a line of the script is bad | `fault line <n> cause <c>` |
/// | 4 | a read failed before the input's end and its first bad line | nothing |
/// | 5 | a write failed | a prefix of the output |
/// | 6 | out of memory | nothing, or a prefix of the output |
/// | 7 | the script has more than 4,096 events | the report of the first 4,096, and `stopped after 4096 entries` |
pub fn run_script<S: Source, K: Sink>(alloc: Global, form: Form, source: &mut S, sink: &mut K) -> u8
    ensures done { result ≡ 0 → WritesAll (IsDone form (S.left source.old) (S.left source.new)) (K.taken sink.old) (K.taken sink.new) }
    ensures line { result ≡ 3 → WritesAll (ReportsBadLine form (S.left source.old) (S.left source.new)) (K.taken sink.old) (K.taken sink.new) }
    ensures reading { result ≡ 4 → StopsAtRead form (S.left source.old) (S.left source.new) (K.taken sink.old) (K.taken sink.new) (S.faults source.old) (S.faults source.new) }
    ensures writing { result ≡ 5 → Rises (K.faults sink.old) (K.faults sink.new) × WritesPrefix (IsOutput form (S.left source.old) (S.left source.new)) (K.taken sink.old) (K.taken sink.new) }
    ensures memory { result ≡ 6 → WritesSome (IsOutput form (S.left source.old) (S.left source.new)) (K.taken sink.old) (K.taken sink.new) }
    ensures long { result ≡ 7 → WritesAll (StopsLong form (S.left source.old) (S.left source.new)) (K.taken sink.old) (K.taken sink.new) }
    ensures known { (result ≡ 0) ⊎ (result ≡ 3) ⊎ (result ≡ 4) ⊎ (result ≡ 5) ⊎ (result ≡ 6) ⊎ (result ≡ 7) }
{
    match read_script(alloc, form, source) {
        Ok(read) => report_script(alloc, read, sink),
        Err(fault) => match fault {
            InputFault::Empty => 0,
            InputFault::BadLine { line, cause } => report_bad(alloc, line, cause, sink),
            InputFault::ReadFailed => 4,
            InputFault::NoMemory => 6,
        },
    }
}

/// Writes the report of a script's session, or of that of its first events where it has too many, and gives the status of the program.
fn report_script<K: Sink>(alloc: Global, script: Script, sink: &mut K) -> u8
    requires { IsTarget script.value }
    ensures done { result ≡ 0 → WritesAll (IsReport script.target script.value script.events.items) (K.taken sink.old) (K.taken sink.new) }
    ensures long { result ≡ 7 → WritesAll (IsFirstReport script.target script.value script.events.items) (K.taken sink.old) (K.taken sink.new) }
    ensures writing { result ≡ 5 → Rises (K.faults sink.old) (K.faults sink.new) × WritesPrefix (IsScriptReport script.target script.value script.events.items) (K.taken sink.old) (K.taken sink.new) }
    ensures memory { result ≡ 6 → WritesSome (IsScriptReport script.target script.value script.events.items) (K.taken sink.old) (K.taken sink.new) }
    ensures known { (result ≡ 0) ⊎ (result ≡ 5) ⊎ (result ≡ 6) ⊎ (result ≡ 7) }
{
    let Script {
        target,
        value,
        events,
    } = script;
    if MOST_EVENTS < events.len() {
        return report_first(alloc, &target, &value, events, sink);
    }
    match write_session(alloc, &target, &value, events, sink) {
        Ok(()) => 0,
        Err(fault) => unwritten(fault),
    }
}

/// Writes the report of the session of the first of too many events, and gives the status of the program.
fn report_first<K: Sink>(
    alloc: Global,
    target: &Text,
    value: &Target,
    events: Vec<Stamped>,
    sink: &mut K,
) -> u8
    requires target { IsTarget value.now }
    requires long { 4096 < length events.items }
    ensures long { result ≡ 7 → WritesAll (IsFirstReport target.now value.now events.items) (K.taken sink.old) (K.taken sink.new) }
    ensures writing { result ≡ 5 → Rises (K.faults sink.old) (K.faults sink.new) × WritesPrefix (IsFirstReport target.now value.now events.items) (K.taken sink.old) (K.taken sink.new) }
    ensures memory { result ≡ 6 → WritesSome (IsFirstReport target.now value.now events.items) (K.taken sink.old) (K.taken sink.new) }
    ensures known { (result ≡ 5) ⊎ (result ≡ 6) ⊎ (result ≡ 7) }
{
    match write_first(alloc, target, value, events, sink) {
        Ok(()) => 7,
        Err(fault) => unwritten(fault),
    }
}
