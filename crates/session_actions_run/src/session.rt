// The session of a script's events, and its report.
ghost use Rattle.std.specs.Prelude.{◌≡◌, ◌<◌, ◌≤◌, Err, IfOk, OnErr, OnOk, length};
ghost use Rattle.gate_io.specs.Outside.{Rises};
ghost use Rattle.resolver_core.specs.AnyTargets.{IsTarget};
ghost use Rattle.session_actions_run.specs.Reports.{IsFirstReport, IsReport, setup_of};
ghost use Rattle.session_text.specs.Writing.{WritesAll, WritesPrefix, WritesSome};
ghost use Rattle.slow_session.specs.Plays.{IsSessionOf};

use crate::setup::setup_of;
use gate_io::Sink;
use grpc_base::{NoMemory, Stamped, Text};
use resolver_core::Target;
use script_text::{ReportFault, write_report};
use session_text::write_text;
use slow_session::{Report, run};
use std::alloc::Global;

/// The most events of a script that are computed: each action reads all that happened before it, so the time grows with the square of them, and more.
pub const MOST_EVENTS: usize = 4096;

/// The line after the report of the first events.
const STOPPED: &[u8] = b"stopped after 4096 entries\n";

/// The journal and the ledger of the session of these events, on a channel of this target.
fn session_of(alloc: Global, value: &Target, events: Vec<Stamped>) -> Result<Report, NoMemory>
    requires { IsTarget value.now }
    ensures { IfOk result (λ r. IsSessionOf (setup_of value.now) events.items r.journal.entries r.ledger) }
{
    let setup = setup_of(alloc, value)?;
    run(alloc, setup, events)
}

/// Writes the report of the session of these events.
pub fn write_session<K: Sink>(
    alloc: Global,
    target: &Text,
    value: &Target,
    events: Vec<Stamped>,
    sink: &mut K,
) -> Result<(), ReportFault>
    requires { IsTarget value.now }
    ensures ok { OnOk result (WritesAll (IsReport target.now value.now events.items) (K.taken sink.old) (K.taken sink.new)) }
    ensures err { OnErr result (WritesSome (IsReport target.now value.now events.items) (K.taken sink.old) (K.taken sink.new)) }
    ensures write { (result ≡ Err ReportFault.Write) → Rises (K.faults sink.old) (K.faults sink.new) × WritesPrefix (IsReport target.now value.now events.items) (K.taken sink.old) (K.taken sink.new) }
    ensures count { K.faults sink.old ≤ K.faults sink.new }
{
    let report = session_of(alloc, value, events)?;
    write_report(alloc, &report.journal, &report.ledger, target, sink)
}

/// Writes the report of the session of the first of these events, and the line that says so.
pub fn write_first<K: Sink>(
    alloc: Global,
    target: &Text,
    value: &Target,
    events: Vec<Stamped>,
    sink: &mut K,
) -> Result<(), ReportFault>
    requires target { IsTarget value.now }
    requires long { 4096 < length events.items }
    ensures ok { OnOk result (WritesAll (IsFirstReport target.now value.now events.items) (K.taken sink.old) (K.taken sink.new)) }
    ensures err { OnErr result (WritesSome (IsFirstReport target.now value.now events.items) (K.taken sink.old) (K.taken sink.new)) }
    ensures write { (result ≡ Err ReportFault.Write) → Rises (K.faults sink.old) (K.faults sink.new) × WritesPrefix (IsFirstReport target.now value.now events.items) (K.taken sink.old) (K.taken sink.new) }
{
    let mut first = events;
    first.truncate(MOST_EVENTS);
    match write_session(alloc, target, value, first, sink) {
        Ok(()) => write_text(sink, STOPPED),
        Err(fault) => Err(fault),
    }
}
