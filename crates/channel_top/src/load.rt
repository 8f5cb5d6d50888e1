// The mode `load`.
ghost use Rattle.std.specs.Prelude.{◌≡◌, ◌≢◌, ◌⊎◌, ◌++◌, ◌∷◌, [], Err, IfOk, OnErr, OnOk, map, true};
ghost use Rattle.gate_io.specs.Outside.{Appends, AppendsPrefix, Rises};
ghost use Rattle.channel_top.specs.Load.{FillsLoad, IsLoadDone, IsLoadText, RefusesLoad};
ghost use Rattle.session_text.specs.Writing.{WritesAll, WritesPrefix, WritesSome};
ghost use Rattle.load_plan.specs.Lines.{summary_line};
ghost use Rattle.policy_rack.specs.Kinds.{are_ready, kinds_of};

use crate::promise::sessions_keep_the_promise;
use crate::reporting::WORDS_FAULT;
use gate_io::{Sink, write_whole};
use grpc_base::{Kind, NoMemory, Text};
use lb_policy::Balancer;
use load_plan::{Load, LoadSummary};
use load_session::{LoadFault, summarize};
use policy_rack::set_of;
use script_text::ReportFault;
use session_text::{SESSION_FULL, unwritten, write_text};
use std::alloc::Global;

/// Plays the session of a load in memory with these policies, writes the line that sums it up, and gives the status of the
/// program.
///
/// | Status | When | Written |
/// |---|---|---|
/// | 0 | done | the line |
/// | 2 | `round_robin` is not among the policies | `fault words` |
/// | 5 | a write failed | a prefix of the output |
/// | 6 | out of memory | nothing, or a prefix of the output |
/// | 7 | the journal has no room for an event | `fault session full` |
pub fn run_load<P: Balancer, K: Sink>(
    alloc: Global,
    load: Load,
    policies: Vec<P>,
    report: &mut K,
) -> u8
    requires { are_ready (map P.seen policies.items) ≡ true }
    ensures done { result ≡ 0 → WritesAll (IsLoadDone (map P.seen policies.items) load) (K.taken report.old) (K.taken report.new) }
    ensures refused { result ≡ 2 → WritesAll (RefusesLoad (kinds_of (map P.seen policies.items))) (K.taken report.old) (K.taken report.new) }
    ensures writing { result ≡ 5 → Rises (K.faults report.old) (K.faults report.new) × WritesPrefix (IsLoadText (map P.seen policies.items) load) (K.taken report.old) (K.taken report.new) }
    ensures memory { result ≡ 6 → WritesSome (IsLoadText (map P.seen policies.items) load) (K.taken report.old) (K.taken report.new) }
    ensures full { result ≡ 7 → WritesAll (FillsLoad (map P.seen policies.items) load) (K.taken report.old) (K.taken report.new) }
    ensures known { (result ≡ 0) ⊎ (result ≡ 2) ⊎ (result ≡ 5) ⊎ (result ≡ 6) ⊎ (result ≡ 7) }
{
    let kinds = set_of(policies.as_slice());
    if !kinds.has(Kind::RoundRobin) {
        return report_line(report, WORDS_FAULT, 2);
    }
    sessions_keep_the_promise();
    match summarize(alloc, load, policies) {
        Ok(summary) => report_summary(alloc, &summary, report),
        Err(fault) => match fault {
            LoadFault::SessionFull => report_line(report, SESSION_FULL, 7),
            LoadFault::NoMemory => 6,
        },
    }
}

/// Reports a fault by its line, and gives the status of the program: this one, or that of a write that failed.
fn report_line<K: Sink>(report: &mut K, line: &[u8], status: u8) -> u8
    requires { status ≢ 5 }
    ensures whole { result ≡ status → Appends (K.taken report.old) (K.taken report.new) line.now }
    ensures writing { result ≡ 5 → Rises (K.faults report.old) (K.faults report.new) }
    ensures prefix { result ≡ 5 → AppendsPrefix (K.taken report.old) (K.taken report.new) line.now }
    ensures known { (result ≡ status) ⊎ (result ≡ 5) }
{
    if write_whole(report, line) {
        return status;
    }
    5
}

/// Writes the line of a load, and gives the status of the program.
fn report_summary<K: Sink>(alloc: Global, summary: &LoadSummary, report: &mut K) -> u8
    ensures done { result ≡ 0 → Appends (K.taken report.old) (K.taken report.new) (summary_line summary.now ++ 10 ∷ []) }
    ensures writing { result ≡ 5 → Rises (K.faults report.old) (K.faults report.new) }
    ensures prefix { (result ≡ 5) ⊎ (result ≡ 6) → AppendsPrefix (K.taken report.old) (K.taken report.new) (summary_line summary.now ++ 10 ∷ []) }
    ensures known { (result ≡ 0) ⊎ (result ≡ 5) ⊎ (result ≡ 6) }
{
    match write_summary(alloc, summary, report) {
        Ok(()) => 0,
        Err(fault) => unwritten(fault),
    }
}

/// Writes the line of a load.
#[tactic(auto, using(crate::proofs::WrittenLaws::none_written))]
fn write_summary<K: Sink>(
    alloc: Global,
    summary: &LoadSummary,
    report: &mut K,
) -> Result<(), ReportFault>
    ensures ok { OnOk result (Appends (K.taken report.old) (K.taken report.new) (summary_line summary.now ++ 10 ∷ [])) }
    ensures err { OnErr result (AppendsPrefix (K.taken report.old) (K.taken report.new) (summary_line summary.now ++ 10 ∷ [])) }
    ensures write { (result ≡ Err ReportFault.Write) → Rises (K.faults report.old) (K.faults report.new) }
{
    let text = summary_text(alloc, summary)?;
    write_text(report, text.as_slice())
}

/// The line of a load, with its line feed.
fn summary_text(alloc: Global, summary: &LoadSummary) -> Result<Text, NoMemory>
    ensures { IfOk result (λ t. t ≡ summary_line summary.now ++ 10 ∷ []) }
{
    let line = summary.line(alloc)?;
    let mut text = Text::of_slice(alloc, line.as_slice())?;
    text.push(b'\n')?;
    Ok(text)
}
