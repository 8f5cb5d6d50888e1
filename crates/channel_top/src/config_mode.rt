// The mode that reads a service config and writes its reading.
ghost use Rattle.std.specs.Prelude.{◌≡◌, ◌⊎◌, Err, OnErr, OnOk};
ghost use Rattle.gate_io.specs.Outside.{Appends, AppendsPrefix, Rises};
ghost use Rattle.service_config.specs.Text.{fault_text};
ghost use Rattle.channel_top.specs.ConfigMode.{IsConfigDone, IsConfigText, StopsInConfig, ReportsConfigFault};
ghost use Rattle.session_text.specs.Writing.{WritesAll, WritesPrefix, WritesSome};

use crate::input::{Ending, read_input};
use gate_io::{Sink, Source};
use grpc_base::limits::CONFIG_BYTES;
use grpc_base::{ConfigFault, KindSet};
use script_text::{ReportFault, write_config};
use service_config::{fault_text, read_config};
use session_text::{unwritten, write_text};
use std::alloc::Global;

/// How many bytes of a config are read: one more than a config may have, so that the longest and those above it are distinguished.
const JUDGED: usize = CONFIG_BYTES + 1;

/// Reads a service config, where these kinds of policy are supported, writes its reading, and gives the status of the program.
///
/// | Status | When | Written |
/// |---|---|---|
/// | 0 | done | the reading |
/// | 3 | the input has a fault | `fault config <n> <detail>` |
/// | 4 | a read failed before the input's end and before it was too long | nothing |
/// | 5 | a write failed | a prefix of the output |
/// | 6 | out of memory | nothing, or a prefix of the output |
pub fn run_config<S: Source, K: Sink>(
    alloc: Global,
    kinds: KindSet,
    source: &mut S,
    report: &mut K,
) -> u8
    ensures done { result ≡ 0 → WritesAll (IsConfigDone kinds (S.left source.old) (S.left source.new)) (K.taken report.old) (K.taken report.new) }
    ensures fault { result ≡ 3 → WritesAll (ReportsConfigFault kinds (S.left source.old) (S.left source.new)) (K.taken report.old) (K.taken report.new) }
    ensures reading { result ≡ 4 → StopsInConfig (S.left source.old) (S.left source.new) (K.taken report.old) (K.taken report.new) (S.faults source.old) (S.faults source.new) }
    ensures writing { result ≡ 5 → Rises (K.faults report.old) (K.faults report.new) × WritesPrefix (IsConfigText kinds (S.left source.old) (S.left source.new)) (K.taken report.old) (K.taken report.new) }
    ensures memory { result ≡ 6 → WritesSome (IsConfigText kinds (S.left source.old) (S.left source.new)) (K.taken report.old) (K.taken report.new) }
    ensures known { (result ≡ 0) ⊎ (result ≡ 3) ⊎ (result ≡ 4) ⊎ (result ≡ 5) ⊎ (result ≡ 6) }
{
    let Ok(input) = read_input(alloc, source, JUDGED) else {
        return 6;
    };
    if input.ending == Ending::Failed {
        return 4;
    }
    match read_config(alloc, input.bytes.as_slice(), kinds) {
        Ok(config) => match write_config(alloc, &config, report) {
            Ok(()) => 0,
            Err(fault) => unwritten(fault),
        },
        Err(fault) => match fault {
            ConfigFault::NoMemory => 6,
            _ => match report_fault(alloc, &fault, report) {
                Ok(()) => 3,
                Err(fault) => unwritten(fault),
            },
        },
    }
}

/// Reports a fault of a config.
#[tactic(auto, using(crate::proofs::WrittenLaws::none_written))]
fn report_fault<K: Sink>(
    alloc: Global,
    fault: &ConfigFault,
    report: &mut K,
) -> Result<(), ReportFault>
    ensures ok { OnOk result (Appends (K.taken report.old) (K.taken report.new) (fault_text fault.now)) }
    ensures err { OnErr result (AppendsPrefix (K.taken report.old) (K.taken report.new) (fault_text fault.now)) }
    ensures write { (result ≡ Err ReportFault.Write) → Rises (K.faults report.old) (K.faults report.new) }
{
    let text = fault_text(alloc, fault)?;
    write_text(report, text.as_slice())
}
