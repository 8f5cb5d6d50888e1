// The text of a valid service config.
ghost use Rattle.std.specs.Prelude.{◌≡◌, ◌≤◌, Err, OnOk, OnErr};
ghost use Rattle.gate_io.specs.Outside.{Appends, AppendsPrefix, Rises};
ghost use Rattle.service_config.specs.Text.{config_text};

use crate::ReportFault;
use crate::output::write_out;
use gate_io::Sink;
use service_config::{Config, config_text};
use std::alloc::Global;

/// Writes a valid service config: a line for its policy, one for its throttling, one for each name, and the count of
/// names.
#[tactic(auto, using(crate::proofs::Passing::none_written))]
pub fn write_config<K: Sink>(
    alloc: Global,
    config: &Config,
    sink: &mut K,
) -> Result<(), ReportFault>
    ensures ok { OnOk result (Appends (K.taken sink.old) (K.taken sink.new) (config_text config.now)) }
    ensures err { OnErr result (AppendsPrefix (K.taken sink.old) (K.taken sink.new) (config_text config.now)) }
    ensures write { (result ≡ Err ReportFault.Write) → Rises (K.faults sink.old) (K.faults sink.new) }
    ensures count { K.faults sink.old ≤ K.faults sink.new }
{
    let mut out = config_text(alloc, config)?;
    write_out(&mut out, sink)
}
