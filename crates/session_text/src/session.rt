// The report of a session.
ghost use Rattle.std.specs.Prelude.{◌≡◌, Err, OnErr, OnOk};
ghost use Rattle.gate_io.specs.Outside.{Appends, AppendsPrefix, Rises};
ghost use Rattle.channel_core.specs.Core.{ledger_in};
ghost use Rattle.session_text.specs.Sessions.{run_text};

use crate::ran::Ran;
use crate::reporting::{SESSION_FULL, write_text};
use channel_core::ChannelCore;
use gate_io::Sink;
use grpc_base::Text;
use lb_policy::Balancer;
use script_text::{ReportFault, write_report};
use std::alloc::Global;

/// Writes the report of a channel; where its journal had no room for an event, a line after it says so.
pub fn write_session<P: Balancer, K: Sink>(
    alloc: Global,
    core: &ChannelCore<P>,
    ran: Ran,
    target: &Text,
    report: &mut K,
) -> Result<(), ReportFault>
    ensures ok { OnOk result (Appends (K.taken report.old) (K.taken report.new) (run_text ran target.now core.now.journal (ledger_in core.now))) }
    ensures err { OnErr result (AppendsPrefix (K.taken report.old) (K.taken report.new) (run_text ran target.now core.now.journal (ledger_in core.now))) }
    ensures write { (result ≡ Err ReportFault.Write) → Rises (K.faults report.old) (K.faults report.new) }
{
    match write_report(alloc, core.journal(), core.ledger(), target, report) {
        Ok(()) => match ran {
            Ran::Whole => Ok(()),
            Ran::Full => write_text(report, SESSION_FULL),
        },
        Err(fault) => Err(fault),
    }
}
