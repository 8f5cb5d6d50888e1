// The report of a channel that threads share.
ghost use Rattle.std.specs.Prelude.{◌≡◌, OnErr, OnOk, Err, true};
ghost use Rattle.gate_io.specs.Outside.{Rises};
ghost use Rattle.live_channel.specs.Reported.{IsReportable, ReportsAt, ReportsOn};
ghost use Rattle.shared_channel.specs.Histories.{IsNearlyFull};
ghost use Rattle.session_text.specs.Writing.{WritesAll, WritesPrefix, WritesSome};

use channel_core::ChannelCore;
use gate_io::Sink;
use grpc_base::Text;
use lb_policy::Balancer;
use script_text::ReportFault;
use session_text::{Ran, write_session};
use shared_channel::{Reading, Seat, SharedChannel};
use std::alloc::Global;
use std::sync::Wait;

/// Whether the channel can be reported of a session that was run so far. Where a worker was notified that there was no room for its event the
/// journal is nearly full, since such an event has at most 4,194,368 bytes and a journal only grows. But no clause of a worker says so, so
/// it is tested again.
fn is_reportable<P: Balancer>(core: &ChannelCore<P>, ran: Ran, nearly_full: bool) -> bool
    requires { nearly_full ≡ true → IsNearlyFull core.now.journal.entries }
    ensures { result ≡ true → IsReportable ran core.now }
{
    if core.view().spent {
        return false;
    }
    match ran {
        Ran::Whole => true,
        Ran::Full => nearly_full,
    }
}

/// What writes the report of the channel under the lock.
#[derive(Drop)]
struct Reporting<'r, K> {
    alloc: Global,
    target: &'r Text,
    ran: Ran,
    report: &'r mut K,
}

impl<P: Balancer, K: Sink> Reading<P> for Reporting<'_, K> {
    ghost use Rattle.std.specs.Prelude.{◌≡◌};
    ghost use Rattle.live_channel.specs.Reported.{ReportsThat};

    type Answer = Result<(), ReportFault>;

    ghost reads = { λ before core answer after. (after.report.ghost_name ≡ before.report.ghost_name) × ReportsThat before.ran before.target.now core answer (K.taken before.report.now) (K.taken after.report.now) (K.faults before.report.now) (K.faults after.report.now) };

    #[tactic(auto, using(crate::proofs::ReportLaws::reports_spent, crate::proofs::ReportLaws::reports_prefix))]
    fn read(&mut self, core: &ChannelCore<P>, nearly_full: bool) -> Result<(), ReportFault> {
        if !is_reportable(core, self.ran, nearly_full) {
            return Err(ReportFault::NoMemory);
        }
        match write_session(self.alloc, core, self.ran, self.target, self.report) {
            Ok(()) => Ok(()),
            Err(fault) => Err(fault),
        }
    }
}

/// Writes the report of the channel under the lock. The handle has every part, so what it sees before the report and after it is all
/// its own, and so is what the report is of. May wait for other threads.
pub fn report_channel<W: Wait, P: Balancer, K: Sink>(
    rt: &W,
    alloc: Global,
    channel: &SharedChannel<P>,
    seat: &mut Seat<P>,
    target: &Text,
    ran: Ran,
    report: &mut K,
) -> Result<(), ReportFault>
    requires lock { seat.old.lock ≡ channel.now }
    ensures ok { OnOk result (WritesAll (ReportsOn ran target.now seat.old) (K.taken report.old) (K.taken report.new)) }
    ensures err { OnErr result (WritesSome (ReportsOn ran target.now seat.old) (K.taken report.old) (K.taken report.new)) }
    ensures write { (result ≡ Err ReportFault.Write) → Rises (K.faults report.old) (K.faults report.new) × WritesPrefix (ReportsOn ran target.now seat.old) (K.taken report.old) (K.taken report.new) }
{
    channel.connectivity(seat);
    let answer = report_turn(rt, alloc, channel, seat, target, ran, report);
    channel.connectivity(seat);
    answer
}

/// Writes the report in one turn.
fn report_turn<W: Wait, P: Balancer, K: Sink>(
    rt: &W,
    alloc: Global,
    channel: &SharedChannel<P>,
    seat: &mut Seat<P>,
    target: &Text,
    ran: Ran,
    report: &mut K,
) -> Result<(), ReportFault>
    requires lock { seat.old.lock ≡ channel.now }
    ensures lock { seat.new.lock ≡ seat.old.lock }
    ensures ok { OnOk result (WritesAll (ReportsAt ran target.now seat.old seat.new) (K.taken report.old) (K.taken report.new)) }
    ensures err { OnErr result (WritesSome (ReportsAt ran target.now seat.old seat.new) (K.taken report.old) (K.taken report.new)) }
    ensures write { (result ≡ Err ReportFault.Write) → Rises (K.faults report.old) (K.faults report.new) × WritesPrefix (ReportsAt ran target.now seat.old seat.new) (K.taken report.old) (K.taken report.new) }
{
    let mut reporting = Reporting {
        alloc,
        target,
        ran,
        report,
    };
    channel.inspect(rt, seat, &mut reporting)
}
