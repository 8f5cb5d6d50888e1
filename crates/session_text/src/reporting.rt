// What is reported of a bad line, and of an output that was not written whole.
ghost use Rattle.std.specs.Prelude.{◌≡◌, ◌++◌, ◌⊎◌, decimal, Err, IfOk, OnErr, OnOk};
ghost use Rattle.gate_io.specs.Outside.{Appends, AppendsPrefix, Rises};
ghost use Rattle.script_text.specs.declared.report.ReportFault.TheVariants as unwritten_by;
ghost use Rattle.session_text.specs.Sessions.{line_fault_text};

use gate_io::{Sink, write_whole};
use grpc_base::{NoMemory, Text};
use itoa::Buffer;
use script_text::ReportFault;
use std::alloc::Global;

/// The line after the report of a session whose journal is full.
pub const SESSION_FULL: &[u8] = b"fault session full\n";

/// The status of the program where its output was not written whole.
pub fn unwritten(fault: ReportFault) -> u8
    ensures write { result ≡ 5 → fault ≡ unwritten_by.Write }
    ensures known { (result ≡ 5) ⊎ (result ≡ 6) }
{
    match fault {
        ReportFault::Write => 5,
        ReportFault::NoMemory => 6,
    }
}

/// Writes a text whole, or a prefix of it.
pub fn write_text<K: Sink>(report: &mut K, text: &[u8]) -> Result<(), ReportFault>
    ensures ok { OnOk result (Appends (K.taken report.old) (K.taken report.new) text.now) }
    ensures err { OnErr result (AppendsPrefix (K.taken report.old) (K.taken report.new) text.now) }
    ensures write { (result ≡ Err ReportFault.Write) → Rises (K.faults report.old) (K.faults report.new) }
{
    if write_whole(report, text) {
        return Ok(());
    }
    Err(ReportFault::Write)
}

/// Reports the first bad line of an input and its cause, and gives the status of the program.
pub fn report_bad<K: Sink>(alloc: Global, line: u64, cause: u8, report: &mut K) -> u8
    ensures reported { result ≡ 3 → Appends (K.taken report.old) (K.taken report.new) (line_fault_text line cause) }
    ensures writing { result ≡ 5 → Rises (K.faults report.old) (K.faults report.new) }
    ensures prefix { (result ≡ 5) ⊎ (result ≡ 6) → AppendsPrefix (K.taken report.old) (K.taken report.new) (line_fault_text line cause) }
    ensures known { (result ≡ 3) ⊎ (result ≡ 5) ⊎ (result ≡ 6) }
{
    match report_line(alloc, report, line, cause) {
        Ok(()) => 3,
        Err(fault) => unwritten(fault),
    }
}

/// Reports the first bad line of a script.
#[tactic(auto, using(crate::proofs::WrittenLaws::none_written))]
fn report_line<K: Sink>(
    alloc: Global,
    report: &mut K,
    line: u64,
    cause: u8,
) -> Result<(), ReportFault>
    ensures ok { OnOk result (Appends (K.taken report.old) (K.taken report.new) (line_fault_text line cause)) }
    ensures err { OnErr result (AppendsPrefix (K.taken report.old) (K.taken report.new) (line_fault_text line cause)) }
    ensures write { (result ≡ Err ReportFault.Write) → Rises (K.faults report.old) (K.faults report.new) }
{
    let text = line_fault(alloc, line, cause)?;
    write_text(report, text.as_slice())
}

/// The line for a bad line.
fn line_fault(alloc: Global, line: u64, cause: u8) -> Result<Text, NoMemory>
    ensures { IfOk result (λ t. t ≡ line_fault_text line cause) }
{
    let mut text = Text::of_slice(alloc, b"fault line ")?;
    append_number(&mut text, line)?;
    text.append(b" cause ")?;
    append_number(&mut text, u64::from(cause))?;
    text.push(b'\n')?;
    Ok(text)
}

/// Appends a number in decimal.
pub fn append_number(out: &mut Text, number: u64) -> Result<(), NoMemory>
    ensures { OnOk result (out.new ≡ out.old ++ decimal number) }
{
    let mut buffer = Buffer::new();
    out.append(buffer.format(number).as_bytes())
}
