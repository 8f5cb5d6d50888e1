// The report of a session: the channel line, a line for each entry, a line for each row, and the end line.
ghost use Rattle.std.specs.Prelude.{◌≡◌, ◌≤◌, ◌++◌, ◌∷◌, [], Err, map, OnOk, OnErr};
ghost use Rattle.gate_io.specs.Outside.{Appends, AppendsPrefix, Rises};
ghost use Rattle.script_text.specs.Output.{Passes};
ghost use Rattle.script_text.specs.Report.{channel_text, entry_text, row_text, end_text, lines_text, report_of};

use crate::events::append_stamp;
use crate::output::{write_chunk, write_out};
use crate::replies::append_reply;
use crate::rows::append_row;
use attempt_ledger::{Journal, Ledger, Row};
use gate_io::Sink;
use grpc_base::{Entry, NoMemory, Text};
use script_fields::{append_number, append_word};
use std::alloc::Global;

/// Why a report was not written whole; a prefix of it was.
#[derive(Clone, Copy, Debug, PartialEq, Eq)]
pub enum ReportFault {
    /// A write failed.
    Write,
    /// Out of memory.
    NoMemory,
}

impl From<NoMemory> for ReportFault {
    ghost use Rattle.std.specs.Prelude.{◌≡◌};
    ghost use Rattle.script_text.specs.declared.report.ReportFault.TheVariants as faults;

    ghost from_gives = { λ _ e. e ≡ faults.NoMemory };

    fn from(_e: NoMemory) -> ReportFault {
        ReportFault::NoMemory
    }
}

/// Writes the report of a session.
pub fn write_report<K: Sink>(
    alloc: Global,
    journal: &Journal,
    ledger: &Ledger,
    target: &Text,
    sink: &mut K,
) -> Result<(), ReportFault>
    ensures ok { OnOk result (Appends (K.taken sink.old) (K.taken sink.new) (report_of target.now journal.now ledger.now)) }
    ensures err { OnErr result (AppendsPrefix (K.taken sink.old) (K.taken sink.new) (report_of target.now journal.now ledger.now)) }
    ensures write { (result ≡ Err ReportFault.Write) → Rises (K.faults sink.old) (K.faults sink.new) }
    ensures count { K.faults sink.old ≤ K.faults sink.new }
{
    let mut out = Vec::new(alloc);
    append_channel(&mut out, target)?;
    write_entries(alloc, journal.entries.as_slice(), &mut out, sink)?;
    write_rows(ledger.rows.as_slice(), &mut out, sink)?;
    append_end(&mut out, journal, ledger)?;
    write_out(&mut out, sink)
}

/// Appends the channel line, of version 2.
pub fn append_channel(out: &mut Vec<u8>, target: &Text) -> Result<(), NoMemory>
    ensures { OnOk result (out.new.items ≡ out.old.items ++ channel_text target.now ++ 10 ∷ []) }
{
    out.extend_from_slice(b"channel 2")?;
    append_word(out, target.as_slice())?;
    out.push(b'\n')?;
    Ok(())
}

/// Appends the line of an entry.
fn append_entry(alloc: Global, out: &mut Vec<u8>, entry: &Entry) -> Result<(), NoMemory>
    ensures { OnOk result (out.new.items ≡ out.old.items ++ entry_text entry.now ++ 10 ∷ []) }
{
    append_stamp(alloc, out, entry.moment, entry.word, &entry.event)?;
    append_word(out, b"=")?;
    append_reply(alloc, out, &entry.reply)?;
    out.push(b'\n')?;
    Ok(())
}

/// Appends the end line.
fn append_end(out: &mut Vec<u8>, journal: &Journal, ledger: &Ledger) -> Result<(), NoMemory>
    ensures { OnOk result (out.new.items ≡ out.old.items ++ end_text journal.now ledger.now ++ 10 ∷ []) }
{
    out.extend_from_slice(b"end")?;
    append_number(out, journal.entries.len() as u64)?;
    append_number(out, ledger.calls.len() as u64)?;
    append_number(out, ledger.rows.len() as u64)?;
    append_number(out, ledger.links.len() as u64)?;
    out.push(b'\n')?;
    Ok(())
}

/// Writes the lines of these entries after what waits.
fn write_entries<K: Sink>(
    alloc: Global,
    entries: &[Entry],
    out: &mut Vec<u8>,
    sink: &mut K,
) -> Result<(), ReportFault>
    ensures ok { OnOk result (Passes (K.taken sink.old) out.old.items (K.taken sink.new) out.new.items (lines_text (map entry_text entries.now))) }
    ensures err { OnErr result (AppendsPrefix (K.taken sink.old) (K.taken sink.new) (out.old.items ++ lines_text (map entry_text entries.now))) }
    ensures write { (result ≡ Err ReportFault.Write) → Rises (K.faults sink.old) (K.faults sink.new) }
    ensures count { K.faults sink.old ≤ K.faults sink.new }
{
    for entry in entries {
        append_entry(alloc, out, entry)?;
        write_chunk(out, sink)?;
    }
    Ok(())
}

/// Writes the lines of these rows after what waits.
fn write_rows<K: Sink>(rows: &[Row], out: &mut Vec<u8>, sink: &mut K) -> Result<(), ReportFault>
    ensures ok { OnOk result (Passes (K.taken sink.old) out.old.items (K.taken sink.new) out.new.items (lines_text (map row_text rows.now))) }
    ensures err { OnErr result (AppendsPrefix (K.taken sink.old) (K.taken sink.new) (out.old.items ++ lines_text (map row_text rows.now))) }
    ensures write { (result ≡ Err ReportFault.Write) → Rises (K.faults sink.old) (K.faults sink.new) }
    ensures count { K.faults sink.old ≤ K.faults sink.new }
{
    for row in rows {
        append_row(out, row)?;
        write_chunk(out, sink)?;
    }
    Ok(())
}
