// The mode `migrate`.
ghost use Rattle.std.specs.Prelude.{◌≡◌, ◌⊎◌};
ghost use Rattle.gate_io.specs.Outside.{Appends, AppendsPrefix, Rises};
ghost use Rattle.script_lines.specs.Spelling.{script_of};
ghost use Rattle.channel_top.specs.Migrate.{IsMigrateText, IsMigrated, StopsInReport, ReportsBadReport};
ghost use Rattle.session_text.specs.Writing.{WritesAll, WritesPrefix, WritesSome};

use gate_io::{Sink, Source};
use script_input::{InputFault, Script, read_report};
use script_text::write_script;
use session_text::{report_bad, unwritten};
use std::alloc::Global;

/// Reads a script or a report, of either version, writes the script of version 2, and gives the status of the program. The
/// events are held until the input's end, since a line further down may be bad, and then that line alone is reported.
///
/// | Status | When | Written |
/// |---|---|---|
/// | 0 | done | the script; nothing for an input of no bytes |
/// | 3 | a line is bad, as far as a script has it | `fault line <n> cause <c>` |
/// | 4 | a read failed before the input's end and its first bad line | nothing |
/// | 5 | a write failed | a prefix of the output |
/// | 6 | out of memory | nothing, or a prefix of the output |
pub fn run_migrate<S: Source, K: Sink>(alloc: Global, input: &mut S, output: &mut K) -> u8
    ensures done { result ≡ 0 → WritesAll (IsMigrated (S.left input.old) (S.left input.new)) (K.taken output.old) (K.taken output.new) }
    ensures line { result ≡ 3 → WritesAll (ReportsBadReport (S.left input.old) (S.left input.new)) (K.taken output.old) (K.taken output.new) }
    ensures reading { result ≡ 4 → StopsInReport (S.left input.old) (S.left input.new) (K.taken output.old) (K.taken output.new) (S.faults input.old) (S.faults input.new) }
    ensures writing { result ≡ 5 → Rises (K.faults output.old) (K.faults output.new) × WritesPrefix (IsMigrateText (S.left input.old) (S.left input.new)) (K.taken output.old) (K.taken output.new) }
    ensures memory { result ≡ 6 → WritesSome (IsMigrateText (S.left input.old) (S.left input.new)) (K.taken output.old) (K.taken output.new) }
    ensures known { (result ≡ 0) ⊎ (result ≡ 3) ⊎ (result ≡ 4) ⊎ (result ≡ 5) ⊎ (result ≡ 6) }
{
    match read_report(alloc, input) {
        Ok(read) => write_read(alloc, &read, output),
        Err(fault) => match fault {
            InputFault::Empty => 0,
            InputFault::BadLine { line, cause } => report_bad(alloc, line, cause, output),
            InputFault::ReadFailed => 4,
            InputFault::NoMemory => 6,
        },
    }
}

/// Writes a script that was read, and gives the status of the program.
fn write_read<K: Sink>(alloc: Global, script: &Script, output: &mut K) -> u8
    ensures done { result ≡ 0 → Appends (K.taken output.old) (K.taken output.new) (script_of script.now.target script.now.events.items) }
    ensures writing { result ≡ 5 → Rises (K.faults output.old) (K.faults output.new) }
    ensures prefix { (result ≡ 5) ⊎ (result ≡ 6) → AppendsPrefix (K.taken output.old) (K.taken output.new) (script_of script.now.target script.now.events.items) }
    ensures known { (result ≡ 0) ⊎ (result ≡ 5) ⊎ (result ≡ 6) }
{
    match write_script(alloc, &script.target, script.events.as_slice(), output) {
        Ok(()) => 0,
        Err(fault) => unwritten(fault),
    }
}
