// Lines that wait in memory and go to a sink many at a time.
ghost use Rattle.std.specs.Prelude.{◌≡◌, ◌<◌, ◌≤◌, [], length, Err, OnOk, OnErr};
ghost use Rattle.gate_io.specs.Outside.{Appends, AppendsPrefix, Rises};
ghost use Rattle.script_text.specs.Output.{Passes};

use crate::ReportFault;
use gate_io::{Sink, write_whole};

/// So many bytes are written at once; a longer line waits whole.
const CHUNK: usize = 32_768;

/// Writes all that waits.
pub fn write_out<K: Sink>(out: &mut Vec<u8>, sink: &mut K) -> Result<(), ReportFault>
    ensures ok { OnOk result (Appends (K.taken sink.old) (K.taken sink.new) out.old.items) }
    ensures empty { OnOk result (out.new.items ≡ []) }
    ensures err { OnErr result (AppendsPrefix (K.taken sink.old) (K.taken sink.new) out.old.items) }
    ensures write { OnErr result (Rises (K.faults sink.old) (K.faults sink.new)) }
    ensures count { K.faults sink.old ≤ K.faults sink.new }
{
    if !write_whole(sink, out.as_slice()) {
        return Err(ReportFault::Write);
    }
    out.clear();
    Ok(())
}

/// Writes what waits where it has come to a chunk.
pub fn write_chunk<K: Sink>(out: &mut Vec<u8>, sink: &mut K) -> Result<(), ReportFault>
    ensures waits { OnOk result (length out.new.items < 32768) }
    ensures ok { OnOk result (Passes (K.taken sink.old) out.old.items (K.taken sink.new) out.new.items []) }
    ensures err { OnErr result (AppendsPrefix (K.taken sink.old) (K.taken sink.new) out.old.items) }
    ensures write { OnErr result (Rises (K.faults sink.old) (K.faults sink.new)) }
    ensures count { K.faults sink.old ≤ K.faults sink.new }
{
    if out.len() < CHUNK {
        return Ok(());
    }
    write_out(out, sink)
}
