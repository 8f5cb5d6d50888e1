// Scripts in their own spelling: the channel line, and a line for each event.
ghost use Rattle.std.specs.Prelude.{◌≡◌, ◌≤◌, ◌++◌, ◌∷◌, [], Err, map, OnOk, OnErr};
ghost use Rattle.gate_io.specs.Outside.{Appends, AppendsPrefix, Rises};
ghost use Rattle.script_text.specs.Output.{Passes};
ghost use Rattle.script_text.specs.Spelling.{lines_text, script_of, stamped_text};

use crate::ReportFault;
use crate::events::append_stamp;
use crate::output::{write_chunk, write_out};
use crate::report::append_channel;
use gate_io::Sink;
use grpc_base::{NoMemory, Stamped, Text};
use std::alloc::Global;

/// Writes the script of a target and events, of version 2.
pub fn write_script<K: Sink>(
    alloc: Global,
    target: &Text,
    events: &[Stamped],
    sink: &mut K,
) -> Result<(), ReportFault>
    ensures ok { OnOk result (Appends (K.taken sink.old) (K.taken sink.new) (script_of target.now events.now)) }
    ensures err { OnErr result (AppendsPrefix (K.taken sink.old) (K.taken sink.new) (script_of target.now events.now)) }
    ensures write { (result ≡ Err ReportFault.Write) → Rises (K.faults sink.old) (K.faults sink.new) }
    ensures count { K.faults sink.old ≤ K.faults sink.new }
{
    let mut out = Vec::new(alloc);
    append_channel(&mut out, target)?;
    write_events(alloc, events, &mut out, sink)?;
    write_out(&mut out, sink)
}

/// Appends the line of an event.
#[tactic(auto, using(crate::proofs::Words::stamp_line))]
fn append_stamped(alloc: Global, out: &mut Vec<u8>, stamped: &Stamped) -> Result<(), NoMemory>
    ensures { OnOk result (out.new.items ≡ out.old.items ++ stamped_text stamped.now ++ 10 ∷ []) }
{
    append_stamp(alloc, out, stamped.moment, stamped.word, &stamped.event)?;
    out.push(b'\n')?;
    Ok(())
}

/// Writes the lines of these events after what waits.
fn write_events<K: Sink>(
    alloc: Global,
    events: &[Stamped],
    out: &mut Vec<u8>,
    sink: &mut K,
) -> Result<(), ReportFault>
    ensures ok { OnOk result (Passes (K.taken sink.old) out.old.items (K.taken sink.new) out.new.items (lines_text (map stamped_text events.now))) }
    ensures err { OnErr result (AppendsPrefix (K.taken sink.old) (K.taken sink.new) (out.old.items ++ lines_text (map stamped_text events.now))) }
    ensures write { (result ≡ Err ReportFault.Write) → Rises (K.faults sink.old) (K.faults sink.new) }
    ensures count { K.faults sink.old ≤ K.faults sink.new }
{
    for stamped in events {
        append_stamped(alloc, out, stamped)?;
        write_chunk(out, sink)?;
    }
    Ok(())
}
