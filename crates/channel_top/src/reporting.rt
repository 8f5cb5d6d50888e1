// The one-line answers of the program.
ghost use Rattle.std.specs.Prelude.{◌≡◌, Err, IfOk, OnErr, OnOk};
ghost use Rattle.gate_io.specs.Outside.{Appends, AppendsPrefix, Rises};
ghost use Rattle.channel_top.specs.Serve.{served_text};

use gate_io::Sink;
use grpc_base::{NoMemory, Text};
use script_text::ReportFault;
use session_text::{append_number, write_text};
use std::alloc::Global;

/// The answer to wrong words.
pub const WORDS_FAULT: &[u8] = b"fault words\n";

/// Reports that so many links were served.
pub fn report_served<K: Sink>(alloc: Global, links: u32, report: &mut K) -> Result<(), ReportFault>
    ensures ok { OnOk result (Appends (K.taken report.old) (K.taken report.new) (served_text links)) }
    ensures err { OnErr result (AppendsPrefix (K.taken report.old) (K.taken report.new) (served_text links)) }
    ensures write { (result ≡ Err ReportFault.Write) → Rises (K.faults report.old) (K.faults report.new) }
{
    let text = served_line(alloc, links)?;
    write_text(report, text.as_slice())
}

/// The line that reports how many links were served.
fn served_line(alloc: Global, links: u32) -> Result<Text, NoMemory>
    ensures { IfOk result (λ t. t ≡ served_text links) }
{
    let mut text = Text::of_slice(alloc, b"served ")?;
    append_number(&mut text, u64::from(links))?;
    text.push(b'\n')?;
    Ok(text)
}
