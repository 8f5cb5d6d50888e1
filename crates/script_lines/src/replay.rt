// The lines of replay scripts.
ghost use Rattle.std.specs.Prelude.{IfOk, IfErr};
ghost use Rattle.script_fields.specs.Spelling.{fields};
ghost use Rattle.script_lines.specs.Lines.{IsReplayFault, IsReplayLine, IsReportedBy};

use crate::cause::LineFault;
use crate::channel::channel_of;
use crate::line::ScriptLine;
use crate::stamped::stamped_of;
use std::alloc::Global;

/// The line of this number, from 1.
pub fn replay_line(alloc: Global, number: u64, text: &[u8]) -> Result<ScriptLine, LineFault>
    ensures ok { IfOk result (IsReplayLine number (fields text.now)) }
    ensures bad { IfErr result (IsReportedBy (IsReplayFault number (fields text.now))) }
{
    if number == 1 {
        let (target, value) = channel_of(alloc, text)?;
        return Ok(ScriptLine::Channel { target, value });
    }
    let stamped = stamped_of(alloc, text)?;
    Ok(ScriptLine::Event { stamped })
}
