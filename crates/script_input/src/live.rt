// A live script, read from a source.
ghost use Rattle.std.specs.Prelude.{◌≡◌, ◌≤◌, [], IfErr, IfOk, OnOk};
ghost use Rattle.script_input.specs.Lives.{GivesNoLive, IsLiveRead, ReadsLive};
ghost use Rattle.script_input.specs.LivesTaken.{HasTakenLive, IsKeptLive, IsNamed, IsUnnamed};

use crate::fault::InputFault;
use crate::line_reader::read_lines;
use crate::live_lines::LiveLines;
use crate::live_script::{LiveScript, Named, WorkerLine};
use gate_io::Source;
use grpc_base::Octets;
use script_lines::{BadLine, NO_CHANNEL, ScriptKind, ScriptLine, ScriptReader};
use std::alloc::Global;

/// Keeps what a line said.
pub fn keep_live(
    named: &mut Option<Named>,
    config: &mut Option<Octets>,
    calls: &mut Vec<WorkerLine>,
    read: ScriptLine,
) -> Result<(), BadLine>
    requires { IsLiveRead read }
    ensures kept { OnOk result (IsKeptLive named.old config.old calls.old.items read named.new config.new calls.new.items) }
    ensures no_memory { IfErr result (λ e. e ≡ BadLine.NoMemory) }
{
    match read {
        ScriptLine::Channel { target, value } => *named = Some(Named { target, value }),
        ScriptLine::Config { config: text } => *config = Some(text),
        ScriptLine::Call { worker, line } => {
            if calls.push(WorkerLine { worker, line }).is_err() {
                return Err(BadLine::NoMemory);
            }
        }
        _ => unreachable!(),
    }
    Ok(())
}

/// No line was read.
pub fn no_lines(alloc: Global) -> LiveLines
    ensures { HasTakenLive result [] }
{
    LiveLines {
        reader: ScriptReader::new(alloc, ScriptKind::Live),
        named: None,
        config: None,
        calls: Vec::new(alloc),
    }
}

/// Reads a live script to the input's end. It stops before it where a line is bad or a read fails, whichever comes
/// first; more than the bytes of one read may then have been taken after that line. In an input of no bytes the first line is bad.
pub fn read_live<S: Source>(alloc: Global, source: &mut S) -> Result<LiveScript, InputFault>
    ensures ok { IfOk result (ReadsLive (S.left source.old) (S.left source.new)) }
    ensures bad { IfErr result (GivesNoLive (S.left source.old) (S.left source.new) (S.faults source.old) (S.faults source.new)) }
    ensures count { S.faults source.old ≤ S.faults source.new }
{
    let mut lines = no_lines(alloc);
    read_lines(alloc, source, &mut lines)?;
    script_of(lines)
}

/// The script of these lines.
pub fn script_of(lines: LiveLines) -> Result<LiveScript, InputFault>
    ensures ok { IfOk result (IsNamed lines) }
    ensures bad { IfErr result (IsUnnamed lines) }
{
    let LiveLines {
        reader: _,
        named,
        config,
        calls,
    } = lines;
    match named {
        Some(Named { target, value }) => Ok(LiveScript {
            target,
            value,
            config,
            calls,
        }),
        None => Err(InputFault::BadLine {
            line: 1,
            cause: NO_CHANNEL,
        }),
    }
}
