// A server script, read from a source.
ghost use Rattle.std.specs.Prelude.{◌≡◌, ◌≤◌, IfErr, IfOk, OnOk};
ghost use Rattle.grpc_base.specs.Scripts.{IsServerScript};
ghost use Rattle.script_lines.specs.declared.reader.ScriptKind.TheVariants as script;
ghost use Rattle.script_input.specs.Servers.{GivesNoServer, IsAnswerRead, IsKeptAnswer, ReadsServer};

use crate::fault::InputFault;
use crate::line_reader::{Lines, read_lines};
use gate_io::Source;
use grpc_base::{AnswerLine, Items, ServerScript};
use script_lines::{BadLine, ScriptKind, ScriptLine, ScriptReader};
use std::alloc::Global;

/// The answers of the lines so far.
#[derive(Drop)]
struct AnswerLines {
    reader: ScriptReader,
    answers: Items<AnswerLine>,
    ghost is_server: { reader.kind ≡ script.Server },
}

impl Lines for AnswerLines {
    ghost use Rattle.script_input.specs.AnswersTaken.{HasTakenAnswers, RefusesAnswer};

    ghost has_taken = { λ s texts. HasTakenAnswers s texts };

    ghost refuses = { λ s text e. RefusesAnswer s text e };

    fn take(&mut self, text: &[u8]) -> Result<(), BadLine> {
        match self.reader.line(text, true) {
            Ok(read) => keep_answer(&mut self.answers, read),
            Err(bad) => Err(bad),
        }
    }
}

/// Keeps the answer that a line said.
fn keep_answer(answers: &mut Items<AnswerLine>, read: ScriptLine) -> Result<(), BadLine>
    requires { IsAnswerRead read }
    ensures kept { OnOk result (IsKeptAnswer answers.old read answers.new) }
    ensures no_memory { IfErr result (λ e. e ≡ BadLine.NoMemory) }
{
    match read {
        ScriptLine::Answer { line } => match answers.push(line) {
            Ok(()) => Ok(()),
            Err(_) => Err(BadLine::NoMemory),
        },
        _ => unreachable!(),
    }
}

/// Reads a server script to the input's end. It stops before it where a line is bad or a read fails, whichever comes
/// first; more than the bytes of one read may then have been taken after that line. An input of no bytes has no answers.
pub fn read_server<S: Source>(alloc: Global, source: &mut S) -> Result<ServerScript, InputFault>
    ensures ok { IfOk result (λ s. ReadsServer (S.left source.old) (S.left source.new) s.answers) }
    ensures valid { IfOk result IsServerScript }
    ensures bad { IfErr result (GivesNoServer (S.left source.old) (S.left source.new) (S.faults source.old) (S.faults source.new)) }
    ensures count { S.faults source.old ≤ S.faults source.new }
{
    let mut lines = AnswerLines {
        reader: ScriptReader::new(alloc, ScriptKind::Server),
        answers: Items::new(alloc),
    };
    read_lines(alloc, source, &mut lines)?;
    Ok(ServerScript {
        answers: lines.answers,
    })
}
