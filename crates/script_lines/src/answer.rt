// The lines of server scripts.
ghost use Rattle.std.specs.Prelude.{◌≡◌, ◌+◌, IfOk, IfErr, OnErr, ℕ, List};
ghost use Rattle.script_fields.specs.Spelling.{fields};
ghost use Rattle.script_lines.specs.Answers.{IsAnswerFault, IsAnswerText, count_of};
ghost use Rattle.script_lines.specs.Causes.{bad_number};
ghost use Rattle.script_lines.specs.Fields.{IsNumber, number_limit};
ghost use Rattle.script_lines.specs.Lines.{IsReportedBy};
ghost use Rattle.script_lines.specs.Reader.{IsKindLine, answer_count};
ghost use Rattle.script_lines.specs.declared.reader.ScriptKind.TheVariants as script;

use crate::cause::{BAD_COUNT, BAD_NUMBER, LineFault, UNKNOWN_KIND, bad};
use crate::counts::Counts;
use crate::field::{path_field_of, read_u32};
use crate::line::ScriptLine;
use crate::parts::parts_of;
use crate::split::{first_field, three_fields};
use grpc_base::AnswerLine;
use std::alloc::Global;

/// The answer that a line gives, after the answers that were counted.
pub fn answer_of(alloc: Global, text: &[u8], counts: &Counts) -> Result<AnswerLine, LineFault>
    ensures ok { IfOk result (IsAnswerText counts.now (fields text.now)) }
    ensures bad { IfErr result (IsReportedBy (IsAnswerFault counts.now (fields text.now))) }
{
    let (name, rest) = first_field(text);
    if name != b"answer".as_slice() {
        return Err(bad(UNKNOWN_KIND));
    }
    let Some((path, n, parts)) = three_fields(rest) else {
        return Err(bad(BAD_COUNT));
    };
    let before = counts.of(path);
    let path = path_field_of(alloc, path)?;
    let n = number_after(n, before)?;
    let parts = parts_of(alloc, parts)?;
    Ok(AnswerLine { path, n, parts })
}

/// The answer that a line gives, which is counted with those before it.
pub fn next_answer(alloc: Global, text: &[u8], counts: &mut Counts) -> Result<ScriptLine, LineFault>
    ensures ok { IfOk result (IsKindLine script.Server 0 counts.old (fields text.now)) }
    ensures bad { IfErr result (IsReportedBy (IsAnswerFault counts.old (fields text.now))) }
    ensures afterwards { IfOk result (λ read. (path : List ℕ) → count_of counts.new path ≡ count_of counts.old path + answer_count read path) }
    ensures same { OnErr result ((path : List ℕ) → count_of counts.new path ≡ count_of counts.old path) }
{
    let line = answer_of(alloc, text, counts)?;
    let path = line.path.copy()?;
    counts.set(path.into_vec(), line.n)?;
    Ok(ScriptLine::Answer { line })
}

/// The number after this one.
fn number_after(text: &[u8], before: u32) -> Result<u32, LineFault>
    ensures ok { IfOk result (λ n. (n ≡ before + 1) × IsNumber number_limit n text.now) }
    ensures bad { IfErr result (IsReportedBy (λ c. (IsNumber number_limit (before + 1) text.now → ⊥) × (c ≡ bad_number))) }
{
    let Some(number) = read_u32(text) else {
        return Err(bad(BAD_NUMBER));
    };
    if number as u64 != before as u64 + 1 {
        return Err(bad(BAD_NUMBER));
    }
    Ok(number)
}
