// A script, line by line.
ghost use Rattle.std.specs.Prelude.{◌≡◌, ◌≤◌, ◌+◌, ℕ, List, IfOk, IfErr, OnErr};
ghost use Rattle.script_fields.specs.Spelling.{fields};
ghost use Rattle.script_lines.specs.Answers.{count_of};
ghost use Rattle.script_lines.specs.Lines.{IsRawLine, IsReportedBy};
ghost use Rattle.script_lines.specs.Reader.{IsBadLine, IsStateAfter, IsKindFault, IsKindLine, IsLine, IsNoLine, IsNumberedFault, IsOnlyLine, IsSame, KeepsRules, answer_count};
ghost use Rattle.script_lines.specs.Spelling.{IsReadAgain};

use crate::answer::next_answer;
use crate::cause::LineFault;
use crate::counts::Counts;
use crate::line::ScriptLine;
use crate::live::live_line;
use crate::raw::test_line;
use crate::replay::replay_line;
use std::alloc::Global;
use std::marker::Model;

/// What a script is for.
#[derive(Clone, Copy, Debug, PartialEq, Eq)]
pub enum ScriptKind {
    /// A session to replay: a channel line and events.
    Replay,
    /// Calls to make: a channel line, perhaps a service config, and calls.
    Live,
    /// What a server answers.
    Server,
}

/// Why a line is not read.
#[derive(Clone, Copy, Debug, PartialEq, Eq)]
pub enum BadLine {
    /// The line of this number, from 1, is bad, for this cause from 1 to 12.
    At { line: u64, cause: u8 },
    NoMemory,
}

/// Reads a script line by line. It keeps how many lines it read and how often each path was answered, and no line.
#[derive(Drop)]
pub struct ScriptReader {
    alloc: Global,
    kind: ScriptKind,
    lines: u64,
    counts: Counts,
}

impl Model for ScriptReader {
    ghost use Rattle.script_lines.specs.Lines.{script_limit};
    ghost use Rattle.script_lines.specs.Reader.{ReaderSeen};
    ghost use Rattle.std.specs.Prelude.{◌≤◌};

    ghost Value = { ReaderSeen };

    ghost view = { λ r. record { kind = r.kind; lines = r.lines; answered = r.counts } };

    ghost invariant = { λ r. r.lines ≤ script_limit };
}

impl ScriptReader {
    /// A reader before the first line of a script of this kind.
    pub fn new(alloc: Global, kind: ScriptKind) -> ScriptReader
        ensures kind { result.kind ≡ kind }
        ensures lines { result.lines ≡ 0 }
        ensures answered { (path : List ℕ) → count_of result.answered path ≡ 0 }
    {
        ScriptReader {
            alloc,
            kind,
            lines: 0,
            counts: Counts::new(alloc),
        }
    }

    /// How many lines it has read, at most 1,048,578.
    pub fn lines(&self) -> u64
        ensures value { result ≡ self.now.lines }
        ensures limit { result ≤ 1048578 }
    {
        self.lines
    }

    /// Reads the next line: its bytes without the line feed, and whether one ended it. What it says is the one thing
    /// that they spell. A channel line is read again from its spelling in version 2, be it of version 1 or 2, and an event from
    /// its own; an answer keeps the rules of a server script. BadLine names the line and the first cause in the order of the
    /// tests. The reader is as before where it answers an error.
    pub fn line(&mut self, text: &[u8], closed: bool) -> Result<ScriptLine, BadLine>
        ensures ok { IfOk result (IsLine self.old text.now closed) }
        ensures bad { IfErr result (IsBadLine self.old text.now closed) }
        ensures only { IfOk result (IsOnlyLine self.old text.now closed) }
        ensures again { IfOk result IsReadAgain }
        ensures rules { IfOk result KeepsRules }
        ensures no_line { IfErr result (IsNoLine self.old text.now closed) }
        ensures afterwards { IfOk result (λ read. IsStateAfter self.old read self.new) }
        ensures same { OnErr result (IsSame self.old self.new) }
    {
        let line = self.lines + 1;
        match next_line(self.alloc, self.kind, line, text, closed, &mut self.counts) {
            Ok(read) => {
                self.lines = line;
                Ok(read)
            }
            Err(LineFault::Bad { cause }) => Err(BadLine::At { line, cause }),
            Err(LineFault::NoMemory) => Err(BadLine::NoMemory),
        }
    }
}

/// The line of this number, after the answers that were counted.
fn next_line(
    alloc: Global,
    kind: ScriptKind,
    number: u64,
    text: &[u8],
    closed: bool,
    counts: &mut Counts,
) -> Result<ScriptLine, LineFault>
    ensures ok { IfOk result (λ read. IsRawLine number text.now closed × IsKindLine kind number counts.old (fields text.now) read) }
    ensures bad { IfErr result (IsReportedBy (IsNumberedFault kind number counts.old text.now closed)) }
    ensures afterwards { IfOk result (λ read. (path : List ℕ) → count_of counts.new path ≡ count_of counts.old path + answer_count read path) }
    ensures same { OnErr result ((path : List ℕ) → count_of counts.new path ≡ count_of counts.old path) }
{
    test_line(number, text, closed)?;
    let read = line_of_kind(alloc, kind, number, text, counts)?;
    Ok(read)
}

/// The line of this number in a script of this kind.
fn line_of_kind(
    alloc: Global,
    kind: ScriptKind,
    number: u64,
    text: &[u8],
    counts: &mut Counts,
) -> Result<ScriptLine, LineFault>
    ensures ok { IfOk result (IsKindLine kind number counts.old (fields text.now)) }
    ensures bad { IfErr result (IsReportedBy (IsKindFault kind number counts.old (fields text.now))) }
    ensures afterwards { IfOk result (λ read. (path : List ℕ) → count_of counts.new path ≡ count_of counts.old path + answer_count read path) }
    ensures same { OnErr result ((path : List ℕ) → count_of counts.new path ≡ count_of counts.old path) }
{
    match kind {
        ScriptKind::Replay => replay_line(alloc, number, text),
        ScriptKind::Live => live_line(alloc, number, text),
        ScriptKind::Server => next_answer(alloc, text, counts),
    }
}
