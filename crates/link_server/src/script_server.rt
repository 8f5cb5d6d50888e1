// A scripted server that one thread has.
ghost use Rattle.std.specs.Prelude.{◌≡◌, None};
ghost use Rattle.std.specs.List.{list_any};
ghost use Rattle.grpc_base.specs.Scripts.{IsServerScript};
ghost use Rattle.link_server.specs.Holds.{holds_line, is_hold};

use crate::Serving;
use grpc_base::{AnswerLine, AnswerPart, NoMemory, Octets, ServerScript};
use loop_server::{ServerCore, ServerFault};
use std::alloc::Global;
use std::mem;

/// A scripted server with all of its links. It counts what its core refused.
#[derive(Drop)]
pub struct ScriptServer {
    core: ServerCore,
    /// Whether an answer may wait until others were given.
    has_holds: bool,
    /// Whether something was given since that was last asked.
    gave: bool,
    breaks: u64,
    last_code: u32,
}

impl ScriptServer {
    /// A server of this script.
    pub fn new(alloc: Global, script: ServerScript) -> Result<ScriptServer, NoMemory>
        requires { IsServerScript script }
    {
        let has_holds = has_holds(script.answers.as_slice());
        Ok(ScriptServer {
            core: ServerCore::new(alloc, script)?,
            has_holds,
            gave: false,
            breaks: 0,
            last_code: 0,
        })
    }
}

fn is_hold(part: &AnswerPart) -> bool
    ensures { result ≡ is_hold part.now }
{
    matches!(part, AnswerPart::Hold(_))
}

fn has_hold(parts: &[AnswerPart]) -> bool
    ensures { result ≡ list_any is_hold parts.now }
{
    for part in parts {
        if is_hold(part) {
            return true;
        }
    }
    false
}

fn holds_line(line: &AnswerLine) -> bool
    ensures { result ≡ holds_line line.now }
{
    has_hold(line.parts.as_slice())
}

/// Whether an answer of these waits until others were given.
fn has_holds(lines: &[AnswerLine]) -> bool
    ensures { result ≡ list_any holds_line lines.now }
{
    for line in lines {
        if holds_line(line) {
            return true;
        }
    }
    false
}

impl Serving for ScriptServer {
    ghost given = { λ _ _. None };

    ghost drained = { λ _ _. None };

    ghost breaks = { λ s. s.breaks };

    ghost last_code = { λ s. s.last_code };

    fn arrived(&mut self, link: u32, piece: &[u8]) -> Result<(), ServerFault> {
        let answer = self.core.arrived(link, piece);
        if let Err(ServerFault::Broken { code }) = answer {
            self.breaks = self.breaks.saturating_add(1);
            self.last_code = code;
        }
        answer
    }

    fn drain(&mut self, link: u32) -> Result<Octets, NoMemory> {
        let octets = self.core.drain(link)?;
        self.gave = self.gave || self.has_holds && octets.len() != 0;
        Ok(octets)
    }

    fn frees_others(&mut self) -> bool {
        mem::replace(&mut self.gave, false)
    }
}
