// An exchange with a scripted server, a step a line.
//
// `answer ..` is a line of its script. `in LINK HEX` hands bytes in, `out LINK HEX` is all that may be sent then (`-`: nothing), and
// `bad LINK CODE HEX` breaks the link with a code of HTTP/2.
ghost use Rattle.std.specs.Prelude.{IfOk};
ghost use Rattle.grpc_base.specs.Scripts.{IsServerScript};

use grpc_base::{AnswerLine, Items, Octets, ServerScript};
use loop_server::{ServerCore, ServerFault};
use script_fields::message_of;
use script_lines::{ScriptKind, ScriptLine, ScriptReader};
use std::alloc::Global;
use std::test::Fail;

/// The most bytes of a step.
const MOST: usize = 1 << 20;

/// The bytes that these digits of hex spell; `-` spells none.
pub fn bytes_of(alloc: Global, hex: &str) -> Result<Octets, Fail> {
    match message_of(alloc, hex.as_bytes(), MOST) {
        Ok(bytes) => Ok(bytes),
        Err(_) => Err("hex".into()),
    }
}

/// The answers of the script's lines among these.
fn answers_of(alloc: Global, lines: &str) -> Result<Items<AnswerLine>, Fail> {
    let mut reader = ScriptReader::new(alloc, ScriptKind::Server);
    let mut answers = Items::new(alloc);
    for line in lines.split('\n') {
        if line.starts_with("answer ") {
            match reader.line(line.as_bytes(), true) {
                Ok(ScriptLine::Answer { line }) => answers.push(line)?,
                _ => return Err("an answer".into()),
            }
        }
    }
    Ok(answers)
}

/// The script of the script's lines among these.
pub fn script_of(alloc: Global, lines: &str) -> Result<ServerScript, Fail>
    ensures { IfOk result IsServerScript }
{
    let script = ServerScript {
        answers: answers_of(alloc, lines)?,
    };
    if !script.is_valid() {
        return Err("a script".into());
    }
    Ok(script)
}

/// A server with the script's lines among these.
pub fn server_of(alloc: Global, lines: &str) -> Result<ServerCore, Fail> {
    Ok(ServerCore::new(alloc, script_of(alloc, lines)?)?)
}

/// Hands bytes in, in pieces of at most so many; the code that broke the link, or 0.
fn transferred(server: &mut ServerCore, link: u32, bytes: &[u8], size: usize) -> Result<u32, Fail> {
    for piece in bytes.chunks(size.max(1)) {
        match server.arrived(link, piece) {
            Ok(()) => {}
            Err(ServerFault::Broken { code }) => return Ok(code),
            Err(ServerFault::NoMemory) => return Err("out of memory".into()),
        }
    }
    Ok(0)
}

/// Whether a step goes as it says.
pub fn goes(alloc: Global, server: &mut ServerCore, line: &str, size: usize) -> Result<bool, Fail> {
    let (word, rest) = line.split_once(' ').unwrap_or((line, ""));
    let (link, rest) = rest.split_once(' ').unwrap_or((rest, ""));
    match word {
        "in" => {
            let bytes = bytes_of(alloc, rest)?;
            Ok(transferred(server, link.parse::<u32>()?, bytes.as_slice(), size)? == 0)
        }
        "out" => {
            let bytes = bytes_of(alloc, rest)?;
            let sent = server.drain(link.parse::<u32>()?)?;
            Ok(sent.as_slice() == bytes.as_slice())
        }
        "bad" => {
            let (code, hex) = rest.split_once(' ').unwrap_or((rest, ""));
            let bytes = bytes_of(alloc, hex)?;
            let link = link.parse::<u32>()?;
            Ok(transferred(server, link, bytes.as_slice(), size)? == code.parse::<u32>()?)
        }
        _ => Ok(true),
    }
}
