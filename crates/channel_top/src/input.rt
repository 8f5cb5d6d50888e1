// The input of the program, read as far as it is judged.
ghost use Rattle.std.specs.Prelude.{◌≡◌, ◌≤◌, IfOk, length};
ghost use Rattle.gate_io.specs.Outside.{IsAtEnd, Rises, Takes};
ghost use Rattle.channel_top.specs.Ending.{EndsSo};

use gate_io::{ReadAnswer, Source};
use grpc_base::NoMemory;
use std::alloc::Global;

/// How reading stopped.
#[derive(Clone, Copy, Debug, PartialEq, Eq)]
pub enum Ending {
    /// The input is at its end.
    End,
    /// As many bytes came as are judged.
    Limit,
    /// A read failed.
    Failed,
}

/// What was read.
#[derive(Debug, Drop)]
pub struct Input {
    pub bytes: Vec<u8>,
    pub ending: Ending,
}

/// Reads to the input's end, to a limit of bytes, or to the first read that fails.
pub fn read_input<S: Source>(alloc: Global, source: &mut S, limit: usize) -> Result<Input, NoMemory>
    ensures read { IfOk result (λ i. Takes (S.left source.old) (S.left source.new) i.bytes.items) }
    ensures ending { IfOk result (λ i. EndsSo limit i.ending (S.left source.new) (length i.bytes.items) (S.faults source.old) (S.faults source.new)) }
    ensures count { S.faults source.old ≤ S.faults source.new }
{
    let mut bytes = Vec::new(alloc);
    let mut buf = [0u8; 4096];
    loop {
        let room = limit - bytes.len();
        if room == 0 {
            return Ok(Input {
                bytes,
                ending: Ending::Limit,
            });
        }
        let most = room.min(buf.len());
        match source.read(&mut buf[..most]) {
            ReadAnswer::Got(count) => bytes.extend_from_slice(&buf[..count])?,
            ReadAnswer::End => return Ok(Input {
                bytes,
                ending: Ending::End,
            }),
            ReadAnswer::Failed => return Ok(Input {
                bytes,
                ending: Ending::Failed,
            }),
        }
    }
}
