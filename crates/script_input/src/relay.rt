// The script of a relay: a live script without calls, read from a source.
ghost use Rattle.std.specs.Prelude.{◌≡◌, ◌≤◌, ◌+◌, ◌↔◌, IfErr, IfOk, IsTrue, false, true};
ghost use Rattle.script_fields.specs.Spelling.{fields};
ghost use Rattle.script_input.specs.Relays.{GivesNoRelay, IsCallAt, IsNamedCall, ReadsRelay};

use crate::fault::InputFault;
use crate::line_reader::{Lines, read_lines};
use crate::live::{no_lines, script_of};
use crate::live_lines::LiveLines;
use crate::live_script::LiveScript;
use gate_io::Source;
use grpc_base::first_piece;
use script_lines::{BadLine, UNKNOWN_KIND};
use std::alloc::Global;

/// What the lines so far say.
#[derive(Drop)]
pub struct RelayLines {
    pub live: LiveLines,
}

/// Whether a line is named as those that make calls.
fn is_named_call(text: &[u8]) -> bool
    ensures { IsTrue result ↔ IsNamedCall (fields text.now) }
{
    let (name, _rest) = first_piece(text, b' ');
    name == b"call".as_slice()
}

impl RelayLines {
    /// Whether the next line makes a call.
    fn is_call(&self, text: &[u8]) -> bool
        ensures call { result ≡ true → IsCallAt (self.now.live.reader.lines + 1) (fields text.now) }
        ensures other { result ≡ false → IsCallAt (self.now.live.reader.lines + 1) (fields text.now) → ⊥ }
    {
        self.live.reader.lines() > 0 && is_named_call(text)
    }
}

impl Lines for RelayLines {
    ghost use Rattle.script_input.specs.RelaysTaken.{HasTakenRelay, RefusesRelay};

    ghost has_taken = { λ s texts. HasTakenRelay s texts };

    ghost refuses = { λ s text e. RefusesRelay s text e };

    fn take(&mut self, text: &[u8]) -> Result<(), BadLine> {
        if self.is_call(text) {
            return Err(BadLine::At {
                line: self.live.reader.lines() + 1,
                cause: UNKNOWN_KIND,
            });
        }
        self.live.take(text)
    }
}

/// Reads a live script without calls to the input's end: a line that is named `call` is bad, since the script of a relay has none such. It
/// stops before the end where a line is bad or a read fails, whichever comes first; more than the bytes of one read may then have been
/// taken after that line. In an input of no bytes the first line is bad.
pub fn read_relay<S: Source>(alloc: Global, source: &mut S) -> Result<LiveScript, InputFault>
    ensures ok { IfOk result (ReadsRelay (S.left source.old) (S.left source.new)) }
    ensures bad { IfErr result (GivesNoRelay (S.left source.old) (S.left source.new) (S.faults source.old) (S.faults source.new)) }
    ensures count { S.faults source.old ≤ S.faults source.new }
{
    let mut lines = RelayLines {
        live: no_lines(alloc),
    };
    read_lines(alloc, source, &mut lines)?;
    script_of(lines.live)
}
