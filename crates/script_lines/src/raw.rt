// The tests that each line of each script passes first.
ghost use Rattle.std.specs.Prelude.{◌≡◌, ◌≤◌, ◌↔◌, IsTrue, OnOk, IfErr, All};
ghost use Rattle.script_lines.specs.Lines.{IsRawFault, IsRawLine, IsReportedBy};

use crate::cause::{LineFault, NOT_TEXT, TOO_LONG, TOO_MANY, bad};
use grpc_base::limits::LINE_BYTES;

/// The most lines of a script: a channel line, a config and 1,048,576 events.
const SCRIPT_LINES: u64 = 1_048_578;

/// Tests the line of this number, from 1: how many there are, how long it is, and that it is printable and
/// ended by a line feed.
pub fn test_line(number: u64, text: &[u8], closed: bool) -> Result<(), LineFault>
    ensures ok { OnOk result (IsRawLine number text.now closed) }
    ensures bad { IfErr result (IsReportedBy (IsRawFault number text.now closed)) }
{
    if number > SCRIPT_LINES {
        return Err(bad(TOO_MANY));
    }
    if text.len() > LINE_BYTES {
        return Err(bad(TOO_LONG));
    }
    if !closed {
        return Err(bad(NOT_TEXT));
    }
    if !is_printable(text) {
        return Err(bad(NOT_TEXT));
    }
    Ok(())
}

/// Whether each byte is printable ASCII or a space.
fn is_printable(text: &[u8]) -> bool
    ensures { IsTrue result ↔ All (λ b. (32 ≤ b) × (b ≤ 126)) text.now }
{
    text.iter().all(|b| (0x20..=0x7e).contains(b))
}
