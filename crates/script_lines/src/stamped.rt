// A line of a replay script after the first.
ghost use Rattle.std.specs.Prelude.{IfOk, IfErr};
ghost use Rattle.script_fields.specs.Spelling.{fields};
ghost use Rattle.script_lines.specs.Lines.{IsStampedFault, IsStampedText, IsReportedBy};

use crate::cause::{BAD_COUNT, LineFault, bad};
use crate::event::event_of;
use crate::field::{moment_of, word_of};
use crate::split::first_field;
use grpc_base::Stamped;
use std::alloc::Global;

/// The moment, the random word and the event of a line.
pub fn stamped_of(alloc: Global, text: &[u8]) -> Result<Stamped, LineFault>
    ensures ok { IfOk result (IsStampedText (fields text.now)) }
    ensures bad { IfErr result (IsReportedBy (IsStampedFault (fields text.now))) }
{
    let (moment, rest) = first_field(text);
    let Some(rest) = rest else {
        return Err(bad(BAD_COUNT));
    };
    let (word, rest) = first_field(rest);
    let Some(rest) = rest else {
        return Err(bad(BAD_COUNT));
    };
    let moment = moment_of(moment)?;
    let word = word_of(word)?;
    let event = event_of(alloc, rest)?;
    Ok(Stamped {
        moment,
        word,
        event,
    })
}
