// The parts of an answer, with commas between them.
ghost use Rattle.std.specs.Prelude.{◌≡◌, ◌↔◌, ◌||◌, false, IsTrue, IfOk, IfErr, All};
ghost use Rattle.grpc_base.specs.Pieces.{pieces};
ghost use Rattle.grpc_base.specs.Scripts.{ends_stream};
ghost use Rattle.script_lines.specs.Answers.{AreParts, ArePartsFault, IsPartsFault, IsPartsText, IsWithin};
ghost use Rattle.script_lines.specs.Lines.{IsReportedBy};

use crate::cause::{LineFault, PAST_LIMIT, bad};
use crate::part::part_of;
use grpc_base::limits::MESSAGE_BYTES;
use grpc_base::{AnswerPart, Items, ends_stream, first_piece};
use std::alloc::Global;

/// The parts of an answer, each message within its limit.
pub fn parts_of(alloc: Global, text: &[u8]) -> Result<Items<AnswerPart>, LineFault>
    ensures ok { IfOk result (λ ps. IsPartsText text.now ps) }
    ensures bad { IfErr result (IsReportedBy (IsPartsFault text.now)) }
{
    let parts = all_parts(alloc, text)?;
    if !are_within(parts.as_slice()) {
        return Err(bad(PAST_LIMIT));
    }
    Ok(parts)
}

/// The parts of an answer, with messages of any length.
fn all_parts(alloc: Global, text: &[u8]) -> Result<Items<AnswerPart>, LineFault>
    ensures ok { IfOk result (λ ps. AreParts false (pieces 44 text.now) ps) }
    ensures bad { IfErr result (IsReportedBy (ArePartsFault false (pieces 44 text.now))) }
{
    let mut parts = Items::new(alloc);
    let mut ended = false;
    let mut rest = Some(text);
    while let Some(texts) = rest {
        let (first, more) = first_piece(texts, b',');
        let part = part_of(alloc, ended, first)?;
        ended = ended_by(ended, &part);
        parts.push(part)?;
        rest = more;
    }
    Ok(parts)
}

/// Whether nothing but a GOAWAY may stand after this part and those before it.
fn ended_by(ended: bool, part: &AnswerPart) -> bool
    ensures { result ≡ (ended || ends_stream part.now) }
{
    ended || ends_stream(part)
}

/// Whether each message is within its limit.
fn are_within(parts: &[AnswerPart]) -> bool
    ensures { IsTrue result ↔ All IsWithin parts.now }
{
    parts.iter().all(is_within)
}

/// Whether a part that is a message is within its limit.
fn is_within(part: &AnswerPart) -> bool
    ensures { IsTrue result ↔ IsWithin part.now }
{
    match part {
        AnswerPart::Message(message) => message.len() <= MESSAGE_BYTES,
        _ => true,
    }
}
