// The parts of an answer.
ghost use Rattle.std.specs.Prelude.{◌≡◌, ◌≢◌, ◌↔◌, IsTrue, IfOk, IfErr, IfSome, IfNone, ℕ, List};
ghost use Rattle.script_lines.specs.declared.part.PartKind as part_kinds;
ghost use Rattle.script_lines.specs.declared.part.PartKind.TheVariants as kinds;
ghost use Rattle.script_lines.specs.Answers.{HasShape, IsNoNumber, IsPart, IsPartFault, IsPartOf, IsValue, IsValueFault, MayStand, letter_of, part_kind};
ghost use Rattle.script_lines.specs.Causes.{bad_number};
ghost use Rattle.script_lines.specs.Fields.{IsNumber, number_limit};
ghost use Rattle.script_lines.specs.Lines.{IsReportedBy};

use crate::cause::{BAD_HEX, BAD_NUMBER, LineFault, UNKNOWN_KIND, bad};
use crate::field::read_u32;
use grpc_base::limits::PUSHBACK_BYTES;
use grpc_base::{AnswerPart, Octets, Text};
use script_fields::bytes_of;
use std::alloc::Global;

/// What a part is, by the letter that begins it.
#[derive(Clone, Copy, Debug, PartialEq, Eq)]
pub enum PartKind {
    Head,
    Message,
    Status,
    Pushback,
    Reset,
    Goaway,
    Hold,
}

/// The kind of this letter.
fn kind_of(letter: u8) -> Option<PartKind>
    ensures some { IfSome result (λ k. letter ≡ letter_of k) }
    ensures none { IfNone result ((k : part_kinds.PartKind) → letter ≢ letter_of k) }
{
    let kind = match letter {
        b'h' => PartKind::Head,
        b'm' => PartKind::Message,
        b's' => PartKind::Status,
        b'p' => PartKind::Pushback,
        b'r' => PartKind::Reset,
        b'g' => PartKind::Goaway,
        b'w' => PartKind::Hold,
        _ => return None,
    };
    Some(kind)
}

/// Whether this may stand after the letter of such a part.
fn has_shape(kind: PartKind, rest: &[u8]) -> bool
    ensures { IsTrue result ↔ HasShape kind rest.now }
{
    match kind {
        PartKind::Head | PartKind::Goaway => rest.is_empty(),
        PartKind::Pushback => !rest.is_empty() && rest.len() <= PUSHBACK_BYTES,
        _ => true,
    }
}

/// Whether such a part may stand here, after a status or a reset or not.
fn may_stand(ended: bool, kind: PartKind) -> bool
    ensures { IsTrue result ↔ MayStand ended kind }
{
    match kind {
        PartKind::Goaway => true,
        _ => !ended,
    }
}

/// The kind of a part in its form, and what stands after its letter.
fn form_of(ended: bool, text: &[u8]) -> Option<(PartKind, &[u8])>
    ensures some { IfSome result (λ p. IsPartOf ended p.0 text.now p.1.now) }
    ensures none { IfNone result ((k : part_kinds.PartKind) (rest : List ℕ) → IsPartOf ended k text.now rest → ⊥) }
{
    let [letter, rest @ ..] = text else {
        return None;
    };
    let kind = kind_of(*letter)?;
    if !has_shape(kind, rest) {
        return None;
    }
    if !may_stand(ended, kind) {
        return None;
    }
    Some((kind, rest))
}

/// The part of this kind whose value this spells.
fn value_of(alloc: Global, kind: PartKind, rest: &[u8]) -> Result<AnswerPart, LineFault>
    ensures ok { IfOk result (λ p. (part_kind p ≡ kind) × IsValue rest.now p) }
    ensures bad { IfErr result (IsReportedBy (IsValueFault kind rest.now)) }
{
    match kind {
        PartKind::Head => Ok(AnswerPart::Head),
        PartKind::Message => message_of(alloc, rest),
        PartKind::Status => Ok(AnswerPart::Status(number_part(rest)?)),
        PartKind::Pushback => Ok(AnswerPart::Pushback(Text::of_slice(alloc, rest)?)),
        PartKind::Reset => Ok(AnswerPart::Reset(number_part(rest)?)),
        PartKind::Goaway => Ok(AnswerPart::Goaway),
        PartKind::Hold => Ok(AnswerPart::Hold(number_part(rest)?)),
    }
}

/// The number of a part.
fn number_part(rest: &[u8]) -> Result<u32, LineFault>
    ensures ok { IfOk result (λ n. IsNumber number_limit n rest.now) }
    ensures bad { IfErr result (IsReportedBy (λ c. IsNoNumber rest.now × (c ≡ bad_number))) }
{
    match read_u32(rest) {
        Some(number) => Ok(number),
        None => Err(bad(BAD_NUMBER)),
    }
}

/// The message of a part, of any length: no digits are the empty one.
fn message_of(alloc: Global, rest: &[u8]) -> Result<AnswerPart, LineFault>
    ensures ok { IfOk result (λ p. (part_kind p ≡ kinds.Message) × IsValue rest.now p) }
    ensures bad { IfErr result (IsReportedBy (IsValueFault kinds.Message rest.now)) }
{
    let Some(bytes) = bytes_of(alloc, rest)? else {
        return Err(bad(BAD_HEX));
    };
    let message = Octets::of_vec(bytes)?;
    Ok(AnswerPart::Message(message))
}

/// One part, after a status or a reset or not.
pub fn part_of(alloc: Global, ended: bool, text: &[u8]) -> Result<AnswerPart, LineFault>
    ensures ok { IfOk result (IsPart ended text.now) }
    ensures bad { IfErr result (IsReportedBy (IsPartFault ended text.now)) }
{
    let Some((kind, rest)) = form_of(ended, text) else {
        return Err(bad(UNKNOWN_KIND));
    };
    let part = value_of(alloc, kind, rest)?;
    Ok(part)
}
