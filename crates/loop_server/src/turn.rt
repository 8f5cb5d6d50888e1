// An answer that is being given.
ghost use Rattle.std.specs.Prelude.{◌≡◌, ◌++◌, ◌<◌, false, true, IfOk, OnOk, length, Some};
ghost use Rattle.h2_hpack.specs.Encoding.{block_bytes};
ghost use Rattle.h2_server.specs.Sends.{block_sent, share_of};
ghost use Rattle.loop_server.specs.Blocks.{status_fields};
ghost use Rattle.loop_server.specs.Drains.{is_given, may_begin, message_text, move_of, part_moved, part_sent, text_move, text_of};
ghost use Rattle.loop_server.specs.Outcomes.{MovedAs};
ghost use Rattle.loop_server.specs.Script.{parts_at};
ghost use Rattle.loop_server.specs.Steps.{new_turn};

use crate::blocks::{head_block, ok_block, status_block};
use bytes::BytesMut;
use grpc_base::error_code::NO_ERROR;
use grpc_base::{AnswerLine, AnswerPart, NoMemory, Octets};
use grpc_frame::{FrameFault, frame_message};
use h2_server::ServerLink;
use std::alloc::Global;

/// An answer that is not given whole yet.
#[derive(Debug, Drop)]
pub struct Turn {
    pub stream: u32,
    /// The place of the answer among the lines.
    pub line: usize,
    /// How many of its parts were begun.
    pub part: usize,
    /// What is left of the message that was begun, as it is framed.
    pub text: Octets,
}

/// The bytes of a message as they are framed; none of one that is too long.
fn message_text(alloc: Global, message: &Octets) -> Result<Octets, NoMemory>
    ensures { IfOk result (λ text. text ≡ message_text message.now) }
{
    match frame_message(alloc, message.as_slice()) {
        Ok(text) => Ok(text),
        Err(FrameFault::TooLarge) => Ok(Octets::new()),
        Err(FrameFault::NoMemory) => Err(NoMemory),
    }
}

/// The framed bytes of a message that a part begins.
fn text_of(alloc: Global, part: &AnswerPart) -> Result<Octets, NoMemory>
    ensures { IfOk result (λ text. text ≡ text_of part.now) }
{
    match part {
        AnswerPart::Message(message) => message_text(alloc, message),
        _ => Ok(Octets::new()),
    }
}

/// A hold waits until so many requests were answered.
fn may_begin(answered: u64, part: &AnswerPart) -> bool
    ensures { result ≡ may_begin answered part.now }
{
    match part {
        AnswerPart::Hold(count) => u64::from(*count) <= answered,
        _ => true,
    }
}

/// The parts of the answer at a place.
fn parts_at(lines: &[AnswerLine], place: usize) -> &[AnswerPart]
    ensures { result.now ≡ parts_at lines.now place }
{
    match lines.get(place) {
        Some(line) => line.parts.as_slice(),
        None => &[],
    }
}

/// Sends the header block that ends a response, after these parts.
fn send_status(
    alloc: Global,
    stream: u32,
    before: &[AnswerPart],
    code: u32,
    link: &mut ServerLink,
    out: &mut BytesMut,
) -> Result<(), NoMemory>
    ensures link { OnOk result (link.new ≡ record link.old { wire = (block_sent link.old.wire stream (block_bytes (status_fields before.now code)) true).wire }) }
    ensures out { OnOk result (out.new.items ≡ out.old.items ++ (block_sent link.old.wire stream (block_bytes (status_fields before.now code)) true).octets) }
{
    if let Some(block) = ok_block(before, code) {
        return link.send_block(stream, block, true, out);
    }
    let block = status_block(alloc, before, code)?;
    link.send_block(stream, block.as_slice(), true, out)
}

/// Sends a part on its stream, after the parts before it.
fn send_part(
    alloc: Global,
    stream: u32,
    before: &[AnswerPart],
    part: &AnswerPart,
    link: &mut ServerLink,
    out: &mut BytesMut,
) -> Result<(), NoMemory>
    ensures link { OnOk result (link.new ≡ record link.old { wire = (part_sent link.old.wire stream before.now part.now).wire }) }
    ensures out { OnOk result (out.new.items ≡ out.old.items ++ (part_sent link.old.wire stream before.now part.now).octets) }
{
    match part {
        AnswerPart::Head => link.send_block(stream, head_block(), false, out),
        AnswerPart::Status(code) => send_status(alloc, stream, before, *code, link, out),
        AnswerPart::Reset(code) => link.send_reset(stream, *code, out),
        AnswerPart::Goaway => link.send_goaway(NO_ERROR, out),
        AnswerPart::Message(_) | AnswerPart::Pushback(_) | AnswerPart::Hold(_) => Ok(()),
    }
}

impl Turn {
    /// None of the answer was given.
    pub(crate) fn new(stream: u32, line: usize) -> Turn
        ensures { result ≡ new_turn stream line }
    {
        Turn {
            stream,
            line,
            part: 0,
            text: Octets::new(),
        }
    }

    /// Whether all of the answer was given.
    pub(crate) fn is_given(&self, lines: &[AnswerLine]) -> bool
        ensures { result ≡ is_given lines.now self.now }
    {
        self.text.len() == 0 && parts_at(lines, self.line).len() <= self.part
    }

    /// Gives what stands next of the answer, one frame at most; says whether it may be given now.
    pub(crate) fn give(
        &mut self,
        alloc: Global,
        lines: &[AnswerLine],
        answered: u64,
        link: &mut ServerLink,
        out: &mut BytesMut,
    ) -> Result<bool, NoMemory>
        ensures { IfOk result (λ moved. MovedAs moved (move_of lines.now answered link.old.wire self.old) link.old self.old out.old.items link.new self.new out.new.items) }
    {
        if self.text.len() != 0 {
            return self.give_text(link, out);
        }
        let parts = parts_at(lines, self.line);
        let Some(part) = parts.get(self.part) else {
            return Ok(false);
        };
        if !may_begin(answered, part) {
            return Ok(false);
        }
        self.give_part(alloc, &parts[..self.part], part, link, out)?;
        Ok(true)
    }

    /// Gives the next part, which stands after these.
    fn give_part(
        &mut self,
        alloc: Global,
        before: &[AnswerPart],
        part: &AnswerPart,
        link: &mut ServerLink,
        out: &mut BytesMut,
    ) -> Result<(), NoMemory>
        requires { self.old.part < 18446744073709551615 }
        ensures { OnOk result (MovedAs true (Some (part_moved link.old.wire self.old before.now part.now)) link.old self.old out.old.items link.new self.new out.new.items) }
    {
        let text = text_of(alloc, part)?;
        send_part(alloc, self.stream, before, part, link, out)?;
        self.text = text;
        self.part += 1;
        Ok(())
    }

    /// Gives as much of the message as one frame may have.
    fn give_text(&mut self, link: &mut ServerLink, out: &mut BytesMut) -> Result<bool, NoMemory>
        ensures { IfOk result (λ moved. MovedAs moved (text_move link.old.wire self.old (share_of link.old.wire self.old.stream (length self.old.text) false)) link.old self.old out.old.items link.new self.new out.new.items) }
    {
        match link.send_data(self.stream, self.text.as_slice(), false, out)? {
            Some(share) => {
                self.text.advance(share.len as usize);
                Ok(true)
            }
            None => Ok(false),
        }
    }
}
