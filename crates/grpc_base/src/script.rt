// What the lines of the scripts for live calls and for the server that answers them say.
ghost use Rattle.std.specs.Prelude.{◌≡◌, ◌↔◌, ◌+◌, ◌<◌, All, length, position, IfSome, IsTrue};
ghost use Rattle.std.specs.List.{AllPass, after_first};
ghost use Rattle.grpc_base.specs.Scripts.{AnswersAreNumbered, IsAnswer, IsAnswerPart, IsPushback, IsServerScript, count_of, ends_stream, is_goaway, is_pushback_byte};

use crate::limits::{MESSAGE_BYTES, PUSHBACK_BYTES};
use crate::{Items, Octets, Request, Text, is_path};

/// One call of a live script: its request, and the messages that it sends.
#[derive(Debug, Drop)]
pub struct CallLine {
    pub request: Request,
    pub messages: Items<Octets>,
}

/// What a scripted server answers.
#[derive(Debug, Drop)]
pub struct ServerScript {
    pub answers: Items<AnswerLine>,
}

/// The answer to the n-th request of a path, from 1.
#[derive(Debug, Drop)]
pub struct AnswerLine {
    pub path: Text,
    pub n: u32,
    pub parts: Items<AnswerPart>,
}

/// A part of a scripted answer.
#[derive(Debug, Drop)]
pub enum AnswerPart {
    /// A header block that begins the response.
    Head,
    /// A message.
    Message(Octets),
    /// Trailers with this `grpc-status`; the whole response where no head came.
    Status(u32),
    /// The `grpc-retry-pushback-ms` of the next status.
    Pushback(Text),
    /// RST_STREAM with this error code.
    Reset(u32),
    /// GOAWAY with the last stream seen.
    Goaway,
    /// Nothing further until so many requests were answered.
    Hold(u32),
}

impl ServerScript {
    /// Whether a scripted server can answer by it. Each answer has the path of a method and at least one part. Each part is
    /// within its limit, after a status or a reset there is only GOAWAY, and the answers of a path are numbered from 1.
    /// The time grows with the square of the answers.
    pub fn is_valid(&self) -> bool
        ensures { IsTrue result ↔ IsServerScript self.now }
    {
        let answers = self.answers.as_slice();
        are_answers(answers) && are_numbered(answers)
    }
}

/// Whether each answer keeps its rules.
fn are_answers(answers: &[AnswerLine]) -> bool
    ensures { IsTrue result ↔ All IsAnswer answers.now }
{
    answers.iter().all(is_answer)
}

/// Whether the answers of each path are numbered from 1.
fn are_numbered(answers: &[AnswerLine]) -> bool
    ensures { IsTrue result ↔ AnswersAreNumbered answers.now }
{
    for (place, answer) in answers.iter().enumerate() {
        let before = count_of(answer.path.as_slice(), &answers[..place]);
        if answer.n as usize != before + 1 {
            return false;
        }
    }
    true
}

/// How many of these answers are of a path.
fn count_of(path: &[u8], answers: &[AnswerLine]) -> usize
    ensures { result ≡ count_of path.now answers.now }
{
    answers.iter().filter(|a| a.path.as_slice() == path).count()
}

/// Whether one answer keeps its rules.
fn is_answer(answer: &AnswerLine) -> bool
    ensures { IsTrue result ↔ IsAnswer answer.now }
{
    let parts = answer.parts.as_slice();
    is_path(answer.path.as_slice())
        && !parts.is_empty()
        && parts.iter().all(is_answer_part)
        && after_end(parts).iter().all(is_goaway)
}

/// The parts after the first that ends the stream.
fn after_end(parts: &[AnswerPart]) -> &[AnswerPart]
    ensures { result.now ≡ after_first ends_stream parts.now }
{
    match first_end(parts) {
        Some(place) => &parts[place + 1..],
        None => &[],
    }
}

/// The place of the first part that ends the stream.
fn first_end(parts: &[AnswerPart]) -> Option<usize>
    ensures place { result ≡ position ends_stream parts.now }
    ensures within { IfSome result (λ place. place < length parts.now) }
{
    parts.iter().position(ends_stream)
}

/// Whether a part is within its limit.
fn is_answer_part(part: &AnswerPart) -> bool
    ensures { IsTrue result ↔ IsAnswerPart part.now }
{
    match part {
        AnswerPart::Message(message) => message.len() <= MESSAGE_BYTES,
        AnswerPart::Pushback(text) => is_pushback(text.as_slice()),
        _ => true,
    }
}

/// Whether a scripted server can send this as a pushback.
fn is_pushback(text: &[u8]) -> bool
    ensures { IsTrue result ↔ IsPushback text.now }
{
    !text.is_empty()
        && text.len() <= PUSHBACK_BYTES
        && text.iter().all(|b| b.is_ascii_graphic() && *b != b',')
}

/// Whether a part ends the stream: a status or a reset.
pub fn ends_stream(part: &AnswerPart) -> bool
    ensures { result ≡ ends_stream part.now }
{
    matches!(part, AnswerPart::Status(_) | AnswerPart::Reset(_))
}

/// Whether a part is GOAWAY.
fn is_goaway(part: &AnswerPart) -> bool
    ensures { result ≡ is_goaway part.now }
{
    matches!(part, AnswerPart::Goaway)
}
