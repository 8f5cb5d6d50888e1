// The response on a stream (gRPC over HTTP/2, "Responses" and "Errors"; RFC 9113, sections 5.4.2, 6.9.1, 8.1 and 8.7).
ghost use Rattle.std.specs.Prelude.{◌≡◌, IfOk, Some, codes, false, fold, length, take, ◌≤◌};
ghost use Rattle.attempt_ledger.specs.Throttling.{is_success};
ghost use Rattle.grpc_meta.specs.ResponseFields.{values_of};
ghost use Rattle.session_actions.specs.Responses.{ended, ended_by_block, initial_after, is_read_by, no_response, plain_end, response_after, response_in, status_end, traffic_by, trailers_end, with_block, with_data, with_fault, with_head, with_own_frame, with_read, with_reset, with_trailers, with_update, with_written};
ghost use Rattle.attempt_ledger.specs.declared.row.RowCause.TheVariants as cause;
ghost use Rattle.grpc_base.specs.declared.code.Code.TheVariants as code;

use crate::blocks::content_of;
use crate::fields::{
    block_end, http_code, http_status, is_head, is_interim, plain_end, status_end,
};
use crate::links::{has_flag, is_settings};
use crate::messages::add_messages;
use crate::settings::{last_value, settings_of};
use crate::windows::{increment, last_stream, reset_code, sum};
use attempt_ledger::RowCause;
use grpc_base::error_code::{CANCEL, FLOW_CONTROL_ERROR, PROTOCOL_ERROR, REFUSED_STREAM};
use grpc_base::{Code, Items, NoMemory, Text};
use grpc_frame::MessageFault;
use grpc_meta::shown;
use grpc_status::of_reset;
use h2_frame::settings::INITIAL_WINDOW_SIZE;
use h2_frame::{flags, kinds};
use session_actions::{Block, Outcome, ReadFrame, Response, Sent, Traffic, WireFrame};
use std::alloc::Global;

/// The largest flow-control window (RFC 9113, section 6.9.1).
const LARGEST_WINDOW: u64 = 2_147_483_647;

/// Nothing came yet.
pub fn no_response(alloc: Global) -> Response
    ensures { result ≡ no_response }
{
    Response {
        head: None,
        messages: Items::new(alloc),
        rest: Text::new(alloc),
        large: false,
        end: None,
        closes: false,
        initial: 65_535,
        raised: 0,
        used: 0,
    }
}

/// The response on a stream with this traffic of its link, by the limit on a message.
pub fn response_in(
    alloc: Global,
    limit: u32,
    stream: u32,
    traffic: &[Traffic],
) -> Result<Response, NoMemory>
    ensures { IfOk result (λ p. p ≡ response_in limit stream traffic.now) }
{
    response_with(alloc, limit, stream, no_response(alloc), traffic)
}

/// The response with more traffic.
fn response_with(
    alloc: Global,
    limit: u32,
    stream: u32,
    response: Response,
    traffic: &[Traffic],
) -> Result<Response, NoMemory>
    ensures { IfOk result (λ p. p ≡ fold (response_after limit stream) response traffic.now) }
{
    let Some((first, rest)) = traffic.split_first() else {
        return Ok(response);
    };
    let next = response_after(alloc, limit, stream, response, first)?;
    response_with(alloc, limit, stream, next, rest)
}

/// The response with one thing more. Nothing counts after its end, nor after a message that is too large.
fn response_after(
    alloc: Global,
    limit: u32,
    stream: u32,
    response: Response,
    traffic: &Traffic,
) -> Result<Response, NoMemory>
    ensures { IfOk result (λ p. p ≡ response_after limit stream response traffic.now) }
{
    if response.end.is_some() || response.large {
        return Ok(response);
    }
    match traffic {
        Traffic::Read { read } => with_read(alloc, limit, stream, response, read),
        Traffic::Written { sent } => match sent {
            Sent::Frame { frame } => with_written(stream, response, frame),
            Sent::Preface => Ok(response),
        },
    }
}

/// A frame that was written uses the window of its stream.
fn with_written(stream: u32, response: Response, frame: &WireFrame) -> Result<Response, NoMemory>
    ensures { IfOk result (λ p. p ≡ with_written stream response frame.now) }
{
    if frame.kind == kinds::DATA && frame.stream == stream {
        let used = sum(response.used, frame.payload.len() as u64)?;
        return Ok(Response { used, ..response });
    }
    Ok(response)
}

/// A frame of the link: SETTINGS may shift the window of the stream, and a GOAWAY may leave the stream out.
fn with_read(
    alloc: Global,
    limit: u32,
    stream: u32,
    response: Response,
    read: &ReadFrame,
) -> Result<Response, NoMemory>
    ensures { IfOk result (λ p. p ≡ with_read limit stream response read.now) }
{
    let frame = &read.frame;
    if is_settings(frame) {
        let initial = initial_after(alloc, response.initial, frame)?;
        return Ok(Response {
            initial,
            ..response
        });
    }
    if frame.kind == kinds::GOAWAY && last_stream(frame.payload.as_slice()) < stream {
        let end = plain_end(
            alloc,
            Code::Unavailable,
            RowCause::Goaway,
            true,
            Some(CANCEL),
        );
        return Ok(ended(end, response));
    }
    if frame.stream != stream {
        return Ok(response);
    }
    match &read.block {
        Some(block) => with_block(alloc, response, block),
        None => with_own_frame(alloc, limit, response, frame),
    }
}

/// The first size of the stream's window after SETTINGS.
fn initial_after(alloc: Global, size: u64, frame: &WireFrame) -> Result<u64, NoMemory>
    ensures { IfOk result (λ n. n ≡ initial_after size frame.now) }
{
    let settings = settings_of(alloc, frame)?;
    match last_value(INITIAL_WINDOW_SIZE, settings.as_slice()) {
        Some(value) => Ok(u64::from(value)),
        None => Ok(size),
    }
}

/// A frame of the stream that completes no header block.
fn with_own_frame(
    alloc: Global,
    limit: u32,
    response: Response,
    frame: &WireFrame,
) -> Result<Response, NoMemory>
    ensures { IfOk result (λ p. p ≡ with_own_frame limit response frame.now) }
{
    match frame.kind {
        kinds::DATA => with_data(alloc, limit, response, frame),
        kinds::RST_STREAM => Ok(with_reset(alloc, response, reset_code(frame.payload.as_slice()))),
        kinds::WINDOW_UPDATE => {
            with_update(alloc, response, increment(frame.payload.as_slice()))
        }
        _ => Ok(response),
    }
}

/// RST_STREAM: a stream that is refused before its head was not acted on (RFC 9113, section 8.7).
fn with_reset(alloc: Global, response: Response, number: u32) -> Response
    ensures { result ≡ with_reset response number }
{
    let unseen = number == REFUSED_STREAM && response.head.is_none();
    let end = plain_end(alloc, of_reset(number), RowCause::Reset, unseen, None);
    ended(end, response)
}

/// WINDOW_UPDATE: of something, and not above the largest window (RFC 9113, section 6.9.1).
fn with_update(alloc: Global, response: Response, by: u32) -> Result<Response, NoMemory>
    ensures { IfOk result (λ p. p ≡ with_update response by) }
{
    if by == 0 {
        return Ok(ended(broken(alloc, PROTOCOL_ERROR), response));
    }
    let raised = sum(response.raised, u64::from(by))?;
    let before = sum(response.initial, response.raised)?;
    let after = sum(before, u64::from(by))?;
    if sum(LARGEST_WINDOW, response.used)? < after {
        return Ok(ended(broken(alloc, FLOW_CONTROL_ERROR), response));
    }
    Ok(Response { raised, ..response })
}

/// The end by a frame that breaks a rule of its stream.
fn broken(alloc: Global, reset: u32) -> Outcome
    ensures { result ≡ plain_end code.Internal cause.Framing false (Some reset) }
{
    plain_end(alloc, Code::Internal, RowCause::Framing, false, Some(reset))
}

/// DATA. Before a head it breaks a rule of the stream.
fn with_data(
    alloc: Global,
    limit: u32,
    response: Response,
    frame: &WireFrame,
) -> Result<Response, NoMemory>
    ensures { IfOk result (λ p. p ≡ with_data limit response frame.now) }
{
    if response.head.is_none() {
        return Ok(ended(broken(alloc, PROTOCOL_ERROR), response));
    }
    let mut next = response;
    next.rest.append(content_of(frame))?;
    let text = next.rest.into_vec();
    let (rest, fault) = add_messages(alloc, limit, text.len(), &text, &mut next.messages)?;
    next.rest = Text::of_slice(alloc, rest)?;
    next.closes = has_flag(frame.flags, flags::END_STREAM);
    Ok(with_fault(alloc, fault, next))
}

/// A message with a bad flag ends the response. So does END_STREAM: without a grpc-status, which is UNKNOWN.
fn with_fault(alloc: Global, fault: Option<MessageFault>, response: Response) -> Response
    ensures { result ≡ with_fault fault response }
{
    match fault {
        Some(MessageFault::TooLarge { length: _ }) => Response {
            large: true,
            ..response
        },
        Some(MessageFault::BadFlag) => ended(broken(alloc, CANCEL), response),
        None => {
            if response.closes {
                let end = plain_end(alloc, Code::Unknown, RowCause::Http, false, Some(CANCEL));
                ended(end, response)
            } else {
                response
            }
        }
    }
}

/// A header block. Before the head interim responses are passed over; after it only trailers may come
/// (RFC 9113, section 8.1).
fn with_block(alloc: Global, response: Response, block: &Block) -> Result<Response, NoMemory>
    ensures { IfOk result (λ p. p ≡ with_block response block.now) }
{
    if response.head.is_some() {
        if block.ends {
            return with_trailers(alloc, response, block);
        }
        return ended_by_block(alloc, block, response);
    }
    let status = http_status(&block.fields);
    if is_interim(status) {
        if block.ends {
            return ended_by_block(alloc, block, response);
        }
        return Ok(response);
    }
    if block.ends {
        return with_trailers(alloc, response, block);
    }
    if status.is_none() {
        return ended_by_block(alloc, block, response);
    }
    with_head(alloc, response, block)
}

/// A header block that breaks a rule of its stream.
fn ended_by_block(alloc: Global, block: &Block, response: Response) -> Result<Response, NoMemory>
    ensures { IfOk result (λ p. p ≡ ended_by_block block.now response) }
{
    let end = block_end(
        alloc,
        Code::Internal,
        RowCause::Framing,
        PROTOCOL_ERROR,
        block,
    )?;
    Ok(ended(end, response))
}

/// A header block in the place of the head that does not end the stream.
fn with_head(alloc: Global, response: Response, block: &Block) -> Result<Response, NoMemory>
    ensures { IfOk result (λ p. p ≡ with_head response block.now) }
{
    if is_head(&block.fields) {
        let head = Some(shown(alloc, &block.fields)?);
        return Ok(Response { head, ..response });
    }
    let code = http_code(&block.fields);
    let end = block_end(alloc, code, RowCause::Http, CANCEL, block)?;
    Ok(ended(end, response))
}

/// Trailers, or a response of trailers alone.
fn with_trailers(alloc: Global, response: Response, block: &Block) -> Result<Response, NoMemory>
    ensures { IfOk result (λ p. p ≡ with_trailers response block.now) }
{
    let end = Some(trailers_end(alloc, &response, block)?);
    Ok(Response {
        closes: true,
        end,
        ..response
    })
}

/// The end by trailers: a message that OK cuts off breaks a rule.
fn trailers_end(alloc: Global, response: &Response, block: &Block) -> Result<Outcome, NoMemory>
    ensures { IfOk result (λ o. o ≡ trailers_end response.now block.now (status_end (values_of (codes "grpc-status") block.now.fields) block.now)) }
{
    let outcome = status_end(alloc, block)?;
    if !is_success(outcome.code) {
        return Ok(outcome);
    }
    if 0 < response.rest.len() {
        return block_end(alloc, Code::Internal, RowCause::Framing, CANCEL, block);
    }
    Ok(outcome)
}

/// Whether a code is OK.
#[tactic(auto, using(crate::proofs::LinkLaws::no_success))]
fn is_success(code: Code) -> bool
    ensures { result ≡ is_success code }
{
    matches!(code, Code::Ok)
}

/// The response with an end.
fn ended(outcome: Outcome, response: Response) -> Response
    ensures { result ≡ ended outcome response }
{
    Response {
        end: Some(outcome),
        ..response
    }
}

/// What passed on a link until so many of its bytes were read.
pub fn traffic_by(seen: u64, traffic: &[Traffic]) -> &[Traffic]
    ensures { result.now ≡ traffic_by seen traffic.now }
{
    let count = count_by(seen, traffic);
    &traffic[..count]
}

/// How much passed until then.
fn count_by(seen: u64, traffic: &[Traffic]) -> usize
    ensures prefix { take result traffic.now ≡ traffic_by seen traffic.now }
    ensures within { result ≤ length traffic.now }
{
    let Some((first, rest)) = traffic.split_first() else {
        return 0;
    };
    if is_read_by(seen, first) {
        count_by(seen, rest) + 1
    } else {
        0
    }
}

/// Whether something passed before more than so many bytes were read.
fn is_read_by(seen: u64, traffic: &Traffic) -> bool
    ensures { result ≡ is_read_by seen traffic.now }
{
    match traffic {
        Traffic::Read { read } => read.end <= seen,
        Traffic::Written { sent: _ } => true,
    }
}
