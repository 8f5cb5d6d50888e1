// The link and the stream of an attempt, and the response on it.
ghost use Rattle.std.specs.Option.{option_copied};
ghost use Rattle.std.specs.Prelude.{IfOk, is_some, length, ◌≡◌};
ghost use Rattle.grpc_frame.specs.Messages.{framed_all};
ghost use Rattle.session_actions.specs.Links.{is_stream_before, link_number, link_of, stream_number};
ghost use Rattle.session_actions.specs.Responses.{limit_of_attempt, response, traffic_of};
ghost use Rattle.session_actions.specs.Words.{earlier};
ghost use Rattle.session_actions.specs.Writing.{accepted_bytes, drained};

use grpc_base::{MessageLimit, NoMemory, Octets};
use session_actions::{Attempt, Call, Link, Response, Seen, Traffic};
use slow_attempts::{call_of, chosen_of, numbered, sum};
use slow_link::{no_response, response_in, traffic_by, used};
use std::alloc::Global;

/// The link of an attempt.
pub fn link_of<'a>(attempt: &Attempt, seen: &'a Seen) -> Option<&'a Link>
    ensures { option_copied result ≡ link_of attempt.now seen.now }
{
    numbered(&seen.links, u64::from(attempt.row.placed?.link))
}

/// The number of the link of an attempt, or 0.
pub fn link_number(attempt: &Attempt) -> u32
    ensures { result ≡ link_number attempt.now }
{
    match attempt.row.placed {
        Some(placed) => placed.link,
        None => 0,
    }
}

/// The number of the stream of an attempt, or 0.
pub fn stream_number(attempt: &Attempt) -> u32
    ensures { result ≡ stream_number attempt.now }
{
    attempt.row.stream.unwrap_or(0)
}

/// Whether an attempt comes before another one in the order of their links and streams.
pub fn is_stream_before(attempt: &Attempt, other: &Attempt) -> bool
    ensures { result ≡ is_stream_before attempt.now other.now }
{
    link_number(attempt) < link_number(other)
        || (link_number(attempt) == link_number(other)
            && stream_number(attempt) < stream_number(other))
}

/// The one of two attempts that comes first by link and stream.
pub fn earlier_stream<'a>(attempt: &'a Attempt, other: Option<&'a Attempt>) -> &'a Attempt
    ensures { result.now ≡ earlier is_stream_before attempt.now (option_copied other.entry) }
{
    let Some(other) = other else {
        return attempt;
    };
    if is_stream_before(other, attempt) {
        other
    } else {
        attempt
    }
}

/// The limit on each message of the response to an attempt.
fn limit_of_attempt(attempt: &Attempt, seen: &Seen) -> u32
    ensures { result ≡ limit_of_attempt attempt.now seen.now }
{
    match call_of(attempt, seen) {
        Some(call) => chosen_of(call, seen).response.bytes(),
        None => MessageLimit::LARGEST,
    }
}

/// What passed on the link of an attempt, up to what its end saw.
fn traffic_of<'a>(attempt: &Attempt, traffic: &'a [Traffic]) -> &'a [Traffic]
    ensures { result.now ≡ traffic_of attempt.now traffic.now }
{
    match &attempt.row.ended {
        Some(end) => traffic_by(end.seen, traffic),
        None => traffic,
    }
}

/// The response to an attempt.
pub fn response(alloc: Global, attempt: &Attempt, seen: &Seen) -> Result<Response, NoMemory>
    ensures { IfOk result (λ r. r ≡ response attempt.now seen.now) }
{
    let Some(stream) = attempt.row.stream else {
        return Ok(no_response(alloc));
    };
    let Some(link) = link_of(attempt, seen) else {
        return Ok(no_response(alloc));
    };
    let limit = limit_of_attempt(attempt, seen);
    let traffic = traffic_of(attempt, link.traffic.as_slice());
    response_in(alloc, limit, stream, traffic)
}

/// Whether the head of the response to an attempt came.
pub fn has_head(alloc: Global, attempt: &Attempt, seen: &Seen) -> Result<bool, NoMemory>
    ensures { IfOk result (λ b. b ≡ is_some (response attempt.now seen.now).head) }
{
    let response = response(alloc, attempt, seen)?;
    Ok(response.head.is_some())
}

/// How many bytes of its call's messages were written for an attempt.
pub fn drained(attempt: &Attempt, seen: &Seen) -> Result<u64, NoMemory>
    ensures { IfOk result (λ n. n ≡ drained attempt.now seen.now) }
{
    let Some(stream) = attempt.row.stream else {
        return Ok(0);
    };
    match link_of(attempt, seen) {
        Some(link) => used(stream, link),
        None => Ok(0),
    }
}

/// The size of these messages with their prefixes.
#[tactic(auto, using(crate::proofs::EndLaws::framed_size_of))]
fn framed_size(messages: &[Octets]) -> Result<u64, NoMemory>
    ensures { IfOk result (λ n. n ≡ length (framed_all messages.now)) }
{
    let Some((first, rest)) = messages.split_first() else {
        return Ok(0);
    };
    let others = framed_size(rest)?;
    let size = sum(first.len() as u64, 5)?;
    sum(size, others)
}

/// How many bytes of a call's messages were accepted, each with its prefix.
pub fn accepted_bytes(call: &Call) -> Result<u64, NoMemory>
    ensures { IfOk result (λ n. n ≡ accepted_bytes call.now) }
{
    framed_size(call.messages.as_slice())
}
