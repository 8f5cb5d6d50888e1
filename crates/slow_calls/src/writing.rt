// What a link has to send, and in which order.
ghost use Rattle.std.specs.Option.{option_copied, option_or};
ghost use Rattle.std.specs.Prelude.{IfOk, IfSome, IsTrue, OnOk, drop, filter, is_none, is_some, length, slice_get, take, ◌++◌, ◌∷◌, ◌≡◌, ◌≤◌, ◌↔◌};
ghost use Rattle.grpc_base.specs.Limits.{duration_limit};
ghost use Rattle.grpc_frame.specs.Messages.{framed, framed_all};
ghost use Rattle.grpc_meta.specs.RequestFields.{fields_of_request};
ghost use Rattle.h2_hpack.specs.Encoding.{block_bytes, size_update_to_zero};
ghost use Rattle.session_actions.specs.Links.{is_stream_before};
ghost use Rattle.session_actions.specs.Reading.{is_outstanding_on};
ghost use Rattle.session_actions.specs.Words.{foremost};
ghost use Rattle.session_actions.specs.Writing.{data_for, data_len, data_of, data_on, headers_for, may_open_stream, next_data, next_headers, request_block, sendable, streaming_on, time_left, waiting_on};

use grpc_base::{NoMemory, Octets, is_authority};
use grpc_frame::frame_message;
use grpc_meta::request_fields;
use h2_frame::settings::MAX_CONCURRENT_STREAMS;
use h2_hpack::encode_fields;
use session_actions::{Attempt, Call, Link, Seen, Sent};
use slow_attempts::{call_of, deadline, now, sum};
use slow_ends::{accepted_bytes, earlier_stream};
use slow_link::{
    data_frame, has_begun, has_written_end, headers_frame, is_outstanding_on, is_retiring,
    next_control, next_stream, owes_update, room, setting, used,
};
use std::alloc::Global;

/// The time left until the deadline of a call.
fn time_left(call: &Call, seen: &Seen) -> Option<u64>
    ensures { result ≡ time_left call.now seen.now }
{
    Some(deadline(call, seen)?.saturating_sub(now(seen).nanos()))
}

/// Whether so much time can be written to the server.
fn can_distinguish(left: Option<u64>) -> bool
    ensures { IsTrue result ↔ IfSome left (λ t. (1 ≤ t) × (t ≤ duration_limit)) }
{
    match left {
        Some(left) => 1 <= left && left <= 1_000_000_000_000_000_000,
        None => true,
    }
}

/// The fields of the request of an attempt, in a header block. A request that can't be sent, which no session has, is out
/// of memory.
fn fields_block(
    alloc: Global,
    call: &Call,
    attempt: &Attempt,
    seen: &Seen,
) -> Result<Octets, NoMemory>
    ensures { IfOk result (λ b. b ≡ block_bytes (fields_of_request call.now.request seen.now.setup.authority (time_left call.now seen.now) attempt.now.row.number)) }
{
    let left = time_left(call, seen);
    let authority = &seen.setup.authority;
    let number = attempt.row.number;
    if !can_distinguish(left) {
        return Err(NoMemory);
    }
    if number == 0 {
        return Err(NoMemory);
    }
    if !is_authority(authority.as_slice()) {
        return Err(NoMemory);
    }
    let fields = request_fields(alloc, &call.request, authority, left, number)?;
    let block = encode_fields(alloc, &fields)?;
    Octets::of_buffer(block)
}

/// The header block of the request of an attempt.
fn request_block(
    alloc: Global,
    call: &Call,
    attempt: &Attempt,
    link: &Link,
    seen: &Seen,
) -> Result<Octets, NoMemory>
    ensures { IfOk result (λ b. b ≡ request_block call.now attempt.now link.now seen.now) }
{
    let block = fields_block(alloc, call, attempt, seen)?;
    if owes_update(alloc, link)? {
        with_size_update(alloc, &block)
    } else {
        Ok(block)
    }
}

/// A dynamic table size update to 0 (RFC 7541, section 6.3).
const SIZE_UPDATE_TO_ZERO: u8 = 32;

/// A header block with a dynamic table size update to 0 before its fields.
fn with_size_update(alloc: Global, block: &Octets) -> Result<Octets, NoMemory>
    ensures { IfOk result (λ b. b ≡ size_update_to_zero ∷ block.now) }
{
    let mut bytes = Vec::new(alloc);
    bytes.push(SIZE_UPDATE_TO_ZERO)?;
    bytes.extend_from_slice(block.as_slice())?;
    Octets::of_vec(bytes)
}

/// The HEADERS that open the next stream for an attempt.
fn headers_for(
    alloc: Global,
    link: &Link,
    seen: &Seen,
    attempt: &Attempt,
) -> Result<Option<Sent>, NoMemory>
    ensures { IfOk result (λ o. o ≡ headers_for link.now seen.now attempt.now) }
{
    let Some(call) = call_of(attempt, seen) else {
        return Ok(None);
    };
    let block = request_block(alloc, call, attempt, link, seen)?;
    let stream = next_stream(alloc, link)?;
    Ok(Some(Sent::Frame {
        frame: headers_frame(stream, block),
    }))
}

/// The most bytes of a DATA frame.
const FRAME_LIMIT: u64 = 16_384;

/// How many bytes the next DATA of a stream has, where so many are left.
fn data_len(alloc: Global, link: &Link, stream: u32, left: u64) -> Result<u64, NoMemory>
    ensures { IfOk result (λ n. n ≡ data_len link.now stream left) }
{
    let of_link = room(alloc, 0, link)?;
    let of_stream = room(alloc, stream, link)?;
    Ok(FRAME_LIMIT.min(of_link).min(of_stream.min(left)))
}

/// The bytes of these messages with their prefixes.
fn framed_all(alloc: Global, messages: &[Octets]) -> Result<Vec<u8>, NoMemory>
    ensures { IfOk result (λ v. v.items ≡ framed_all messages.now) }
{
    let mut bytes = Vec::new(alloc);
    add_framed(alloc, &mut bytes, messages)?;
    Ok(bytes)
}

/// Appends messages with their prefixes.
#[tactic(auto, using(crate::proofs::CallLaws::framed_more))]
fn add_framed(alloc: Global, bytes: &mut Vec<u8>, messages: &[Octets]) -> Result<(), NoMemory>
    ensures { OnOk result (bytes.new.items ≡ bytes.old.items ++ framed_all messages.now) }
{
    let Some((first, rest)) = messages.split_first() else {
        return Ok(());
    };
    add_message(alloc, bytes, first.as_slice())?;
    add_framed(alloc, bytes, rest)
}

/// Appends a message with its prefix. One of more than 4 MiB, which no session has, is out of memory.
fn add_message(alloc: Global, bytes: &mut Vec<u8>, message: &[u8]) -> Result<(), NoMemory>
    ensures { OnOk result (bytes.new.items ≡ bytes.old.items ++ framed message.now) }
{
    let Ok(framed) = frame_message(alloc, message) else {
        return Err(NoMemory);
    };
    bytes.extend_from_slice(framed.as_slice())?;
    Ok(())
}

/// So many bytes of the messages of a call after those that were written.
#[tactic(auto, using(std::proofs::lemmas::List::drop_min, std::proofs::lemmas::List::take_min))]
fn data_bytes(alloc: Global, call: &Call, done: u64, len: u64) -> Result<Octets, NoMemory>
    ensures { IfOk result (λ o. o ≡ take len (drop done (framed_all call.now.messages))) }
{
    let bytes = framed_all(alloc, call.messages.as_slice())?;
    let start = (done as usize).min(bytes.len());
    let afterwards = &bytes.as_slice()[start..];
    let count = (len as usize).min(afterwards.len());
    Octets::of_slice(alloc, &afterwards[..count])
}

/// DATA of a stream with so many bytes, or none where it would have neither bytes nor END_STREAM.
fn data_of(
    alloc: Global,
    call: &Call,
    link: &Link,
    stream: u32,
    len: u64,
) -> Result<Option<Sent>, NoMemory>
    ensures { IfOk result (λ o. o ≡ data_of call.now link.now stream len) }
{
    let done = used(stream, link)?;
    let upto = sum(done, len)?;
    let accepted = accepted_bytes(call)?;
    let ends = call.finished && upto == accepted;
    if 0 < len || ends {
        let content = data_bytes(alloc, call, done, len)?;
        Ok(Some(Sent::Frame {
            frame: data_frame(stream, content, ends),
        }))
    } else {
        Ok(None)
    }
}

/// The next DATA of the stream of a call, if any.
fn data_on(alloc: Global, link: &Link, stream: u32, call: &Call) -> Result<Option<Sent>, NoMemory>
    ensures { IfOk result (λ o. o ≡ data_on link.now stream call.now) }
{
    if has_written_end(stream, link) {
        return Ok(None);
    }
    let accepted = accepted_bytes(call)?;
    let left = accepted.saturating_sub(used(stream, link)?);
    let len = data_len(alloc, link, stream, left)?;
    data_of(alloc, call, link, stream, len)
}

/// The next DATA of an attempt, if any.
fn data_for(
    alloc: Global,
    link: &Link,
    seen: &Seen,
    attempt: &Attempt,
) -> Result<Option<Sent>, NoMemory>
    ensures { IfOk result (λ o. o ≡ data_for link.now seen.now attempt.now) }
{
    let Some(stream) = attempt.row.stream else {
        return Ok(None);
    };
    match call_of(attempt, seen) {
        Some(call) => data_on(alloc, link, stream, call),
        None => Ok(None),
    }
}

/// The first of these attempts that waits on a link for a stream.
fn first_waiting_in<'a>(link: &Link, attempts: &'a [Attempt]) -> Option<&'a Attempt>
    ensures { option_copied result ≡ slice_get (filter (λ a. is_none a.row.stream) (filter (is_outstanding_on link.now) attempts.now)) 0 }
{
    let (first, rest) = attempts.split_first()?;
    if !is_outstanding_on(link, first) {
        return first_waiting_in(link, rest);
    }
    if first.row.stream.is_none() {
        Some(first)
    } else {
        first_waiting_in(link, rest)
    }
}

/// The first attempt that waits on a link for a stream.
pub fn first_waiting<'a>(link: &Link, seen: &'a Seen) -> Option<&'a Attempt>
    ensures { option_copied result ≡ slice_get (waiting_on link.now seen.now) 0 }
{
    first_waiting_in(link, seen.attempts.as_slice())
}

/// Whether an attempt has a stream.
fn has_stream(attempt: &Attempt) -> bool
    ensures { result ≡ is_some attempt.now.row.stream }
{
    attempt.row.stream.is_some()
}

/// How many of these attempts have a stream on a link.
fn streaming_in(link: &Link, attempts: &[Attempt]) -> usize
    ensures value { result ≡ length (filter (λ a. is_some a.row.stream) (filter (is_outstanding_on link.now) attempts.now)) }
    ensures within { result ≤ length attempts.now }
{
    let Some((first, rest)) = attempts.split_first() else {
        return 0;
    };
    let others = streaming_in(link, rest);
    if !is_outstanding_on(link, first) {
        return others;
    }
    if has_stream(first) {
        others + 1
    } else {
        others
    }
}

/// Whether a stream may be opened on a link.
fn may_open_stream(alloc: Global, link: &Link, seen: &Seen) -> Result<bool, NoMemory>
    ensures { IfOk result (λ b. b ≡ may_open_stream link.now seen.now) }
{
    if is_retiring(link) {
        return Ok(false);
    }
    match setting(alloc, MAX_CONCURRENT_STREAMS, link)? {
        Some(most) => Ok(streaming_in(link, seen.attempts.as_slice()) < most as usize),
        None => Ok(true),
    }
}

/// The next HEADERS of a link, if any.
fn next_headers(alloc: Global, link: &Link, seen: &Seen) -> Result<Option<Sent>, NoMemory>
    ensures { IfOk result (λ o. o ≡ next_headers link.now seen.now) }
{
    if !may_open_stream(alloc, link, seen)? {
        return Ok(None);
    }
    match first_waiting(link, seen) {
        Some(attempt) => headers_for(alloc, link, seen, attempt),
        None => Ok(None),
    }
}

/// Whether an attempt has DATA to send on a link.
fn has_data(alloc: Global, link: &Link, seen: &Seen, attempt: &Attempt) -> Result<bool, NoMemory>
    ensures { IfOk result (λ b. b ≡ is_some (data_for link.now seen.now attempt.now)) }
{
    let data = data_for(alloc, link, seen, attempt)?;
    Ok(data.is_some())
}

/// The first of these attempts by stream that has DATA to send on a link.
fn first_data_in<'a>(
    alloc: Global,
    link: &Link,
    seen: &Seen,
    attempts: &'a [Attempt],
) -> Result<Option<&'a Attempt>, NoMemory>
    ensures { IfOk result (λ o. option_copied o ≡ foremost is_stream_before (filter (λ a. is_some (data_for link.now seen.now a)) (filter (λ a. is_some a.row.stream) (filter (is_outstanding_on link.now) attempts.now)))) }
{
    let Some((first, rest)) = attempts.split_first() else {
        return Ok(None);
    };
    let later = first_data_in(alloc, link, seen, rest)?;
    if !is_outstanding_on(link, first) {
        return Ok(later);
    }
    if !has_stream(first) {
        return Ok(later);
    }
    if has_data(alloc, link, seen, first)? {
        Ok(Some(earlier_stream(first, later)))
    } else {
        Ok(later)
    }
}

/// The attempt whose DATA is sent next on a link.
fn first_with_data<'a>(
    alloc: Global,
    link: &Link,
    seen: &'a Seen,
) -> Result<Option<&'a Attempt>, NoMemory>
    ensures { IfOk result (λ o. option_copied o ≡ foremost is_stream_before (filter (λ a. is_some (data_for link.now seen.now a)) (streaming_on link.now seen.now))) }
{
    first_data_in(alloc, link, seen, seen.attempts.as_slice())
}

/// The next DATA of a link, if any.
fn next_data(alloc: Global, link: &Link, seen: &Seen) -> Result<Option<Sent>, NoMemory>
    ensures { IfOk result (λ o. o ≡ next_data link.now seen.now) }
{
    match first_with_data(alloc, link, seen)? {
        Some(attempt) => data_for(alloc, link, seen, attempt),
        None => Ok(None),
    }
}

/// The next HEADERS or DATA of a link, if any.
fn next_of_streams(alloc: Global, link: &Link, seen: &Seen) -> Result<Option<Sent>, NoMemory>
    ensures { IfOk result (λ o. o ≡ option_or (next_headers link.now seen.now) (next_data link.now seen.now)) }
{
    match next_headers(alloc, link, seen)? {
        Some(sent) => Ok(Some(sent)),
        None => next_data(alloc, link, seen),
    }
}

/// What a link sends next, if anything.
pub fn sendable(alloc: Global, link: &Link, seen: &Seen) -> Result<Option<Sent>, NoMemory>
    ensures { IfOk result (λ o. o ≡ sendable link.now seen.now) }
{
    if !has_begun(link) {
        return Ok(Some(Sent::Preface));
    }
    match next_control(link)? {
        Some(sent) => Ok(Some(sent)),
        None => next_of_streams(alloc, link, seen),
    }
}
