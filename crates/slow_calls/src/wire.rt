// What a frame that was read makes the client queue, and the next frame of an entry.
ghost use Rattle.std.specs.List.{list_any};
ghost use Rattle.std.specs.Prelude.{IfOk, None, Some, [], filter, if◌then◌else◌, length, ◌∷◌, ◌≡◌};
ghost use Rattle.session_actions.specs.Reading.{is_outstanding_on};
ghost use Rattle.session_actions.specs.Words.{is_number};
ghost use Rattle.session_actions.specs.Writing.{bytes_given, fits_drain, is_going_on, next_frame_read, next_written, owed_for, read_action, updates_for};
ghost use Rattle.session_actions.specs.declared.action.Action.TheVariants as action;

use crate::writing::sendable;
use grpc_base::{Items, NoMemory, Reply};
use h2_frame::{flags, kinds};
use session_actions::{Action, Attempt, Link, NextRead, OpenEntry, Seen, Sent, WireFrame};
use slow_attempts::{fits_in_32_bits, numbered, sum};
use slow_ends::has_head;
use slow_link::{
    bytes_of, has_flag, is_outstanding_on, is_settings, next_read, ping_ack, ping_word,
    settings_ack, window_update_frame,
};
use std::alloc::Global;

/// Whether an attempt has the stream of a number.
fn has_stream_of(stream: u32, attempt: &Attempt) -> bool
    ensures { result ≡ is_number stream attempt.now.row.stream }
{
    match attempt.row.stream {
        Some(own) => own == stream,
        None => false,
    }
}

/// Whether a stream is that of an attempt whose head came.
fn is_going_on(alloc: Global, stream: u32, seen: &Seen, attempt: &Attempt) -> Result<bool, NoMemory>
    ensures { IfOk result (λ b. b ≡ is_going_on stream seen.now attempt.now) }
{
    if !has_stream_of(stream, attempt) {
        return Ok(false);
    }
    has_head(alloc, attempt, seen)
}

/// Whether a stream is that of one of these attempts that is outstanding on a link, and its head came.
fn going_on_in(
    alloc: Global,
    stream: u32,
    link: &Link,
    seen: &Seen,
    attempts: &[Attempt],
) -> Result<bool, NoMemory>
    ensures { IfOk result (λ b. b ≡ list_any (is_going_on stream seen.now) (filter (is_outstanding_on link.now) attempts.now)) }
{
    let Some((first, rest)) = attempts.split_first() else {
        return Ok(false);
    };
    if !is_outstanding_on(link, first) {
        return going_on_in(alloc, stream, link, seen, rest);
    }
    if is_going_on(alloc, stream, seen, first)? {
        return Ok(true);
    }
    going_on_in(alloc, stream, link, seen, rest)
}

/// A list of one frame.
fn one_frame(alloc: Global, frame: WireFrame) -> Result<Items<WireFrame>, NoMemory>
    ensures { IfOk result (λ l. l ≡ frame ∷ []) }
{
    let mut frames = Items::new(alloc);
    frames.push(frame)?;
    Ok(frames)
}

/// A list of two frames.
fn two_frames(
    alloc: Global,
    frame: WireFrame,
    other: WireFrame,
) -> Result<Items<WireFrame>, NoMemory>
    ensures { IfOk result (λ l. l ≡ frame ∷ other ∷ []) }
{
    let mut frames = one_frame(alloc, frame)?;
    frames.push(other)?;
    Ok(frames)
}

/// The size of the payload of a frame, of which leave is given again.
fn leave(frame: &WireFrame) -> Result<u32, NoMemory>
    ensures { IfOk result (λ n. n ≡ length frame.now.payload) }
{
    fits_in_32_bits(frame.payload.len() as u64)
}

/// What DATA makes the client queue.
fn updates_for(
    alloc: Global,
    frame: &WireFrame,
    link: &Link,
    seen: &Seen,
) -> Result<Items<WireFrame>, NoMemory>
    ensures { IfOk result (λ l. l ≡ updates_for frame.now link.now seen.now) }
{
    let by = leave(frame)?;
    if by == 0 {
        return Ok(Items::new(alloc));
    }
    let of_link = window_update_frame(alloc, 0, by)?;
    let attempts = seen.attempts.as_slice();
    let goes_on = going_on_in(alloc, frame.stream, link, seen, attempts)?;
    if goes_on && !has_flag(frame.flags, flags::END_STREAM) {
        two_frames(
            alloc,
            of_link,
            window_update_frame(alloc, frame.stream, by)?,
        )
    } else {
        one_frame(alloc, of_link)
    }
}

/// What a frame that was read makes the client queue.
pub fn owed_for(
    alloc: Global,
    frame: &WireFrame,
    link: &Link,
    seen: &Seen,
) -> Result<Items<WireFrame>, NoMemory>
    ensures { IfOk result (λ l. l ≡ owed_for frame.now link.now seen.now) }
{
    if is_settings(frame) {
        return one_frame(alloc, settings_ack());
    }
    if frame.kind == kinds::PING && !has_flag(frame.flags, flags::ACK) {
        return one_frame(alloc, ping_ack(alloc, ping_word(frame.payload.as_slice()))?);
    }
    if frame.kind == kinds::DATA {
        return updates_for(alloc, frame, link, seen);
    }
    Ok(Items::new(alloc))
}

/// How many bytes a reply has that gives bytes to write.
fn octets_in(reply: &Reply) -> usize
    ensures { result ≡ length (bytes_given (Some reply.now)) }
{
    match reply {
        Reply::Octets { octets } => octets.len(),
        _ => 0,
    }
}

/// How many bytes a drain gave so far.
fn given_size(reply: &Option<Reply>) -> usize
    ensures { result ≡ length (bytes_given reply.now) }
{
    match reply {
        Some(reply) => octets_in(reply),
        None => 0,
    }
}

/// Whether a frame fits the room of a drain.
fn fits_drain(alloc: Global, most: u32, current: &OpenEntry, sent: &Sent) -> Result<bool, NoMemory>
    ensures { IfOk result (λ b. b ≡ fits_drain most current.now sent.now) }
{
    let size = bytes_of(alloc, sent)?.len();
    let whole = sum(given_size(&current.reply) as u64, size as u64)?;
    Ok(whole <= u64::from(most.min(1_048_576)))
}

/// The frame that a drain gives next, where it fits.
fn frame_to_write(
    alloc: Global,
    number: u32,
    most: u32,
    current: &OpenEntry,
    sent: Sent,
) -> Result<Option<Action>, NoMemory>
    ensures { IfOk result (λ o. o ≡ (if fits_drain most current.now sent then Some (action.FrameWritten number sent) else None)) }
{
    if fits_drain(alloc, most, current, &sent)? {
        Ok(Some(Action::FrameWritten { link: number, sent }))
    } else {
        Ok(None)
    }
}

/// The next frame that a drain of the link of a number gives, if any.
pub fn next_written(
    alloc: Global,
    number: u32,
    most: u32,
    current: &OpenEntry,
    seen: &Seen,
) -> Result<Option<Action>, NoMemory>
    ensures { IfOk result (λ o. o ≡ next_written number most current.now seen.now) }
{
    let Some(link) = numbered(&seen.links, u64::from(number)) else {
        return Ok(None);
    };
    match sendable(alloc, link, seen)? {
        Some(sent) => frame_to_write(alloc, number, most, current, sent),
        None => Ok(None),
    }
}

/// What the next bytes of a link bring about.
fn read_action(number: u32, next: NextRead) -> Option<Action>
    ensures { result ≡ read_action number next }
{
    match next {
        NextRead::Nothing => None,
        NextRead::Frame { read } => Some(Action::FrameRead { link: number, read }),
        NextRead::Broken { code } => Some(Action::LinkBreaks { link: number, code }),
    }
}

/// The next frame of a piece that came on the link of a number, or the error that it shows.
pub fn next_frame_read(alloc: Global, number: u32, seen: &Seen) -> Result<Option<Action>, NoMemory>
    ensures { IfOk result (λ o. o ≡ next_frame_read number seen.now) }
{
    let Some(link) = numbered(&seen.links, u64::from(number)) else {
        return Ok(None);
    };
    if link.over.is_some() {
        return Ok(None);
    }
    Ok(read_action(number, next_read(alloc, link, seen)?))
}
