// The streams of attempts that ended, which are reset.
ghost use Rattle.std.specs.Option.{option_copied};
ghost use Rattle.std.specs.Prelude.{IfOk, filter, is_some, option_and_then, ◌≡◌};
ghost use Rattle.session_actions.specs.AttemptEnds.{code_for_stream, code_to_reset, is_framing, is_reset, next_reset, reset_code_of, reset_of};
ghost use Rattle.session_actions.specs.Links.{is_stream_before, link_of};
ghost use Rattle.session_actions.specs.Words.{foremost};

use crate::streams::{earlier_stream, link_of, response};
use attempt_ledger::{RowCause, RowEnd};
use grpc_base::{NoMemory, error_code};
use session_actions::{Action, Attempt, Link, Outcome, Seen};
use slow_attempts::entry;
use slow_link::has_written_end;
use std::alloc::Global;

/// Whether the peer reset the stream.
fn is_reset(cause: RowCause) -> bool
    ensures { result ≡ is_reset cause }
{
    matches!(cause, RowCause::Reset)
}

/// Whether the peer broke a rule of the stream.
fn is_framing(cause: RowCause) -> bool
    ensures { result ≡ is_framing cause }
{
    matches!(cause, RowCause::Framing)
}

/// The code with which the end of a response says that its stream is reset.
fn reset_by(end: &Option<Outcome>) -> Option<u32>
    ensures { result ≡ option_and_then (λ t. t.reset) end.now }
{
    match end {
        Some(outcome) => outcome.reset,
        None => None,
    }
}

/// The code of RST_STREAM for a stream whose attempt ended, where it is reset.
fn code_to_reset(
    alloc: Global,
    attempt: &Attempt,
    end: &RowEnd,
    stream: u32,
    seen: &Seen,
    link: &Link,
) -> Result<Option<u32>, NoMemory>
    ensures { IfOk result (λ o. o ≡ code_to_reset attempt.now end.now stream seen.now link.now) }
{
    if is_reset(end.cause) {
        return Ok(None);
    }
    if link.over.is_some() {
        return Ok(None);
    }
    let response = response(alloc, attempt, seen)?;
    if has_written_end(stream, link) && response.closes {
        return Ok(None);
    }
    if is_framing(end.cause) {
        return Ok(reset_by(&response.end));
    }
    Ok(Some(error_code::CANCEL))
}

/// That code, by the link of the attempt.
fn code_on_link(
    alloc: Global,
    attempt: &Attempt,
    end: &RowEnd,
    seen: &Seen,
    stream: u32,
) -> Result<Option<u32>, NoMemory>
    ensures { IfOk result (λ o. o ≡ option_and_then (code_to_reset attempt.now end.now stream seen.now) (link_of attempt.now seen.now)) }
{
    match link_of(attempt, seen) {
        Some(link) => code_to_reset(alloc, attempt, end, stream, seen, link),
        None => Ok(None),
    }
}

/// That code, once, in the entry of the end.
fn code_for_stream(
    alloc: Global,
    attempt: &Attempt,
    end: &RowEnd,
    seen: &Seen,
    stream: u32,
) -> Result<Option<u32>, NoMemory>
    ensures { IfOk result (λ o. o ≡ code_for_stream attempt.now end.now seen.now stream) }
{
    let entry = entry(seen)?;
    if end.entry == entry && !attempt.reset {
        code_on_link(alloc, attempt, end, seen, stream)
    } else {
        Ok(None)
    }
}

/// The code with which the stream of an attempt is to be reset.
fn reset_code_of(alloc: Global, seen: &Seen, attempt: &Attempt) -> Result<Option<u32>, NoMemory>
    ensures { IfOk result (λ o. o ≡ reset_code_of seen.now attempt.now) }
{
    let Some(end) = &attempt.row.ended else {
        return Ok(None);
    };
    match attempt.row.stream {
        Some(stream) => code_for_stream(alloc, attempt, end, seen, stream),
        None => Ok(None),
    }
}

/// The first of these attempts by link and stream whose stream is to be reset.
fn first_reset_in<'a>(
    alloc: Global,
    seen: &Seen,
    attempts: &'a [Attempt],
) -> Result<Option<&'a Attempt>, NoMemory>
    ensures { IfOk result (λ o. option_copied o ≡ foremost is_stream_before (filter (λ a. is_some (reset_code_of seen.now a)) attempts.now)) }
{
    let Some((first, rest)) = attempts.split_first() else {
        return Ok(None);
    };
    let later = first_reset_in(alloc, seen, rest)?;
    match reset_code_of(alloc, seen, first)? {
        Some(_) => Ok(Some(earlier_stream(first, later))),
        None => Ok(later),
    }
}

/// The reset of the stream of an attempt.
fn reset_of(alloc: Global, seen: &Seen, attempt: &Attempt) -> Result<Option<Action>, NoMemory>
    ensures { IfOk result (λ o. o ≡ reset_of seen.now attempt.now) }
{
    match reset_code_of(alloc, seen, attempt)? {
        Some(code) => Ok(Some(Action::StreamReset {
            row: attempt.place,
            code,
        })),
        None => Ok(None),
    }
}

/// The attempt whose stream is reset next.
fn first_reset(alloc: Global, seen: &Seen) -> Result<Option<&Attempt>, NoMemory>
    ensures { IfOk result (λ o. option_copied o ≡ foremost is_stream_before (filter (λ a. is_some (reset_code_of seen.now a)) seen.now.attempts)) }
{
    first_reset_in(alloc, seen, seen.attempts.as_slice())
}

/// The reset of an attempt's stream, where there is one.
fn reset_of_first(
    alloc: Global,
    seen: &Seen,
    first: Option<&Attempt>,
) -> Result<Option<Action>, NoMemory>
    ensures { IfOk result (λ o. o ≡ option_and_then (reset_of seen.now) (option_copied first.entry)) }
{
    match first {
        Some(attempt) => reset_of(alloc, seen, attempt),
        None => Ok(None),
    }
}

/// The next stream that is reset, by link and stream.
pub fn next_reset(alloc: Global, seen: &Seen) -> Result<Option<Action>, NoMemory>
    ensures { IfOk result (λ o. o ≡ next_reset seen.now) }
{
    let first = first_reset(alloc, seen)?;
    reset_of_first(alloc, seen, first)
}
