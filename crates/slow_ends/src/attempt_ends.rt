// How an attempt ends, and what is stamped at its end.
ghost use Rattle.std.specs.Option.{option_map_or, option_or};
ghost use Rattle.std.specs.Prelude.{IfOk, None, Some, if◌then◌else◌, is_some, option_map, ◌||◌, ◌≡◌};
ghost use Rattle.grpc_base.specs.ErrorCodes.{cancel};
ghost use Rattle.session_actions.specs.AttemptEnds.{cut, cut_end, end_of, is_drawing, lost_end, next_cut, next_wire_end, outcome_of, outcome_on, pick_end, tokens_at, tokens_at_end, unsent_end, will_count, wire_end};
ghost use Rattle.session_actions.specs.Attempts.{of_its_call};
ghost use Rattle.session_actions.specs.Entries.{next_word};
ghost use Rattle.session_actions.specs.Links.{is_retiring, link_of, read_bytes};
ghost use Rattle.session_actions.specs.Responses.{plain_end, response};
ghost use Rattle.session_actions.specs.Words.{first_of};
ghost use Rattle.session_actions.specs.declared.action.Action.TheVariants as action;

use crate::streams::{link_of, response};
use attempt_ledger::{RowCause, RowEnd};
use grpc_base::{Code, Metadata, NoMemory, Pushback, Text, error_code};
use session_actions::{Action, Attempt, Call, Link, Outcome, Response, Seen};
use slow_attempts::{
    call_of, commitment, delay_of, entry, is_cut, is_licensed, is_outstanding, is_over,
    is_to_follow_in_call, next_word, now, plan_of, run_of, tokens_after, tokens_in,
};
use slow_link::{is_retiring, read_bytes};
use std::alloc::Global;

/// An end that no header block makes, for which the stream is reset with CANCEL.
fn plain_end(alloc: Global, code: Code, cause: RowCause, unseen: bool) -> Outcome
    ensures { result ≡ plain_end code cause unseen (Some cancel) }
{
    Outcome {
        code,
        text: Text::new(alloc),
        meta: Metadata::new(alloc),
        pushback: Pushback::None,
        unseen,
        cause,
        reset: Some(error_code::CANCEL),
    }
}

/// The client cuts the attempt off.
fn cut_end(alloc: Global) -> Outcome
    ensures { result ≡ cut_end }
{
    plain_end(alloc, Code::Cancelled, RowCause::Cut, false)
}

/// Its pick failed.
pub fn pick_end(alloc: Global) -> Outcome
    ensures { result ≡ pick_end }
{
    plain_end(alloc, Code::Unavailable, RowCause::Pick, false)
}

/// It was never sent.
fn unsent_end(alloc: Global) -> Outcome
    ensures { result ≡ unsent_end }
{
    plain_end(alloc, Code::Unavailable, RowCause::Unsent, true)
}

/// Its link is over.
fn lost_end(alloc: Global) -> Outcome
    ensures { result ≡ lost_end }
{
    plain_end(alloc, Code::Unavailable, RowCause::Lost, false)
}

/// The end of the response to an attempt.
fn response_end(alloc: Global, attempt: &Attempt, seen: &Seen) -> Result<Option<Outcome>, NoMemory>
    ensures { IfOk result (λ o. o ≡ (response attempt.now seen.now).end) }
{
    let Response { end, .. } = response(alloc, attempt, seen)?;
    Ok(end)
}

/// How a link ends an attempt that waits on it for a stream, if it does.
fn waiting_outcome(alloc: Global, link: &Link) -> Option<Outcome>
    ensures { result ≡ (if is_some link.now.over || is_retiring link.now then Some unsent_end else None) }
{
    if link.over.is_some() || is_retiring(link) {
        Some(unsent_end(alloc))
    } else {
        None
    }
}

/// How the wire ends an attempt that has a stream on a link, if it does.
fn streaming_outcome(
    alloc: Global,
    attempt: &Attempt,
    seen: &Seen,
    link: &Link,
) -> Result<Option<Outcome>, NoMemory>
    ensures { IfOk result (λ o. o ≡ option_or (response attempt.now seen.now).end (if is_some link.now.over then Some lost_end else None)) }
{
    if let Some(outcome) = response_end(alloc, attempt, seen)? {
        return Ok(Some(outcome));
    }
    if link.over.is_some() {
        Ok(Some(lost_end(alloc)))
    } else {
        Ok(None)
    }
}

/// How the wire ends an attempt that is outstanding on a link, if it does.
fn outcome_on(
    alloc: Global,
    attempt: &Attempt,
    seen: &Seen,
    link: &Link,
) -> Result<Option<Outcome>, NoMemory>
    ensures { IfOk result (λ o. o ≡ outcome_on attempt.now seen.now attempt.now.row.stream link.now) }
{
    match attempt.row.stream {
        None => Ok(waiting_outcome(alloc, link)),
        Some(_) => streaming_outcome(alloc, attempt, seen, link),
    }
}

/// How the wire ends an attempt, if it does.
fn outcome_of(alloc: Global, attempt: &Attempt, seen: &Seen) -> Result<Option<Outcome>, NoMemory>
    ensures { IfOk result (λ o. o ≡ outcome_of attempt.now seen.now) }
{
    match link_of(attempt, seen) {
        Some(link) => outcome_on(alloc, attempt, seen, link),
        None => Ok(None),
    }
}

/// Whether an end of an attempt will count.
fn will_count(attempt: &Attempt, outcome: &Outcome, seen: &Seen) -> bool
    ensures { result ≡ will_count attempt.now outcome.now seen.now }
{
    !is_cut(outcome.cause) && !is_to_follow_in_call(attempt, outcome.cause, outcome.unseen, seen)
}

/// The tokens of the bucket of a call after an end of an attempt of it, where it has one.
fn tokens_at(attempt: &Attempt, outcome: &Outcome, seen: &Seen, call: &Call) -> Option<u32>
    ensures { result ≡ tokens_at attempt.now outcome.now seen.now call.now }
{
    let run = run_of(call, seen)?;
    let count = tokens_in(run, seen);
    if !will_count(attempt, outcome, seen) {
        return Some(count);
    }
    let plan = plan_of(call, seen);
    Some(tokens_after(&run.throttle, &plan, outcome.code, outcome.pushback, count))
}

/// The tokens of its call's bucket after an end of an attempt, where there is one.
fn tokens_at_end(attempt: &Attempt, outcome: &Outcome, seen: &Seen) -> Option<u32>
    ensures { result ≡ tokens_at_end attempt.now outcome.now seen.now }
{
    tokens_at(attempt, outcome, seen, call_of(attempt, seen)?)
}

/// Whether an end licenses a retry after a wait, for which a random word is drawn.
fn is_drawing(attempt: &Attempt, outcome: &Outcome, seen: &Seen, call: &Call) -> bool
    ensures { result ≡ is_drawing attempt.now outcome.now seen.now call.now }
{
    let tokens = tokens_at(attempt, outcome, seen, call);
    will_count(attempt, outcome, seen)
        && commitment(call, seen).is_none()
        && delay_of(outcome.pushback).is_none()
        && is_licensed(
            call,
            attempt.row.number,
            outcome.code,
            outcome.pushback,
            tokens,
            seen,
        )
}

/// The random word that an end of an attempt draws.
fn word_at_end(attempt: &Attempt, outcome: &Outcome, seen: &Seen) -> Option<u64>
    ensures { result ≡ (if of_its_call (is_drawing attempt.now outcome.now seen.now) attempt.now seen.now then Some (next_word seen.now) else None) }
{
    let call = call_of(attempt, seen)?;
    if is_drawing(attempt, outcome, seen, call) {
        Some(next_word(seen))
    } else {
        None
    }
}

/// How many bytes of the link of an attempt were read.
fn seen_bytes(attempt: &Attempt, seen: &Seen) -> u64
    ensures { result ≡ option_map_or read_bytes (link_of attempt.now seen.now) 0 }
{
    match link_of(attempt, seen) {
        Some(link) => read_bytes(link),
        None => 0,
    }
}

/// The whole end of an attempt, with its stamps.
pub fn end_of(attempt: &Attempt, outcome: Outcome, seen: &Seen) -> Result<RowEnd, NoMemory>
    ensures { IfOk result (λ e. e ≡ end_of attempt.now outcome seen.now) }
{
    let entry = entry(seen)?;
    let tokens = tokens_at_end(attempt, &outcome, seen);
    let word = word_at_end(attempt, &outcome, seen);
    let Outcome {
        code,
        text,
        meta,
        pushback,
        unseen,
        cause,
        reset: _,
    } = outcome;
    Ok(RowEnd {
        entry,
        moment: now(seen),
        code,
        text,
        meta,
        pushback,
        unseen,
        seen: seen_bytes(attempt, seen),
        cause,
        tokens,
        word,
    })
}

/// The end of an attempt.
fn attempt_ends(attempt: &Attempt, outcome: Outcome, seen: &Seen) -> Result<Action, NoMemory>
    ensures { IfOk result (λ a. a ≡ action.AttemptEnds attempt.now.place (end_of attempt.now outcome seen.now)) }
{
    Ok(Action::AttemptEnds {
        row: attempt.place,
        end: end_of(attempt, outcome, seen)?,
    })
}

/// The end of an outstanding attempt by the wire, if it ends so.
fn ended_by_wire(alloc: Global, seen: &Seen, attempt: &Attempt) -> Result<Option<Action>, NoMemory>
    ensures { IfOk result (λ o. o ≡ option_map (λ t. action.AttemptEnds attempt.now.place (end_of attempt.now t seen.now)) (outcome_of attempt.now seen.now)) }
{
    match outcome_of(alloc, attempt, seen)? {
        Some(outcome) => Ok(Some(attempt_ends(attempt, outcome, seen)?)),
        None => Ok(None),
    }
}

/// The end of an attempt by the wire, if it ends so.
fn wire_end(alloc: Global, seen: &Seen, attempt: &Attempt) -> Result<Option<Action>, NoMemory>
    ensures { IfOk result (λ o. o ≡ wire_end seen.now attempt.now) }
{
    if is_outstanding(attempt) && !is_over(attempt, seen) {
        ended_by_wire(alloc, seen, attempt)
    } else {
        Ok(None)
    }
}

fn wire_end_in(alloc: Global, seen: &Seen, attempts: &[Attempt]) -> Result<Option<Action>, NoMemory>
    ensures { IfOk result (λ o. o ≡ first_of (wire_end seen.now) attempts.now) }
{
    let Some((first, rest)) = attempts.split_first() else {
        return Ok(None);
    };
    match wire_end(alloc, seen, first)? {
        Some(action) => Ok(Some(action)),
        None => wire_end_in(alloc, seen, rest),
    }
}

/// The next end by the wire, by place.
pub fn next_wire_end(alloc: Global, seen: &Seen) -> Result<Option<Action>, NoMemory>
    ensures { IfOk result (λ o. o ≡ next_wire_end seen.now) }
{
    wire_end_in(alloc, seen, seen.attempts.as_slice())
}

/// The end of an attempt that is cut off.
fn cut(alloc: Global, seen: &Seen, attempt: &Attempt) -> Result<Option<Action>, NoMemory>
    ensures { IfOk result (λ o. o ≡ cut seen.now attempt.now) }
{
    if is_outstanding(attempt) && is_over(attempt, seen) {
        Ok(Some(attempt_ends(attempt, cut_end(alloc), seen)?))
    } else {
        Ok(None)
    }
}

fn cut_in(alloc: Global, seen: &Seen, attempts: &[Attempt]) -> Result<Option<Action>, NoMemory>
    ensures { IfOk result (λ o. o ≡ first_of (cut seen.now) attempts.now) }
{
    let Some((first, rest)) = attempts.split_first() else {
        return Ok(None);
    };
    match cut(alloc, seen, first)? {
        Some(action) => Ok(Some(action)),
        None => cut_in(alloc, seen, rest),
    }
}

/// The next attempt that is cut off, by place.
pub fn next_cut(alloc: Global, seen: &Seen) -> Result<Option<Action>, NoMemory>
    ensures { IfOk result (λ o. o ≡ next_cut seen.now) }
{
    cut_in(alloc, seen, seen.attempts.as_slice())
}
