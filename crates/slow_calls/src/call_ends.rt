// How a call ends, once: by its committed attempt, or by the channel.
ghost use Rattle.std.specs.List.{list_any};
ghost use Rattle.std.specs.Option.{option_copied};
ghost use Rattle.std.specs.Prelude.{IfOk, filter, find, nat_le, not, option_map, ◌&&◌, ◌≡◌};
ghost use Rattle.session_actions.specs.Attempts.{commitment, is_counted, is_outstanding};
ghost use Rattle.session_actions.specs.CallEnds.{cancels, deadline_or, ending_call, has_long_request, has_long_response, is_after_event, is_cancelled, is_due_before, is_over_by_row, is_past_deadline, is_refusal, is_replied, is_shut_down, lacks_config, next_deadline, next_ended, sends_too_long};
ghost use Rattle.session_actions.specs.Configs.{deadline, is_too_long};
ghost use Rattle.session_actions.specs.Entries.{now};
ghost use Rattle.session_actions.specs.Responses.{response};
ghost use Rattle.session_actions.specs.Words.{earlier, foremost, holds};
ghost use Rattle.grpc_base.specs.declared.event.EndCause.TheVariants as ending;

use grpc_base::{EndCause, Event, NoMemory, Reply};
use session_actions::{Action, Attempt, Call, OpenEntry, Seen, Stage};
use slow_attempts::{
    commitment, deadline, is_counted, is_outstanding, is_too_long, is_unconfigured, now,
    waits_for_ready,
};
use slow_ends::response;
use std::alloc::Global;

/// Whether the committed attempt of a call has an end that counts.
fn has_counted_row(seen: &Seen, call: &Call) -> bool
    ensures { result ≡ holds (λ k. is_counted k seen.now) (commitment call.now seen.now) }
{
    match commitment(call, seen) {
        Some(attempt) => is_counted(attempt, seen),
        None => false,
    }
}

/// Whether the committed attempt of an open call has an end that counts.
fn is_over_by_row(seen: &Seen, call: &Call) -> bool
    ensures { result ≡ is_over_by_row seen.now call.now }
{
    call.end.is_none() && has_counted_row(seen, call)
}

fn is_refusal(reply: &Reply) -> bool
    ensures { result ≡ is_refusal reply.now }
{
    matches!(reply, Reply::Refused { refusal: _ })
}

fn is_replied(stage: Stage) -> bool
    ensures { result ≡ is_replied stage }
{
    matches!(stage, Stage::Replied)
}

/// Whether an entry has a reply that is no refusal.
fn is_answered(current: &OpenEntry) -> bool
    ensures { result ≡ holds (λ r. not (is_refusal r)) current.now.reply }
{
    match &current.reply {
        Some(reply) => !is_refusal(reply),
        None => false,
    }
}

/// Whether an entry was replied to, and not with a refusal.
pub fn is_after_event(current: &OpenEntry) -> bool
    ensures { result ≡ is_after_event current.now }
{
    is_replied(current.stage) && is_answered(current)
}

/// Whether an event cancels the call of a number.
fn cancels(event: &Event, number: u32) -> bool
    ensures { result ≡ cancels event.now number }
{
    match event {
        Event::Cancel { call } => *call == number,
        _ => false,
    }
}

/// Whether the event of this entry cancelled an open call.
fn is_cancelled(current: &OpenEntry, call: &Call) -> bool
    ensures { result ≡ is_cancelled current.now call.now }
{
    call.end.is_none() && is_after_event(current) && cancels(&current.event, call.number)
}

/// Whether an event sends a message of a call that is too long.
fn sends_too_long(event: &Event, call: &Call, seen: &Seen) -> bool
    ensures { result ≡ sends_too_long event.now call.now seen.now }
{
    match event {
        Event::Send {
            call: number,
            message,
        } => *number == call.number && is_too_long(message.as_slice(), call, seen),
        _ => false,
    }
}

/// Whether some message that was accepted of a call is too long.
fn has_long_message(call: &Call, seen: &Seen) -> bool
    ensures { result ≡ list_any (λ m. is_too_long m call.now seen.now) call.now.messages }
{
    let messages = call.messages.as_slice();
    messages
        .iter()
        .any(|message| is_too_long(message.as_slice(), call, seen))
}

/// Whether a message of the request of an open call is too long.
fn has_long_request(current: &OpenEntry, seen: &Seen, call: &Call) -> bool
    ensures { result ≡ has_long_request current.now seen.now call.now }
{
    call.end.is_none()
        && (has_long_message(call, seen)
            || (is_after_event(current) && sends_too_long(&current.event, call, seen)))
}

/// Whether the next message of the response to an outstanding attempt is too long.
fn is_large(alloc: Global, attempt: &Attempt, seen: &Seen) -> Result<bool, NoMemory>
    ensures { IfOk result (λ b. b ≡ (is_outstanding attempt.now && (response attempt.now seen.now).large)) }
{
    if !is_outstanding(attempt) {
        return Ok(false);
    }
    let response = response(alloc, attempt, seen)?;
    Ok(response.large)
}

/// Whether a message of the response to the committed attempt of a call is too long.
fn has_large_row(alloc: Global, seen: &Seen, call: &Call) -> Result<bool, NoMemory>
    ensures { IfOk result (λ b. b ≡ holds (λ k. is_outstanding k && (response k seen.now).large) (commitment call.now seen.now)) }
{
    match commitment(call, seen) {
        Some(attempt) => is_large(alloc, attempt, seen),
        None => Ok(false),
    }
}

/// Whether a message of the response of an open call is too long.
fn has_long_response(alloc: Global, seen: &Seen, call: &Call) -> Result<bool, NoMemory>
    ensures { IfOk result (λ b. b ≡ has_long_response seen.now call.now) }
{
    if call.end.is_none() {
        has_large_row(alloc, seen, call)
    } else {
        Ok(false)
    }
}

/// Whether the deadline of a call has come.
fn has_deadline_come(seen: &Seen, call: &Call) -> bool
    ensures { result ≡ holds (λ t. nat_le t (now seen.now)) (deadline call.now seen.now) }
{
    match deadline(call, seen) {
        Some(moment) => moment <= now(seen).nanos(),
        None => false,
    }
}

/// Whether the deadline of an open call has come.
fn is_past_deadline(seen: &Seen, call: &Call) -> bool
    ensures { result ≡ is_past_deadline seen.now call.now }
{
    call.end.is_none() && has_deadline_come(seen, call)
}

fn deadline_or(call: &Call, seen: &Seen) -> u64
    ensures { result ≡ deadline_or call.now seen.now }
{
    deadline(call, seen).unwrap_or(0)
}

/// Whether the deadline of a call comes before that of another one.
fn is_due_before(seen: &Seen, call: &Call, other: &Call) -> bool
    ensures { result ≡ is_due_before seen.now call.now other.now }
{
    deadline_or(call, seen) < deadline_or(other, seen)
}

/// Whether an open call that does not wait for ready has no config to get.
pub fn lacks_config(seen: &Seen, call: &Call) -> bool
    ensures { result ≡ lacks_config seen.now call.now }
{
    call.end.is_none() && is_unconfigured(seen) && !waits_for_ready(call, seen)
}

/// The end of a call.
fn ending_call(cause: EndCause, call: Option<&Call>) -> Option<Action>
    ensures { result ≡ option_map (ending_call cause) (option_copied call.entry) }
{
    Some(Action::CallEnds {
        call: call?.number,
        cause,
    })
}

/// The next call that ends by its committed attempt.
pub fn next_over(seen: &Seen) -> Option<Action>
    ensures { result ≡ next_ended ending.Row (is_over_by_row seen.now) seen.now }
{
    let calls = seen.calls.as_slice();
    let found = calls.iter().find(|call| is_over_by_row(seen, call));
    ending_call(EndCause::Row, found)
}

/// The next call that ends since the application cancelled it.
pub fn next_cancelled(current: &OpenEntry, seen: &Seen) -> Option<Action>
    ensures { result ≡ next_ended ending.Cancelled (is_cancelled current.now) seen.now }
{
    let calls = seen.calls.as_slice();
    let found = calls.iter().find(|call| is_cancelled(current, call));
    ending_call(EndCause::Cancelled, found)
}

/// The next call that ends by a message of its request that is too long.
pub fn next_long_request(current: &OpenEntry, seen: &Seen) -> Option<Action>
    ensures { result ≡ next_ended ending.Request (has_long_request current.now seen.now) seen.now }
{
    let calls = seen.calls.as_slice();
    let found = calls
        .iter()
        .find(|call| has_long_request(current, seen, call));
    ending_call(EndCause::Request, found)
}

fn long_response_in<'a>(
    alloc: Global,
    seen: &Seen,
    calls: &'a [Call],
) -> Result<Option<&'a Call>, NoMemory>
    ensures { IfOk result (λ o. option_copied o ≡ find (has_long_response seen.now) calls.now) }
{
    let Some((first, rest)) = calls.split_first() else {
        return Ok(None);
    };
    if has_long_response(alloc, seen, first)? {
        Ok(Some(first))
    } else {
        long_response_in(alloc, seen, rest)
    }
}

/// The next call that ends by a message of its response that is too long.
pub fn next_long_response(alloc: Global, seen: &Seen) -> Result<Option<Action>, NoMemory>
    ensures { IfOk result (λ o. o ≡ next_ended ending.Response (has_long_response seen.now) seen.now) }
{
    let found = long_response_in(alloc, seen, seen.calls.as_slice())?;
    Ok(ending_call(EndCause::Response, found))
}

/// Whether a call is open, and the channel was shut down.
fn is_shut_down(seen: &Seen, call: &Call) -> bool
    ensures { result ≡ is_shut_down seen.now call.now }
{
    call.end.is_none() && seen.shut
}

/// The next call that ends since the channel was shut down.
pub fn next_shut_down(seen: &Seen) -> Option<Action>
    ensures { result ≡ next_ended ending.Shut (is_shut_down seen.now) seen.now }
{
    let calls = seen.calls.as_slice();
    let found = calls.iter().find(|call| is_shut_down(seen, call));
    ending_call(EndCause::Shut, found)
}

/// The one of two calls whose deadline comes first.
fn earlier_call<'a>(seen: &Seen, call: &'a Call, other: Option<&'a Call>) -> &'a Call
    ensures { result.now ≡ earlier (is_due_before seen.now) call.now (option_copied other.entry) }
{
    let Some(other) = other else {
        return call;
    };
    if is_due_before(seen, other, call) {
        other
    } else {
        call
    }
}

fn past_deadline_in<'a>(seen: &Seen, calls: &'a [Call]) -> Option<&'a Call>
    ensures { option_copied result ≡ foremost (is_due_before seen.now) (filter (is_past_deadline seen.now) calls.now) }
{
    let (first, rest) = calls.split_first()?;
    let later = past_deadline_in(seen, rest);
    if is_past_deadline(seen, first) {
        Some(earlier_call(seen, first, later))
    } else {
        later
    }
}

/// The next call whose deadline has come, the earliest first.
pub fn next_deadline(seen: &Seen) -> Option<Action>
    ensures { result ≡ next_deadline seen.now }
{
    ending_call(
        EndCause::Deadline,
        past_deadline_in(seen, seen.calls.as_slice()),
    )
}
