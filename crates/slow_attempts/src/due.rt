// When the next attempt of a call is due.
ghost use Rattle.std.specs.Option.{option_map_or};
ghost use Rattle.std.specs.Prelude.{None, Some, filter, fold, if◌then◌else◌, is_some, max, not, ◌&&◌, ◌*◌, ◌-◌, ◌≡◌, ◌≤◌};
ghost use Rattle.attempt_ledger.specs.Ends.{delay_of};
ghost use Rattle.attempt_ledger.specs.Numbering.{is_transparent};
ghost use Rattle.grpc_base.specs.Limits.{duration_limit};
ghost use Rattle.session_actions.specs.Attempts.{is_of};
ghost use Rattle.session_actions.specs.DueAttempts.{attempts_made, due_after_end, due_after_making, due_after_mark, due_by, due_by_plan, due_state, hedge_due, hedge_forced, is_licensed, is_licensed_by, kind_of_next, last_delayed, next_due, no_due, retry_due, retry_wait, was_delayed};
ghost use Rattle.session_actions.specs.Words.{holds, is_number, numbered};

use crate::attempts::{counts_by, is_counted, is_of};
use crate::configs::plan_of;
use crate::ledger_words::{
    codes_of, delay_of, is_stop, is_transparent, later_kind, millis_after, most_attempts, wait_cap,
};
use crate::tokens::allows_attempt;
use crate::words::numbered;
use a6_numbers::retry_wait as spread_wait;
use attempt_ledger::{RowEnd, RowKind};
use grpc_base::{CallPlan, Code, Moment, Pushback, RetryPolicy};
use session_actions::{Attempt, Call, DueState, Mark, MarkKind, Seen};

/// Whether an end of this number, code and pushback licenses a retry, where the tokens allow it.
fn is_licensed_by(plan: &CallPlan, number: u32, code: Code, asks: Pushback, allowed: bool) -> bool
    ensures { result ≡ is_licensed_by plan.now number code asks allowed }
{
    match plan {
        CallPlan::Retry(policy) => {
            policy.codes.has(code) && !is_stop(asks) && allowed && number < policy.max
        }
        CallPlan::None | CallPlan::Hedge(_) => false,
    }
}

/// Whether an end of this number, code, pushback and count of tokens licenses a retry.
pub fn is_licensed(
    call: &Call,
    number: u32,
    code: Code,
    asks: Pushback,
    tokens: Option<u32>,
    seen: &Seen,
) -> bool
    ensures { result ≡ is_licensed call.now number code asks tokens seen.now }
{
    let plan = plan_of(call, seen);
    is_licensed_by(
        &plan,
        number,
        code,
        asks,
        allows_attempt(call, tokens, seen),
    )
}

/// Whether the server asked for a delay at the end of a row.
fn asked_for_delay(attempt: &Attempt) -> bool
    ensures { result ≡ holds (λ e. is_some (delay_of e.pushback)) attempt.now.row.ended }
{
    match &attempt.row.ended {
        Some(end) => delay_of(end.pushback).is_some(),
        None => false,
    }
}

/// Whether a row is one of a call up to this number, and at its counted end the server asked for a delay.
fn was_delayed(call: &Call, number: u32, seen: &Seen, attempt: &Attempt) -> bool
    ensures { result ≡ was_delayed call.now number seen.now attempt.now }
{
    is_of(call, attempt)
        && attempt.row.number <= number
        && is_counted(attempt, seen)
        && asked_for_delay(attempt)
}

/// The greatest number of these rows after which the server asked for a delay, and no less than this one.
fn last_delayed_in(call: &Call, number: u32, seen: &Seen, most: u32, attempts: &[Attempt]) -> u32
    ensures { result ≡ fold (λ n a. max n a.row.number) most (filter (was_delayed call.now number seen.now) attempts.now) }
{
    let Some((first, rest)) = attempts.split_first() else {
        return most;
    };
    if was_delayed(call, number, seen, first) {
        last_delayed_in(call, number, seen, most.max(first.row.number), rest)
    } else {
        last_delayed_in(call, number, seen, most, rest)
    }
}

/// The number of the last attempt up to this one after which the server asked for a delay, or 0.
fn last_delayed(call: &Call, number: u32, seen: &Seen) -> u32
    ensures { result ≡ last_delayed call.now number seen.now }
{
    last_delayed_in(call, number, seen, 0, seen.attempts.as_slice())
}

/// The wait before a retry in nanoseconds.
fn retry_wait(policy: &RetryPolicy, n: u32, end: &RowEnd) -> u64
    ensures value { result ≡ retry_wait policy.now n end.now }
    ensures within { result ≤ 2 * duration_limit }
{
    spread_wait(wait_cap(policy, n), end.word.unwrap_or(0))
}

/// The moment of the retry after an end.
fn retry_due(policy: &RetryPolicy, n: u32, end: &RowEnd) -> u64
    ensures { result ≡ retry_due policy.now n end.now }
{
    match delay_of(end.pushback) {
        Some(millis) => millis_after(end, millis),
        None => end.moment.nanos() + retry_wait(policy, n, end),
    }
}

/// Before its configuration no attempt of a call is made.
fn no_due() -> DueState
    ensures { result ≡ no_due }
{
    DueState {
        newest: None,
        placed: None,
        forced: None,
        stopped: true,
    }
}

/// What a counted end of a hedged call says of the next attempt.
fn hedge_forced(asks: Pushback, allowed: bool, end: &RowEnd, due: DueState) -> DueState
    ensures { result ≡ hedge_forced asks allowed end.now due }
{
    match asks {
        Pushback::Stop => DueState {
            stopped: true,
            ..due
        },
        Pushback::After(millis) => DueState {
            forced: Some(millis_after(end, millis)),
            ..due
        },
        Pushback::None => DueState {
            forced: Some(end.moment.nanos()),
            stopped: !allowed,
            ..due
        },
    }
}

/// The moment of the retry that an end licenses.
fn licensed_due(
    policy: &RetryPolicy,
    call: &Call,
    attempt: &Attempt,
    seen: &Seen,
    end: &RowEnd,
) -> Option<u64>
    ensures { result ≡ (if is_licensed call.now attempt.now.row.number end.now.code end.now.pushback end.now.tokens seen.now then Some (retry_due policy.now (attempt.now.row.number - last_delayed call.now attempt.now.row.number seen.now) end.now) else None) }
{
    let number = attempt.row.number;
    if !is_licensed(call, number, end.code, end.pushback, end.tokens, seen) {
        return None;
    }
    let since = number.saturating_sub(last_delayed(call, number, seen));
    Some(retry_due(policy, since, end))
}

/// What a counted end with a code of the plan says of the next attempt.
fn due_by_plan(
    plan: &CallPlan,
    call: &Call,
    attempt: &Attempt,
    seen: &Seen,
    due: DueState,
    end: &RowEnd,
) -> DueState
    ensures { result ≡ due_by_plan plan.now call.now attempt.now seen.now due end.now }
{
    match plan {
        CallPlan::None => due,
        CallPlan::Retry(policy) => DueState {
            forced: licensed_due(policy, call, attempt, seen, end),
            ..due
        },
        CallPlan::Hedge(_) => {
            hedge_forced(
                end.pushback,
                allows_attempt(call, end.tokens, seen),
                end,
                due,
            )
        }
    }
}

/// What an end says of the next attempt.
fn due_after_end(
    call: &Call,
    seen: &Seen,
    due: DueState,
    attempt: &Attempt,
    end: &RowEnd,
) -> DueState
    ensures { result ≡ due_after_end call.now seen.now due attempt.now end.now }
{
    let plan = plan_of(call, seen);
    if !due.stopped && counts_by(attempt, seen, end) && codes_of(&plan).has(end.code) {
        due_by_plan(&plan, call, attempt, seen, due, end)
    } else {
        due
    }
}

/// What the end of the row at a place says of the next attempt.
fn due_after_row_end(call: &Call, seen: &Seen, due: DueState, place: u64) -> DueState
    ensures { result ≡ option_map_or (λ a. option_map_or (due_after_end call.now seen.now due a) a.row.ended due) (numbered seen.now.attempts place) due }
{
    let Some(attempt) = numbered(&seen.attempts, place) else {
        return due;
    };
    match &attempt.row.ended {
        Some(end) => due_after_end(call, seen, due, attempt, end),
        None => due,
    }
}

/// What the making of the row at a place says of the next attempt.
fn due_after_making(seen: &Seen, due: DueState, place: u64) -> DueState
    ensures { result ≡ option_map_or (due_after_making due) (numbered seen.now.attempts place) due }
{
    let Some(attempt) = numbered(&seen.attempts, place) else {
        return due;
    };
    if is_transparent(attempt.row.kind) {
        return due;
    }
    DueState {
        newest: Some(attempt.place),
        placed: None,
        forced: None,
        stopped: due.stopped,
    }
}

/// Whether a number is this one.
pub fn is_number(number: u64, other: Option<u64>) -> bool
    ensures { result ≡ is_number number other }
{
    match other {
        Some(other) => other == number,
        None => false,
    }
}

/// What a mark says of the next attempt.
fn due_after_mark(
    call: &Call,
    seen: &Seen,
    what: MarkKind,
    moment: Moment,
    due: DueState,
) -> DueState
    ensures { result ≡ due_after_mark call.now seen.now what moment due }
{
    match what {
        MarkKind::Configured => DueState {
            forced: Some(moment.nanos()),
            stopped: false,
            ..due
        },
        MarkKind::Made { row } => due_after_making(seen, due, row),
        MarkKind::Placed { row } => {
            if is_number(row, due.newest) {
                DueState {
                    placed: Some(moment),
                    ..due
                }
            } else {
                due
            }
        }
        MarkKind::Ended { row } => due_after_row_end(call, seen, due, row),
        MarkKind::Withheld | MarkKind::Committed | MarkKind::Closed => DueState {
            stopped: true,
            ..due
        },
    }
}

/// What these marks say of the next attempt, after others.
fn due_after_marks(call: &Call, seen: &Seen, due: DueState, marks: &[Mark]) -> DueState
    ensures { result ≡ fold (λ d m. due_after_mark call.now seen.now m.what m.moment d) due marks.now }
{
    match marks.split_first() {
        None => due,
        Some((mark, rest)) => {
            let due = due_after_mark(call, seen, mark.what, mark.moment, due);
            due_after_marks(call, seen, due, rest)
        }
    }
}

/// What the marks of a call say of its next attempt.
fn due_state(call: &Call, seen: &Seen) -> DueState
    ensures { result ≡ due_state call.now seen.now }
{
    due_after_marks(call, seen, no_due(), call.marks.as_slice())
}

/// Whether a row is a further attempt of a call.
fn is_further_of(call: &Call, attempt: &Attempt) -> bool
    ensures { result ≡ (is_of call.now attempt.now && not (is_transparent attempt.now.row.kind)) }
{
    is_of(call, attempt) && !is_transparent(attempt.row.kind)
}

/// How many attempts of a call were made.
pub fn attempts_made(call: &Call, seen: &Seen) -> u64
    ensures { result ≡ attempts_made call.now seen.now }
{
    let made = seen
        .attempts
        .as_slice()
        .iter()
        .filter(|attempt| is_further_of(call, attempt));
    made.count() as u64
}

/// The moment of the next hedge: the delay after the newest attempt was placed.
fn hedge_due(plan: &CallPlan, due: DueState) -> Option<u64>
    ensures { result ≡ hedge_due plan.now due }
{
    match plan {
        CallPlan::Hedge(policy) => Some(due.placed?.nanos() + policy.delay.nanos()),
        CallPlan::None | CallPlan::Retry(_) => None,
    }
}

/// The moment of the next attempt, after so many.
fn due_by(plan: &CallPlan, made: u64, due: DueState) -> Option<u64>
    ensures { result ≡ due_by plan.now made due }
{
    if due.stopped || u64::from(most_attempts(plan)) <= made {
        return None;
    }
    match due.forced {
        Some(moment) => Some(moment),
        None => hedge_due(plan, due),
    }
}

/// The moment at which the next attempt of a call is due, if any.
pub fn next_due(call: &Call, seen: &Seen) -> Option<u64>
    ensures { result ≡ next_due call.now seen.now }
{
    let plan = plan_of(call, seen);
    due_by(&plan, attempts_made(call, seen), due_state(call, seen))
}

/// The kind of the next attempt of a call.
pub fn kind_of_next(call: &Call, seen: &Seen) -> RowKind
    ensures { result ≡ kind_of_next call.now seen.now }
{
    if attempts_made(call, seen) == 0 {
        return RowKind::First;
    }
    later_kind(&plan_of(call, seen)).unwrap_or(RowKind::First)
}
