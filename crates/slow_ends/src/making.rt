// Attempts that are made: a transparent retry at once, and any other where it is due.
ghost use Rattle.std.specs.Prelude.{IfOk, option_and_then, ◌+◌, ◌≡◌};
ghost use Rattle.session_actions.specs.DueAttempts.{attempts_made, next_due};
ghost use Rattle.session_actions.specs.Making.{due_action, due_attempt, due_if_past, next_due_attempt, next_transparent};
ghost use Rattle.session_actions.specs.Words.{first_of};

use attempt_ledger::RowKind;
use grpc_base::NoMemory;
use session_actions::{Action, Call, Seen};
use slow_attempts::{
    attempts_made, fits_in_32_bits, has_tokens, is_hedge, kind_of_next, next_due, now, sum,
    wants_follower,
};

/// The next transparent retry, by the place of the row that it follows.
pub fn next_transparent(seen: &Seen) -> Option<Action>
    ensures { result ≡ next_transparent seen.now }
{
    let attempts = seen.attempts.as_slice();
    let attempt = attempts
        .iter()
        .find(|attempt| wants_follower(attempt, seen))?;
    Some(Action::AttemptMade {
        call: attempt.row.call,
        number: attempt.row.number,
        kind: RowKind::Transparent,
        due: now(seen).nanos(),
    })
}

/// The number of the next attempt of a call.
fn next_number(call: &Call, seen: &Seen) -> Result<u32, NoMemory>
    ensures { IfOk result (λ n. n ≡ attempts_made call.now seen.now + 1) }
{
    fits_in_32_bits(sum(attempts_made(call, seen), 1)?)
}

/// The attempt of a call that is due, or the hedge that is withheld.
fn due_attempt(call: &Call, seen: &Seen, due: u64) -> Result<Action, NoMemory>
    ensures { IfOk result (λ a. a ≡ due_attempt call.now seen.now due) }
{
    let kind = kind_of_next(call, seen);
    if is_hedge(kind) && !has_tokens(call, seen) {
        return Ok(Action::HedgeWithheld { call: call.number });
    }
    Ok(Action::AttemptMade {
        call: call.number,
        number: next_number(call, seen)?,
        kind,
        due,
    })
}

/// The attempt of a call that is due by now.
fn due_if_past(call: &Call, seen: &Seen, due: u64) -> Result<Option<Action>, NoMemory>
    ensures { IfOk result (λ o. o ≡ due_if_past call.now seen.now due) }
{
    if due <= now(seen).nanos() {
        Ok(Some(due_attempt(call, seen, due)?))
    } else {
        Ok(None)
    }
}

/// The attempt of an open call that is due by now.
fn due_in_open(call: &Call, seen: &Seen) -> Result<Option<Action>, NoMemory>
    ensures { IfOk result (λ o. o ≡ option_and_then (due_if_past call.now seen.now) (next_due call.now seen.now)) }
{
    match next_due(call, seen) {
        Some(due) => due_if_past(call, seen, due),
        None => Ok(None),
    }
}

/// The attempt of a call that is due by now, while the call is open.
fn due_action(seen: &Seen, call: &Call) -> Result<Option<Action>, NoMemory>
    ensures { IfOk result (λ o. o ≡ due_action seen.now call.now) }
{
    if call.end.is_none() {
        due_in_open(call, seen)
    } else {
        Ok(None)
    }
}

fn due_action_in(seen: &Seen, calls: &[Call]) -> Result<Option<Action>, NoMemory>
    ensures { IfOk result (λ o. o ≡ first_of (due_action seen.now) calls.now) }
{
    let Some((first, rest)) = calls.split_first() else {
        return Ok(None);
    };
    match due_action(seen, first)? {
        Some(action) => Ok(Some(action)),
        None => due_action_in(seen, rest),
    }
}

/// The next attempt that is due, by call.
pub fn next_due_attempt(seen: &Seen) -> Result<Option<Action>, NoMemory>
    ensures { IfOk result (λ o. o ≡ next_due_attempt seen.now) }
{
    due_action_in(seen, seen.calls.as_slice())
}
