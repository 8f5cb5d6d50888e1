// The queue of attempts, and the pick requests that they make.
ghost use Rattle.std.specs.Prelude.{◌&&◌, ◌≡◌, IfOk, filter, not};
ghost use Rattle.std.specs.Option.{option_copied};
ghost use Rattle.session_actions.specs.Attempts.{of_its_call};
ghost use Rattle.session_actions.specs.Configs.{waits_for_ready};
ghost use Rattle.session_actions.specs.Policies.{asking, is_after, is_queued_before, is_served, is_served_by, next_asked};
ghost use Rattle.session_actions.specs.Words.{earlier, foremost, holds};
ghost use Rattle.slow_net.specs.Parts.{is_after_turn};

use crate::policies::{current_policy, current_state};
use crate::views::pick_of;
use grpc_base::{Conn, NoMemory};
use session_actions::{Action, Attempt, Seen, Turn};
use slow_attempts::{call_of, is_queued, waits_for_ready};
use std::alloc::Global;

/// Whether the call of an attempt does not wait for ready.
fn is_fail_fast(attempt: &Attempt, seen: &Seen) -> bool
    ensures { result ≡ of_its_call (λ c. not (waits_for_ready c seen.now)) attempt.now seen.now }
{
    match call_of(attempt, seen) {
        Some(call) => !waits_for_ready(call, seen),
        None => false,
    }
}

fn is_served_by(state: Conn, attempt: &Attempt, seen: &Seen) -> bool
    ensures { result ≡ is_served_by state attempt.now seen.now }
{
    match state {
        Conn::Ready => true,
        Conn::Failure => is_fail_fast(attempt, seen),
        _ => false,
    }
}

/// Whether a queued attempt is served.
fn is_served(alloc: Global, seen: &Seen, attempt: &Attempt) -> Result<bool, NoMemory>
    ensures { IfOk result (λ b. b ≡ is_served seen.now attempt.now) }
{
    if !is_queued(attempt, seen) {
        return Ok(false);
    }
    match current_state(alloc, seen)? {
        Some(state) => Ok(is_served_by(state, attempt, seen)),
        None => Ok(false),
    }
}

fn is_queued_before(attempt: &Attempt, other: &Attempt) -> bool
    ensures { result ≡ is_queued_before attempt.now other.now }
{
    attempt.row.call < other.row.call
        || (attempt.row.call == other.row.call && attempt.place < other.place)
}

fn is_after(turn: Turn, attempt: &Attempt) -> bool
    ensures { result ≡ is_after turn attempt.now }
{
    turn.call < attempt.row.call || (turn.call == attempt.row.call && turn.row < attempt.place)
}

fn is_after_turn(turn: Option<Turn>, attempt: &Attempt) -> bool
    ensures { result ≡ is_after_turn turn attempt.now }
{
    match turn {
        Some(turn) => is_after(turn, attempt),
        None => true,
    }
}

/// The one of two that comes first.
fn earlier<'a>(attempt: &'a Attempt, other: Option<&'a Attempt>) -> &'a Attempt
    ensures { result.now ≡ earlier is_queued_before attempt.now (option_copied other.entry) }
{
    match other {
        Some(other) => {
            if is_queued_before(other, attempt) {
                other
            } else {
                attempt
            }
        }
        None => attempt,
    }
}

fn is_asking(
    alloc: Global,
    seen: &Seen,
    turn: Option<Turn>,
    attempt: &Attempt,
) -> Result<bool, NoMemory>
    ensures { IfOk result (λ b. b ≡ (is_served seen.now attempt.now && is_after_turn turn attempt.now)) }
{
    if !is_after_turn(turn, attempt) {
        return Ok(false);
    }
    is_served(alloc, seen, attempt)
}

/// The foremost of these attempts that are served, after a turn.
fn foremost_of<'a>(
    alloc: Global,
    seen: &Seen,
    turn: Option<Turn>,
    attempts: &'a [Attempt],
) -> Result<Option<&'a Attempt>, NoMemory>
    ensures { IfOk result (λ a. option_copied a ≡ foremost is_queued_before (filter (λ b. is_served seen.now b && is_after_turn turn b) attempts.now)) }
{
    let Some((first, rest)) = attempts.split_first() else {
        return Ok(None);
    };
    let other = foremost_of(alloc, seen, turn, rest)?;
    if is_asking(alloc, seen, turn, first)? {
        Ok(Some(earlier(first, other)))
    } else {
        Ok(other)
    }
}

/// The pick request of an attempt, with its answer.
fn asking(alloc: Global, seen: &Seen, attempt: &Attempt) -> Result<Option<Action>, NoMemory>
    ensures { IfOk result (λ a. a ≡ asking seen.now attempt.now) }
{
    let Some(policy) = current_policy(seen) else {
        return Ok(None);
    };
    let answer = pick_of(alloc, policy, seen)?;
    Ok(Some(Action::PickRequested {
        row: attempt.place,
        generation: policy.number,
        answer,
    }))
}

/// The next pick request of the queue, after the last one of a pass if there is one.
pub fn next_asked(
    alloc: Global,
    turn: Option<Turn>,
    seen: &Seen,
) -> Result<Option<Action>, NoMemory>
    ensures { IfOk result (λ a. a ≡ next_asked (is_after_turn turn) seen.now) }
{
    match foremost_of(alloc, seen, turn, seen.attempts.as_slice())? {
        Some(attempt) => asking(alloc, seen, attempt),
        None => Ok(None),
    }
}
