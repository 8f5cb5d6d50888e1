// Attempts: which are outstanding, queued or over, which a transparent retry follows, and which ends count.
ghost use Rattle.std.specs.Option.{option_copied};
ghost use Rattle.std.specs.Prelude.{◌&&◌, ◌≡◌};
ghost use Rattle.session_actions.specs.Attempts.{call_of, commitment, counts_by, is_commitment, is_counted, is_followed, is_later_of, is_of, is_outstanding, is_over, is_over_in, is_queued, is_to_follow, of_its_call, wants_follower, wants_follower_by, was_refused, was_retried_so};
ghost use Rattle.session_actions.specs.Words.{find_last};

use crate::ledger_words::{is_by_peer, is_cut, is_refused, is_unsent};
use crate::words::numbered;
use attempt_ledger::{RowCause, RowEnd};
use session_actions::{Attempt, Call, Seen};

/// Whether an attempt is one of a call.
pub fn is_of(call: &Call, attempt: &Attempt) -> bool
    ensures { result ≡ is_of call.now attempt.now }
{
    attempt.row.call == call.number
}

/// The call of an attempt.
pub fn call_of<'a>(attempt: &Attempt, seen: &'a Seen) -> Option<&'a Call>
    ensures { option_copied result ≡ call_of attempt.now seen.now }
{
    numbered(&seen.calls, u64::from(attempt.row.call))
}

/// Whether an attempt was placed, and has not ended.
pub fn is_outstanding(attempt: &Attempt) -> bool
    ensures { result ≡ is_outstanding attempt.now }
{
    attempt.row.placed.is_some() && attempt.row.ended.is_none()
}

/// Whether a call was committed to an attempt.
fn is_commitment(call: &Call, attempt: &Attempt) -> bool
    ensures { result ≡ is_commitment call.now attempt.now }
{
    is_of(call, attempt) && attempt.row.committed.is_some()
}

/// The last of these attempts to which a call was committed.
fn commitment_in<'a>(call: &Call, attempts: &'a [Attempt]) -> Option<&'a Attempt>
    ensures { option_copied result ≡ find_last (is_commitment call.now) attempts.now }
{
    let (first, rest) = attempts.split_first()?;
    if let Some(later) = commitment_in(call, rest) {
        return Some(later);
    }
    if is_commitment(call, first) {
        Some(first)
    } else {
        None
    }
}

/// The attempt to which a call is committed.
pub fn commitment<'a>(call: &Call, seen: &'a Seen) -> Option<&'a Attempt>
    ensures { option_copied result ≡ commitment call.now seen.now }
{
    commitment_in(call, seen.attempts.as_slice())
}

/// Whether an attempt is over for its call: it has ended, or is committed to another one.
fn is_over_in(call: &Call, attempt: &Attempt, seen: &Seen) -> bool
    ensures { result ≡ is_over_in call.now attempt.now seen.now }
{
    if call.end.is_some() {
        return true;
    }
    match commitment(call, seen) {
        Some(other) => other.row.number != attempt.row.number,
        None => false,
    }
}

/// Whether an attempt is over.
pub fn is_over(attempt: &Attempt, seen: &Seen) -> bool
    ensures { result ≡ is_over attempt.now seen.now }
{
    match call_of(attempt, seen) {
        Some(call) => is_over_in(call, attempt, seen),
        None => false,
    }
}

/// Whether an attempt is queued: not placed, not ended and not over.
pub fn is_queued(attempt: &Attempt, seen: &Seen) -> bool
    ensures { result ≡ is_queued attempt.now seen.now }
{
    attempt.row.placed.is_none() && attempt.row.ended.is_none() && !is_over(attempt, seen)
}

/// Whether a row is a later one of the number of an attempt.
fn is_later_of(attempt: &Attempt, other: &Attempt) -> bool
    ensures { result ≡ is_later_of attempt.now other.now }
{
    other.row.call == attempt.row.call
        && other.row.number == attempt.row.number
        && attempt.place < other.place
}

/// Whether a transparent retry follows an attempt.
pub fn is_followed(attempt: &Attempt, seen: &Seen) -> bool
    ensures { result ≡ is_followed attempt.now seen.now }
{
    seen.attempts
        .as_slice()
        .iter()
        .any(|other| is_later_of(attempt, other))
}

/// Whether the server did not process an attempt.
fn was_refused(attempt: &Attempt) -> bool
    ensures { result ≡ was_refused attempt.now }
{
    match &attempt.row.ended {
        Some(end) => is_refused(end),
        None => false,
    }
}

/// Whether an attempt of a call was refused, and retried transparently.
fn is_retried_so(call: &Call, seen: &Seen, attempt: &Attempt) -> bool
    ensures { result ≡ (is_of call.now attempt.now && was_refused attempt.now && is_followed attempt.now seen.now) }
{
    is_of(call, attempt) && was_refused(attempt) && is_followed(attempt, seen)
}

/// Whether some attempt of a call was retried transparently after a refusal.
fn was_retried_so(call: &Call, seen: &Seen) -> bool
    ensures { result ≡ was_retried_so call.now seen.now }
{
    seen.attempts
        .as_slice()
        .iter()
        .any(|attempt| is_retried_so(call, seen, attempt))
}

/// Whether a transparent retry follows an end.
pub fn is_to_follow(call: &Call, cause: RowCause, unseen: bool, seen: &Seen) -> bool
    ensures { result ≡ is_to_follow call.now cause unseen seen.now }
{
    is_unsent(cause)
        || (unseen
            && is_by_peer(cause)
            && commitment(call, seen).is_none()
            && !was_retried_so(call, seen))
}

/// Whether a transparent retry is to follow an end of an attempt, as its call says.
pub fn is_to_follow_in_call(attempt: &Attempt, cause: RowCause, unseen: bool, seen: &Seen) -> bool
    ensures { result ≡ of_its_call (λ c. is_to_follow c cause unseen seen.now) attempt.now seen.now }
{
    match call_of(attempt, seen) {
        Some(call) => is_to_follow(call, cause, unseen, seen),
        None => false,
    }
}

/// Whether an end of an attempt is to be followed, and is not yet.
fn wants_follower_by(attempt: &Attempt, seen: &Seen, end: &RowEnd) -> bool
    ensures { result ≡ wants_follower_by attempt.now seen.now end.now }
{
    !is_followed(attempt, seen) && is_to_follow_in_call(attempt, end.cause, end.unseen, seen)
}

/// Whether an attempt ended, is to be followed, and is not yet.
pub fn wants_follower(attempt: &Attempt, seen: &Seen) -> bool
    ensures { result ≡ wants_follower attempt.now seen.now }
{
    match &attempt.row.ended {
        Some(end) => wants_follower_by(attempt, seen, end),
        None => false,
    }
}

/// Whether an end of an attempt counts.
pub fn counts_by(attempt: &Attempt, seen: &Seen, end: &RowEnd) -> bool
    ensures { result ≡ counts_by attempt.now seen.now end.now }
{
    !is_cut(end.cause) && !is_followed(attempt, seen) && !wants_follower_by(attempt, seen, end)
}

/// Whether an attempt has an end that counts.
pub fn is_counted(attempt: &Attempt, seen: &Seen) -> bool
    ensures { result ≡ is_counted attempt.now seen.now }
{
    match &attempt.row.ended {
        Some(end) => counts_by(attempt, seen, end),
        None => false,
    }
}
