// When a call is committed to an attempt.
ghost use Rattle.std.specs.Option.{option_copied};
ghost use Rattle.std.specs.Prelude.{IfOk, filter, find, option_map, ◌&&◌, ◌≡◌};
ghost use Rattle.session_actions.specs.Attempts.{commitment, is_of, is_outstanding, of_its_call};
ghost use Rattle.session_actions.specs.Commitments.{committing, furthest, has_head_in, is_final_end, is_final_in, is_free_call, is_further, is_headed, is_inherited, is_inherited_by, is_inherited_in, next_final, next_headed, next_inherited, next_overflow, overflow_row};
ghost use Rattle.session_actions.specs.Words.{earlier, first_of, foremost, holds};

use crate::streams::{accepted_bytes, drained, has_head};
use grpc_base::NoMemory;
use session_actions::{Action, Attempt, Call, CommitCause, Seen};
use slow_attempts::{call_of, commitment, is_counted, is_final, is_of, is_outstanding};
use std::alloc::Global;

/// Whether a call is open and not committed.
fn is_free_call(seen: &Seen, call: &Call) -> bool
    ensures { result ≡ is_free_call seen.now call.now }
{
    call.end.is_none() && commitment(call, seen).is_none()
}

/// Whether an attempt follows another one transparently.
fn is_inherited_by(attempt: &Attempt, other: &Attempt) -> bool
    ensures { result ≡ is_inherited_by attempt.now other.now }
{
    other.row.number == attempt.row.number && other.place < attempt.place
}

/// Whether an attempt follows the one to which a call is committed.
fn follows_commitment(attempt: &Attempt, seen: &Seen, call: &Call) -> bool
    ensures { result ≡ holds (is_inherited_by attempt.now) (commitment call.now seen.now) }
{
    match commitment(call, seen) {
        Some(other) => is_inherited_by(attempt, other),
        None => false,
    }
}

/// Whether an attempt takes over the commitment of its call.
fn is_inherited_in(attempt: &Attempt, seen: &Seen, call: &Call) -> bool
    ensures { result ≡ is_inherited_in attempt.now seen.now call.now }
{
    call.end.is_none() && follows_commitment(attempt, seen, call)
}

/// Whether the call of an attempt is committed to the one that it follows.
fn inherits(attempt: &Attempt, seen: &Seen) -> bool
    ensures { result ≡ of_its_call (is_inherited_in attempt.now seen.now) attempt.now seen.now }
{
    match call_of(attempt, seen) {
        Some(call) => is_inherited_in(attempt, seen, call),
        None => false,
    }
}

/// Whether an attempt is to take over a commitment.
fn is_inherited(seen: &Seen, attempt: &Attempt) -> bool
    ensures { result ≡ is_inherited seen.now attempt.now }
{
    attempt.row.committed.is_none() && inherits(attempt, seen)
}

/// Whether an attempt has an end that counts and is final for its call.
fn is_final_in(attempt: &Attempt, seen: &Seen, call: &Call) -> bool
    ensures { result ≡ is_final_in attempt.now seen.now call.now }
{
    is_free_call(seen, call) && is_counted(attempt, seen) && is_final(call, attempt, seen)
}

/// Whether the end of an attempt commits its call.
fn is_final_end(seen: &Seen, attempt: &Attempt) -> bool
    ensures { result ≡ is_final_end seen.now attempt.now }
{
    match call_of(attempt, seen) {
        Some(call) => is_final_in(attempt, seen, call),
        None => false,
    }
}

/// Whether an attempt was drained further than another one, or as far with a lower number.
fn is_further(seen: &Seen, attempt: &Attempt, other: &Attempt) -> Result<bool, NoMemory>
    ensures { IfOk result (λ b. b ≡ is_further seen.now attempt.now other.now) }
{
    let far = drained(attempt, seen)?;
    let other_far = drained(other, seen)?;
    Ok(other_far < far || (far == other_far && attempt.row.number < other.row.number))
}

/// The one of two attempts that was drained further.
fn further_of<'a>(
    seen: &Seen,
    attempt: &'a Attempt,
    other: Option<&'a Attempt>,
) -> Result<&'a Attempt, NoMemory>
    ensures { IfOk result (λ r. r.now ≡ earlier (is_further seen.now) attempt.now (option_copied other.entry)) }
{
    let Some(other) = other else {
        return Ok(attempt);
    };
    if is_further(seen, other, attempt)? {
        Ok(other)
    } else {
        Ok(attempt)
    }
}

/// Whether an attempt is one of a call, and outstanding.
fn is_outstanding_of(call: &Call, attempt: &Attempt) -> bool
    ensures { result ≡ (is_of call.now attempt.now && is_outstanding attempt.now) }
{
    is_of(call, attempt) && is_outstanding(attempt)
}

fn furthest_in<'a>(
    call: &Call,
    seen: &Seen,
    attempts: &'a [Attempt],
) -> Result<Option<&'a Attempt>, NoMemory>
    ensures { IfOk result (λ o. option_copied o ≡ foremost (is_further seen.now) (filter (λ a. is_of call.now a && is_outstanding a) attempts.now)) }
{
    let Some((first, rest)) = attempts.split_first() else {
        return Ok(None);
    };
    let later = furthest_in(call, seen, rest)?;
    if is_outstanding_of(call, first) {
        Ok(Some(further_of(seen, first, later)?))
    } else {
        Ok(later)
    }
}

/// The outstanding attempt of a call that was drained furthest.
pub fn furthest<'a>(call: &Call, seen: &'a Seen) -> Result<Option<&'a Attempt>, NoMemory>
    ensures { IfOk result (λ o. option_copied o ≡ furthest call.now seen.now) }
{
    furthest_in(call, seen, seen.attempts.as_slice())
}

/// The attempt that gets a call of which more bytes were accepted than are kept.
fn overflow_row<'a>(seen: &'a Seen, call: &Call) -> Result<Option<&'a Attempt>, NoMemory>
    ensures { IfOk result (λ o. option_copied o ≡ overflow_row seen.now call.now) }
{
    if !is_free_call(seen, call) {
        return Ok(None);
    }
    let accepted = accepted_bytes(call)?;
    if 262_144 < accepted {
        furthest(call, seen)
    } else {
        Ok(None)
    }
}

fn overflow_in<'a>(seen: &'a Seen, calls: &[Call]) -> Result<Option<&'a Attempt>, NoMemory>
    ensures { IfOk result (λ o. option_copied o ≡ first_of (overflow_row seen.now) calls.now) }
{
    let Some((first, rest)) = calls.split_first() else {
        return Ok(None);
    };
    match overflow_row(seen, first)? {
        Some(attempt) => Ok(Some(attempt)),
        None => overflow_in(seen, rest),
    }
}

/// Whether a call that is not committed is so by the head of this attempt.
fn has_head_in(alloc: Global, attempt: &Attempt, seen: &Seen, call: &Call) -> Result<bool, NoMemory>
    ensures { IfOk result (λ b. b ≡ has_head_in attempt.now seen.now call.now) }
{
    if !is_free_call(seen, call) {
        return Ok(false);
    }
    has_head(alloc, attempt, seen)
}

/// Whether an outstanding attempt has a head that commits its call.
fn is_headed(alloc: Global, seen: &Seen, attempt: &Attempt) -> Result<bool, NoMemory>
    ensures { IfOk result (λ b. b ≡ is_headed seen.now attempt.now) }
{
    if !is_outstanding(attempt) {
        return Ok(false);
    }
    match call_of(attempt, seen) {
        Some(call) => has_head_in(alloc, attempt, seen, call),
        None => Ok(false),
    }
}

fn headed_in<'a>(
    alloc: Global,
    seen: &Seen,
    attempts: &'a [Attempt],
) -> Result<Option<&'a Attempt>, NoMemory>
    ensures { IfOk result (λ o. option_copied o ≡ find (is_headed seen.now) attempts.now) }
{
    let Some((first, rest)) = attempts.split_first() else {
        return Ok(None);
    };
    if is_headed(alloc, seen, first)? {
        Ok(Some(first))
    } else {
        headed_in(alloc, seen, rest)
    }
}

/// The commitment of a call to an attempt.
fn committing(cause: CommitCause, attempt: Option<&Attempt>) -> Option<Action>
    ensures { result ≡ option_map (committing cause) (option_copied attempt.entry) }
{
    Some(Action::CallCommitted {
        row: attempt?.place,
        why: cause,
    })
}

/// The next commitment that a transparent retry takes over.
pub fn next_inherited(seen: &Seen) -> Option<Action>
    ensures { result ≡ next_inherited seen.now }
{
    let attempts = seen.attempts.as_slice();
    let found = attempts.iter().find(|attempt| is_inherited(seen, attempt));
    committing(CommitCause::Inherited, found)
}

/// The next commitment by a final end.
pub fn next_final(seen: &Seen) -> Option<Action>
    ensures { result ≡ next_final seen.now }
{
    let attempts = seen.attempts.as_slice();
    let found = attempts.iter().find(|attempt| is_final_end(seen, attempt));
    committing(CommitCause::Final, found)
}

/// The next commitment by more bytes than are kept.
pub fn next_overflow(seen: &Seen) -> Result<Option<Action>, NoMemory>
    ensures { IfOk result (λ o. o ≡ next_overflow seen.now) }
{
    let found = overflow_in(seen, seen.calls.as_slice())?;
    Ok(committing(CommitCause::Overflow, found))
}

/// The next commitment by the head of a response.
pub fn next_headed(alloc: Global, seen: &Seen) -> Result<Option<Action>, NoMemory>
    ensures { IfOk result (λ o. o ≡ next_headed seen.now) }
{
    let found = headed_in(alloc, seen, seen.attempts.as_slice())?;
    Ok(committing(CommitCause::Head, found))
}
