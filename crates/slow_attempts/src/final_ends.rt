// Which end of an attempt is final.
ghost use Rattle.std.specs.Prelude.{filter_map, ◌&&◌, ◌||◌, ◌≡◌};
ghost use Rattle.session_actions.specs.Attempts.{is_of, is_outstanding, is_queued};
ghost use Rattle.session_actions.specs.DueAttempts.{counted_row, has_going, is_final, is_final_by, last_counted};
ghost use Rattle.session_actions.specs.Words.{last_of};

use crate::attempts::{is_counted, is_of, is_outstanding, is_queued};
use crate::configs::plan_of;
use crate::due::{is_licensed, is_number, next_due};
use crate::words::numbered;
use attempt_ledger::RowEnd;
use grpc_base::CallPlan;
use session_actions::{Attempt, Call, Mark, MarkKind, Seen};

/// The place of the row whose counted end a mark is.
fn counted_row(seen: &Seen, what: MarkKind) -> Option<u64>
    ensures { result ≡ counted_row seen.now what }
{
    let MarkKind::Ended { row } = what else {
        return None;
    };
    if is_counted(numbered(&seen.attempts, row)?, seen) {
        Some(row)
    } else {
        None
    }
}

/// The place of the row of the last counted end among these marks.
#[tactic(auto, using(crate::proofs::WordLaws::last_counted_more))]
fn last_counted_in(seen: &Seen, marks: &[Mark]) -> Option<u64>
    ensures { result ≡ last_of (filter_map (λ m. counted_row seen.now m.what) marks.now) }
{
    let Some((mark, rest)) = marks.split_first() else {
        return None;
    };
    match last_counted_in(seen, rest) {
        Some(row) => Some(row),
        None => counted_row(seen, mark.what),
    }
}

/// The place of the row of the last counted end of a call.
fn last_counted(call: &Call, seen: &Seen) -> Option<u64>
    ensures { result ≡ last_counted call.now seen.now }
{
    last_counted_in(seen, call.marks.as_slice())
}

/// Whether an attempt is one of a call, and outstanding or queued.
fn is_going(call: &Call, seen: &Seen, attempt: &Attempt) -> bool
    ensures { result ≡ (is_of call.now attempt.now && (is_outstanding attempt.now || is_queued attempt.now seen.now)) }
{
    is_of(call, attempt) && (is_outstanding(attempt) || is_queued(attempt, seen))
}

/// Whether some attempt of a call is outstanding or queued.
fn has_going(call: &Call, seen: &Seen) -> bool
    ensures { result ≡ has_going call.now seen.now }
{
    seen.attempts
        .as_slice()
        .iter()
        .any(|attempt| is_going(call, seen, attempt))
}

/// Whether a counted end is final by a plan.
fn is_final_by(plan: &CallPlan, call: &Call, attempt: &Attempt, seen: &Seen, end: &RowEnd) -> bool
    ensures { result ≡ is_final_by plan.now call.now attempt.now seen.now end.now }
{
    match plan {
        CallPlan::None => true,
        CallPlan::Retry(_) => {
            let number = attempt.row.number;
            !is_licensed(call, number, end.code, end.pushback, end.tokens, seen)
        }
        CallPlan::Hedge(policy) => {
            !policy.codes.has(end.code)
                || (is_number(attempt.place, last_counted(call, seen))
                    && next_due(call, seen).is_none()
                    && !has_going(call, seen))
        }
    }
}

/// Whether an attempt has an end that no further attempt follows.
pub fn is_final(call: &Call, attempt: &Attempt, seen: &Seen) -> bool
    ensures { result ≡ is_final call.now attempt.now seen.now }
{
    let plan = plan_of(call, seen);
    match &attempt.row.ended {
        Some(end) => is_final_by(&plan, call, attempt, seen, end),
        None => false,
    }
}
