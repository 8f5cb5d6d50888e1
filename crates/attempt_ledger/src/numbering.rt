// The numbering of a call's attempts: their kinds, numbers and count, and the order of what happened to each.
ghost use Rattle.std.specs.Prelude.{◌≡◌, ◌↔◌, IsTrue, Some};
ghost use Rattle.attempt_ledger.specs.Numbering.{IsInOrder, IsNextAttempt, KeepsNumbering, is_transparent, kind_by_number, most_attempts};

use crate::{Row, RowCause, RowKind};
use grpc_base::{CallPlan, Code};

/// Whether a row of this kind is no further attempt.
pub fn is_transparent(kind: RowKind) -> bool
    ensures { result ≡ is_transparent kind }
{
    matches!(kind, RowKind::Transparent)
}

fn most_attempts(plan: &CallPlan) -> u32
    ensures { result ≡ most_attempts plan.now }
{
    match plan {
        CallPlan::None => 1,
        CallPlan::Retry(policy) => policy.max,
        CallPlan::Hedge(policy) => policy.max,
    }
}

/// The kind of the attempt of this number; None where the plan allows no second one.
fn kind_by_number(plan: &CallPlan, number: u32) -> Option<RowKind>
    ensures { result ≡ kind_by_number plan.now number }
{
    if number == 1 {
        return Some(RowKind::First);
    }
    match plan {
        CallPlan::None => None,
        CallPlan::Retry(_) => Some(RowKind::Retry),
        CallPlan::Hedge(_) => Some(RowKind::Hedge),
    }
}

/// Whether the row was due, was placed and ended in this order; without a placing only a failed pick ends it.
fn is_in_order(row: &Row) -> bool
    ensures { IsTrue result ↔ IsInOrder row.now }
{
    match (&row.placed, &row.ended) {
        (Some(placed), Some(end)) => {
            row.due <= placed.moment.nanos() && placed.moment.nanos() <= end.moment.nanos()
        }
        (Some(placed), None) => row.due <= placed.moment.nanos(),
        (None, Some(end)) => {
            row.stream.is_none()
                && matches!(end.code, Code::Unavailable)
                && matches!(end.cause, RowCause::Pick)
        }
        (None, None) => row.stream.is_none(),
    }
}

/// Whether the attempt of this number is of this kind.
fn has_kind(plan: &CallPlan, number: u32, kind: RowKind) -> bool
    ensures { IsTrue result ↔ (Some kind ≡ kind_by_number plan.now number) }
{
    match kind_by_number(plan, number) {
        Some(wanted) => kind == wanted,
        None => false,
    }
}

fn is_next_attempt(plan: &CallPlan, count: u32, row: &Row) -> bool
    ensures { IsTrue result ↔ IsNextAttempt plan.now count row.now }
{
    row.number > count
        && row.number - count == 1
        && row.number <= most_attempts(plan)
        && has_kind(plan, row.number, row.kind)
}

/// Whether the row keeps the law of numbering after so many attempts.
pub fn keeps_numbering(plan: &CallPlan, count: u32, row: &Row) -> bool
    ensures { IsTrue result ↔ KeepsNumbering plan.now count row.now }
{
    is_in_order(row) && (is_transparent(row.kind) || is_next_attempt(plan, count, row))
}
