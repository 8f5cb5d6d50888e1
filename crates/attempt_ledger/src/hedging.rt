// The law of hedging among the rows of a call.
ghost use Rattle.std.specs.Prelude.{◌≡◌, ◌↔◌, IsTrue};
ghost use Rattle.std.specs.List.{list_any};
ghost use Rattle.attempt_ledger.specs.Hedging.{IsDueHedge, KeepsHedging, ends_hedging, hedging_ended, is_hedge, is_hedging_over, makes_due, placing_makes_due, end_makes_due};

use crate::ends::{delay_of, is_followed, is_stop, millis_after};
use crate::{Placed, Row, RowEnd, RowKind};
use grpc_base::{CallPlan, HedgePolicy};

/// Whether the row keeps the law of hedging among all rows of its call, after these.
pub fn keeps_hedging(plan: &CallPlan, rows: &[Row], before: &[Row], row: &Row) -> bool
    ensures { IsTrue result ↔ KeepsHedging plan.now rows.now before.now row.now }
{
    match plan {
        CallPlan::Hedge(policy) => !is_hedge(row.kind) || is_due_hedge(policy, rows, before, row),
        CallPlan::None | CallPlan::Retry(_) => true,
    }
}

fn is_hedge(kind: RowKind) -> bool
    ensures { result ≡ is_hedge kind }
{
    matches!(kind, RowKind::Hedge)
}

fn is_due_hedge(policy: &HedgePolicy, rows: &[Row], before: &[Row], hedge: &Row) -> bool
    ensures { IsTrue result ↔ IsDueHedge policy.now rows.now before.now hedge.now }
{
    some_makes_due(policy, hedge.due, before) && !is_hedging_over(policy, hedge.due, rows)
}

/// Whether one of these rows makes a hedge due at this moment.
fn some_makes_due(policy: &HedgePolicy, due: u64, rows: &[Row]) -> bool
    ensures { result ≡ list_any (makes_due policy.now due) rows.now }
{
    rows.iter().any(|row| makes_due(policy, due, row))
}

fn makes_due(policy: &HedgePolicy, due: u64, row: &Row) -> bool
    ensures { result ≡ makes_due policy.now due row.now }
{
    placing_makes_due(policy, due, row.placed) || end_makes_due(due, row)
}

fn placing_makes_due(policy: &HedgePolicy, due: u64, placed: Option<Placed>) -> bool
    ensures { result ≡ placing_makes_due policy.now due placed }
{
    match placed {
        Some(placed) => due == placed.moment.nanos() + policy.delay.nanos(),
        None => false,
    }
}

fn end_makes_due(due: u64, row: &Row) -> bool
    ensures { result ≡ end_makes_due due row.now }
{
    let Some(end) = &row.ended else {
        return false;
    };
    match delay_of(end.pushback) {
        Some(millis) => due == end.moment.nanos() || due == millis_after(end, millis),
        None => due == end.moment.nanos(),
    }
}

/// Whether an end ended the hedging of the call before this moment.
fn is_hedging_over(policy: &HedgePolicy, moment: u64, rows: &[Row]) -> bool
    ensures { result ≡ is_hedging_over policy.now moment rows.now }
{
    for (place, row) in rows.iter().enumerate() {
        if hedging_ended(policy, moment, row, &rows[place + 1..]) {
            return true;
        }
    }
    false
}

fn hedging_ended(policy: &HedgePolicy, moment: u64, row: &Row, after: &[Row]) -> bool
    ensures { result ≡ hedging_ended policy.now moment row.now after.now }
{
    match &row.ended {
        Some(end) => ends_hedging(policy, moment, row, after, end),
        None => false,
    }
}

fn ends_hedging(policy: &HedgePolicy, moment: u64, row: &Row, after: &[Row], end: &RowEnd) -> bool
    ensures { result ≡ ends_hedging policy.now moment row.now after.now end.now }
{
    end.moment.nanos() < moment
        && (is_stop(end.pushback) || (!policy.codes.has(end.code) && !is_followed(row, after)))
}
