// The law of throttling among the rows of a call.
ghost use Rattle.std.specs.Prelude.{◌≡◌, ◌↔◌, IsTrue};
ghost use Rattle.attempt_ledger.specs.Throttling.{IsCountAfter, KeepsThrottling, codes_of, is_failure, is_success};

use crate::ends::{is_counted, is_stop};
use crate::{Row, RowEnd};
use grpc_base::{CallPlan, Chosen, Code, CodeSet, Throttle};

/// A token, in the thousandths in which tokens are counted.
const TOKEN: u32 = 1000;

/// Whether the row keeps the law of throttling before these.
pub fn keeps_throttling(chosen: &Chosen, row: &Row, after: &[Row]) -> bool
    ensures { IsTrue result ↔ KeepsThrottling chosen.now row.now after.now }
{
    let (Some(throttle), Some(end)) = (chosen.throttle, &row.ended) else {
        return true;
    };
    match end.tokens {
        Some(tokens) => is_count_after(&chosen.plan, throttle, row, after, end, tokens),
        None => true,
    }
}

/// Whether a bucket can have this count after an end.
fn is_count_after(
    plan: &CallPlan,
    throttle: Throttle,
    row: &Row,
    after: &[Row],
    end: &RowEnd,
    tokens: u32,
) -> bool
    ensures { IsTrue result ↔ IsCountAfter plan.now throttle row.now after.now end.now tokens }
{
    if throttle.start < tokens {
        return false;
    }
    if !is_counted(row, after, end) {
        return true;
    }
    if is_success(end.code) {
        return throttle.ratio.min(throttle.start) <= tokens;
    }
    !is_failure(plan, end) || tokens <= throttle.start.saturating_sub(TOKEN)
}

fn is_failure(plan: &CallPlan, end: &RowEnd) -> bool
    ensures { result ≡ is_failure plan.now end.now }
{
    !is_success(end.code) && (codes_of(plan).has(end.code) || is_stop(end.pushback))
}

fn is_success(code: Code) -> bool
    ensures { result ≡ is_success code }
{
    matches!(code, Code::Ok)
}

/// The codes after which a plan goes on.
fn codes_of(plan: &CallPlan) -> CodeSet
    ensures { result ≡ codes_of plan.now }
{
    match plan {
        CallPlan::None => CodeSet::new(),
        CallPlan::Retry(policy) => policy.codes,
        CallPlan::Hedge(policy) => policy.codes,
    }
}
