// Words on rows of the ledger and on plans.
ghost use Rattle.std.specs.Prelude.{◌≡◌, ◌≤◌};
ghost use Rattle.attempt_ledger.specs.Ends.{delay_of, is_above, is_cut, is_stop, millis_after};
ghost use Rattle.attempt_ledger.specs.Hedging.{is_hedge};
ghost use Rattle.attempt_ledger.specs.Numbering.{is_transparent, later_kind, most_attempts};
ghost use Rattle.attempt_ledger.specs.Throttling.{codes_of, is_success};
ghost use Rattle.attempt_ledger.specs.TransparentRows.{is_by_peer, is_refused, is_unsent};
ghost use Rattle.grpc_base.specs.Backoff.{capped_wait};
ghost use Rattle.grpc_base.specs.Limits.{duration_limit};

use a6_numbers::cap;
use attempt_ledger::{RowCause, RowEnd, RowKind};
use grpc_base::{CallPlan, Code, CodeSet, Pushback, RetryPolicy, Throttle};

/// Whether the client gave the attempt up.
pub fn is_cut(cause: RowCause) -> bool
    ensures { result ≡ is_cut cause }
{
    matches!(cause, RowCause::Cut)
}

/// Whether the request never left the client.
pub fn is_unsent(cause: RowCause) -> bool
    ensures { result ≡ is_unsent cause }
{
    matches!(cause, RowCause::Unsent)
}

/// Whether the peer ended the stream without a response.
pub fn is_by_peer(cause: RowCause) -> bool
    ensures { result ≡ is_by_peer cause }
{
    matches!(cause, RowCause::Reset | RowCause::Goaway)
}

/// Whether the peer ended the stream, and cannot have seen the request.
pub fn is_refused(end: &RowEnd) -> bool
    ensures { result ≡ is_refused end.now }
{
    end.unseen && is_by_peer(end.cause)
}

/// Whether a server forbids a further attempt.
pub fn is_stop(pushback: Pushback) -> bool
    ensures { result ≡ is_stop pushback }
{
    matches!(pushback, Pushback::Stop)
}

/// The delay that a server asks for, in milliseconds.
pub fn delay_of(pushback: Pushback) -> Option<u32>
    ensures { result ≡ delay_of pushback }
{
    match pushback {
        Pushback::After(millis) => Some(millis),
        Pushback::None | Pushback::Stop => None,
    }
}

/// The moment so many milliseconds after an end, in nanoseconds.
pub fn millis_after(end: &RowEnd, millis: u32) -> u64
    ensures { result ≡ millis_after end.now millis }
{
    end.moment.nanos() + u64::from(millis) * 1_000_000
}

/// Whether more than half of the tokens are left, where any are counted.
pub fn is_above(throttle: Option<Throttle>, tokens: Option<u32>) -> bool
    ensures { result ≡ is_above throttle tokens }
{
    match (throttle, tokens) {
        (Some(throttle), Some(tokens)) => u64::from(throttle.start) < 2 * u64::from(tokens),
        _ => true,
    }
}

/// Whether a row is no further attempt of its call.
pub fn is_transparent(kind: RowKind) -> bool
    ensures { result ≡ is_transparent kind }
{
    matches!(kind, RowKind::Transparent)
}

/// Whether a row is a hedge.
pub fn is_hedge(kind: RowKind) -> bool
    ensures { result ≡ is_hedge kind }
{
    matches!(kind, RowKind::Hedge)
}

/// The most attempts of a call: its plan's maximum, or 1 without a plan.
pub fn most_attempts(plan: &CallPlan) -> u32
    ensures { result ≡ most_attempts plan.now }
{
    match plan {
        CallPlan::None => 1,
        CallPlan::Retry(policy) => policy.max,
        CallPlan::Hedge(policy) => policy.max,
    }
}

/// The kind of the attempts after the first, where the plan allows any.
pub fn later_kind(plan: &CallPlan) -> Option<RowKind>
    ensures { result ≡ later_kind plan.now }
{
    match plan {
        CallPlan::None => None,
        CallPlan::Retry(_) => Some(RowKind::Retry),
        CallPlan::Hedge(_) => Some(RowKind::Hedge),
    }
}

/// The codes after which a plan goes on.
pub fn codes_of(plan: &CallPlan) -> CodeSet
    ensures { result ≡ codes_of plan.now }
{
    match plan {
        CallPlan::None => CodeSet::new(),
        CallPlan::Retry(policy) => policy.codes,
        CallPlan::Hedge(policy) => policy.codes,
    }
}

/// Whether a code is OK.
#[tactic(auto, using(crate::proofs::WordLaws::not_success))]
pub fn is_success(code: Code) -> bool
    ensures { result ≡ is_success code }
{
    matches!(code, Code::Ok)
}

/// The wait before the `n`-th retry in nanoseconds, before it is spread. The number 0 stands for 1.
pub fn wait_cap(policy: &RetryPolicy, n: u32) -> u64
    ensures value { result ≡ capped_wait policy.now.initial policy.now.multiplier policy.now.limit n }
    ensures within { result ≤ duration_limit }
{
    if n == 0 {
        cap(policy, 1)
    } else {
        cap(policy, n)
    }
}
